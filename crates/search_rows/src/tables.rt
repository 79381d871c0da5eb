//! A judge that knows assignments by which lines they make false.

ghost use Rattle.std.specs.Prelude.{◌≡◌, IfOk, not, filter, nat_eq};
ghost use Rattle.std.specs.List.{list_any};
ghost use Rattle.relation_search.specs.Greatest.{without};
ghost use Rattle.search_rows.specs.Tables as tables;
ghost use Rattle.search_rows.specs.Tables.{refuted_by, first_refuted, refutes, monotone};

use attempt::attempt;
use relation_search::{Judge, Judged};
use std::alloc::{AllocError, Global};

/// The lines that an assignment makes false where they hold at the start, and those that it makes
/// false where they are to be shown.
#[derive(Drop)]
pub(crate) struct Row {
    pub(crate) before: Vec<usize>,
    pub(crate) after: Vec<usize>,
}

/// The judge.
#[derive(Drop)]
pub(crate) struct Table {
    pub(crate) rows: Vec<Row>,
    /// The lines that are left.
    pub(crate) left: Vec<usize>,
    /// How often it answers before it gives up.
    pub(crate) patience: usize,
    /// How often it gave up.
    pub(crate) limits: usize,
}

// Whether one of the lines is among these.
fn meets(some: &[usize], lines: &[usize]) -> bool
    ensures { result ≡ list_any (λ line. list_any (λ other. nat_eq other line) some.now) lines.now }
{
    for line in lines {
        if some.contains(line) {
            return true;
        }
    }
    false
}

// Whether a line is among these.
fn is_among(some: &[usize], line: usize) -> bool
    ensures { result ≡ tables.is_among some.now line }
{
    some.contains(&line)
}

// Keeps the lines that are among these.
fn keep(lines: &mut Vec<usize>, some: &[usize])
    ensures { lines.new.items ≡ filter (tables.is_among some.now) lines.old.items }
{
    lines.retain(|line| is_among(some, *line));
}

// The lines that a row refutes where all of them hold.
fn refuted(alloc: Global, row: &Row, lines: &[usize]) -> Result<Vec<usize>, AllocError>
    ensures { IfOk result (λ out. out.items
        ≡ refuted_by row.now.before.items row.now.after.items lines.now) }
{
    if meets(row.before.as_slice(), lines) {
        return Ok(Vec::new(alloc));
    }
    let mut out = attempt!(Vec::from_slice(alloc, lines), AllocError);
    keep(&mut out, row.after.as_slice());
    Ok(out)
}

// The lines that the first row refutes that refutes some; none, where no row does.
fn first(alloc: Global, rows: &[Row], lines: &[usize]) -> Result<Vec<usize>, AllocError>
    ensures { IfOk result (λ out. out.items ≡ first_refuted rows.now lines.now) }
{
    for row in rows {
        let out = attempt!(refuted(alloc, row, lines));
        if !out.is_empty() {
            return Ok(out);
        }
    }
    Ok(Vec::new(alloc))
}

// Whether a line isn't taken out.
fn stays(out: &[usize], line: usize) -> bool
    ensures { result ≡ not (list_any (λ other. nat_eq other line) out.now) }
{
    !out.contains(&line)
}

// Takes lines out.
fn take_out(lines: &mut Vec<usize>, out: &[usize])
    ensures { lines.new.items ≡ without out.now lines.old.items }
{
    lines.retain(|line| stays(out, *line));
}

impl Judge for Table {
    ghost refutes = { λ t. refutes t.rows.items };

    ghost left = { λ t. t.left.items };

    ghost limits = { λ t. t.limits };

    fn judge(&mut self, alloc: Global, lines: &[usize]) -> Result<Judged, AllocError> {
        if self.patience == 0 {
            self.limits = 1;
            return Ok(Judged::Limit);
        }
        self.patience -= 1;
        let out = attempt!(first(alloc, self.rows.as_slice(), lines));
        if out.is_empty() {
            return Ok(Judged::Holds);
        }
        take_out(&mut self.left, out.as_slice());
        Ok(Judged::Refutes(out))
    }

    ghost monotone = { λ t. monotone t.rows.items };
}
