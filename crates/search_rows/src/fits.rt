// The question `fit COUNT ROWS`: which of so many lines are kept, or `limit`; and after `/` those
// that the judge's answers have left.
//
// A row is `A>B`: the lines that an assignment makes false where they hold at the start, and those
// that it makes false where they are to be shown, with commas between. `after` and a number say how
// often the judge answers before it gives up.

ghost use Rattle.std.specs.Prelude.{◌≡◌, IfOk};
ghost use Rattle.std.specs.List.{range_with_len};

use crate::graphs::{add_numbers, number};
use crate::tables::{Row, Table};
use attempt::attempt;
use relation_search::{Fit, fit};
use row_io::{Out, split, split_at};
use std::alloc::{AllocError, Global};

fn numbers(alloc: Global, text: &str) -> Result<Vec<usize>, AllocError> {
    let mut numbers = Vec::new(alloc);
    for word in text.split(',') {
        if !word.is_empty() {
            attempt!(numbers.push(number(word)), AllocError);
        }
    }
    Ok(numbers)
}

fn row(alloc: Global, text: &str) -> Result<Row, AllocError> {
    let (before, after) = split(text, '>');
    let before = attempt!(numbers(alloc, before));
    let after = attempt!(numbers(alloc, after));
    Ok(Row { before, after })
}

fn rows(alloc: Global, text: &str) -> Result<Vec<Row>, AllocError> {
    let mut rows = Vec::new(alloc);
    for word in text.split(' ') {
        if !word.is_empty() {
            let row = attempt!(row(alloc, word));
            attempt!(rows.push(row), AllocError);
        }
    }
    Ok(rows)
}

// The numbers of so many lines.
fn all_lines(alloc: Global, count: usize) -> Result<Vec<usize>, AllocError>
    ensures { IfOk result (λ all. all.items ≡ range_with_len 0 count) }
{
    (0..count).collect(alloc)
}

// How often the judge of so many lines answers: as the text says, else as often as it can be asked.
fn limit(count: usize, text: &str) -> usize {
    if text.is_empty() {
        return count.wrapping_add(1);
    }
    number(text)
}

// The judge of a text, of so many lines.
fn table(alloc: Global, count: usize, text: &str) -> Result<Table, AllocError>
    ensures left { IfOk result (λ table. table.left.items ≡ range_with_len 0 count) }
    ensures limits { IfOk result (λ table. table.limits ≡ 0) }
{
    let (words, patience) = split_at(text, "after ");
    let rows = attempt!(rows(alloc, words));
    let left = attempt!(all_lines(alloc, count));
    Ok(Table {
        rows,
        left,
        patience: limit(count, patience),
        limits: 0,
    })
}

/// Adds the answer.
pub(crate) fn answer(alloc: Global, out: &mut Out, text: &str) -> Result<(), AllocError> {
    let (count, words) = split(text, ' ');
    let count = number(count);
    let mut table = attempt!(table(alloc, count, words));
    match attempt!(fit(alloc, count, &mut table)) {
        Fit::Kept(lines) => add_numbers(out, lines.as_slice()),
        Fit::Limit => out.put("limit"),
    }
    out.put(" / ");
    add_numbers(out, table.left.as_slice());
    Ok(())
}
