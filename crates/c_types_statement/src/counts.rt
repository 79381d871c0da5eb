//! How many locals statements declare; out of memory where no `usize` holds it.

ghost use Rattle.std.specs.Prelude.{◌≡◌, ◌∷◌, [], map};
ghost use Rattle.c_syntax.specs.Locals.{start_of};
ghost use Rattle.c_syntax.specs.Statements.{statement_of, part_of, parts_of, group_of, groups_of};
ghost use Rattle.c_types_spec.specs.Statements as rule;
ghost use Rattle.c_types_core.specs.Counted.{IsCounted};
ghost use Rattle.c_types_expression.specs.Trees.{unboxed};

use attempt::attempt;
use c_syntax::statement::{ForStart, Group, Part, Statement};
use c_types_core::counts::sum;
use std::alloc::AllocError;

/// How many locals the start of a `for` declares.
#[tactic(auto, using(crate::proofs::Declared::declared))]
fn locals_at_start(start: &ForStart<'_>) -> usize
    ensures { result ≡ rule.locals_at_start (start_of start.now) }
{
    match start {
        ForStart::Locals(locals) => locals.locals.len(),
        ForStart::Empty | ForStart::Simple(_) => 0,
    }
}

/// How many locals a statement declares.
#[cycle(counts)]
#[tactic(auto, unfolding(c_types_spec::specs::Statements::locals_in), using(c_syntax::proofs::StatementViews::statement_views))]
fn locals_in(x: &Statement<'_>) -> Result<usize, AllocError>
    ensures { IsCounted (rule.locals_in (statement_of x.now)) result }
{
    match x {
        Statement::Block(parts, _) => locals_of(parts.as_slice()),
        Statement::If(_, body, _) | Statement::While(_, body, _) | Statement::Do(body, _, _) => {
            locals_in(body)
        }
        Statement::IfElse(_, first, second, _) => {
            let a = attempt!(locals_in(first));
            let b = attempt!(locals_in(second));
            sum(a, b)
        }
        Statement::For(start, _, _, body, _) => {
            let inner = attempt!(locals_in(body));
            sum(locals_at_start(start), inner)
        }
        Statement::Switch(_, list, _) => locals_of_groups(list.as_slice()),
        Statement::Empty(_) | Statement::Perform(_) | Statement::Break(_) => Ok(0),
        Statement::Continue(_) | Statement::Return(_, _) => Ok(0),
    }
}

/// How many locals one part declares.
#[cycle(counts)]
#[tactic(auto, unfolding(c_types_spec::specs::Statements::locals_of), using(c_syntax::proofs::StatementViews::statement_views, crate::proofs::Declared::declared))]
fn locals_of_part(part: &Part<'_>) -> Result<usize, AllocError>
    ensures { IsCounted (rule.locals_of (parts_of (part_of part.now ∷ []))) result }
{
    match part {
        Part::Locals(locals) => Ok(locals.locals.len()),
        Part::Statement(x) => locals_in(x),
    }
}

/// How many locals the parts of a block declare.
#[cycle(counts)]
#[tactic(auto, using(crate::proofs::Declared::declared))]
pub fn locals_of(list: &[Part<'_>]) -> Result<usize, AllocError>
    ensures { IsCounted (rule.locals_of (parts_of (map part_of list.now))) result }
{
    let mut count = 0;
    for part in list {
        let more = attempt!(locals_of_part(part));
        count = attempt!(sum(count, more));
    }
    Ok(count)
}

/// How many locals a group of a `switch` declares.
#[cycle(counts)]
#[tactic(auto, using(crate::proofs::SwitchGroups::by_parts))]
fn locals_of_group(group: &Group<'_>) -> Result<usize, AllocError>
    ensures { IsCounted (rule.locals_of (group_of group.now).1) result }
{
    locals_of(group.parts.as_slice())
}

/// How many locals the groups of a `switch` declare.
#[cycle(counts)]
#[tactic(auto, using(crate::proofs::Declared::declared))]
fn locals_of_groups(list: &[Box<Group<'_>>]) -> Result<usize, AllocError>
    ensures { IsCounted (rule.locals_of_groups (groups_of (map group_of (unboxed
        list.now)))) result }
{
    let mut count = 0;
    for group in list {
        let more = attempt!(locals_of_group(group));
        count = attempt!(sum(count, more));
    }
    Ok(count)
}
