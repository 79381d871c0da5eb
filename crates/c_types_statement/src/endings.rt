//! Whether control may go on after statements (6.8).

ghost use Rattle.std.specs.Prelude.{◌≡◌, ◌∷◌, [], map};
ghost use Rattle.c_syntax.specs.Statements.{statement_of, part_of, parts_of};
ghost use Rattle.c_types_spec.specs.Statements as rule;

use c_syntax::statement::{Part, Statement};

/// Control never goes on after the statement, as is seen from its form.
#[cycle(endings)]
#[tactic(auto, unfolding(c_types_spec::specs::Statements::exits), using(c_syntax::proofs::StatementViews::statement_views))]
fn exits(x: &Statement<'_>) -> bool
    ensures { result ≡ rule.exits (statement_of x.now) }
{
    match x {
        Statement::Block(parts, _) => ends(parts.as_slice(), false),
        Statement::Break(_) | Statement::Continue(_) | Statement::Return(_, _) => true,
        Statement::IfElse(_, first, second, _) => exits(first) && exits(second),
        Statement::Empty(_) | Statement::Perform(_) | Statement::If(_, _, _) => false,
        Statement::While(_, _, _) | Statement::Do(_, _, _) => false,
        Statement::For(_, _, _, _, _) | Statement::Switch(_, _, _) => false,
    }
}

/// It doesn't after a part; `last` is so of the one before.
#[cycle(endings)]
#[tactic(auto, unfolding(c_types_spec::specs::Statements::ends), using(c_syntax::proofs::StatementViews::statement_views))]
fn ends_part(part: &Part<'_>, last: bool) -> bool
    ensures { result ≡ rule.ends (parts_of (part_of part.now ∷ [])) last }
{
    match part {
        Part::Locals(_) => last,
        Part::Statement(statement) => exits(statement),
    }
}

/// It doesn't after the last of these statements; `last` is so of the one before.
#[cycle(endings)]
#[tactic(auto, using(crate::proofs::Lists::last_parts))]
pub fn ends(list: &[Part<'_>], last: bool) -> bool
    ensures { result ≡ rule.ends (parts_of (map part_of list.now)) last }
{
    let mut ends = last;
    for part in list {
        ends = ends_part(part, ends);
    }
    ends
}
