// The width of a word: its operator says it, or the word that it has as its first argument.

ghost use Rattle.std.specs.Prelude.{◌≡◌, ◌<◌, length};
ghost use Rattle.term_bank.specs.Nodes.{IsNode, tree_at};
ghost use Rattle.term_norm_spec.specs.Patterns as patterns;
ghost use Rattle.term_norm_rules.specs.Forms.{wide_width, IsBefore};

use crate::patterns::node_at;
use term_bank::{Bank, TermId, TermNode};
use term_core_spec::{
    Atom, BinaryOperator, QuaternaryOperator, Sort, TernaryOperator, UnaryOperator, Width,
};

/// What a node says of its width.
#[derive(Clone, Copy)]
pub enum Wide {
    /// the width is this one
    Known(Width),
    /// the width is that of another term
    Like(TermId),
}

fn width_of_atom(atom: Atom) -> Width
    ensures { result ≡ patterns.width_of_atom atom }
{
    match atom {
        Atom::Truth(_) => Width::W8,
        Atom::Constant(width, _) => width,
        Atom::Open(variable) => match variable.sort {
            Sort::Word(width) => width,
            Sort::Truth | Sort::Memory => Width::W8,
        },
    }
}

// The width that the node at an index gives, or where to look for it.
#[tactic(auto, unfolding(term_norm_spec::specs::Patterns::width_of))]
fn width_step(bank: &Bank, x: TermId) -> Wide
    requires { x < length bank.now }
    ensures width { patterns.width_of (tree_at bank.now x) ≡ wide_width bank.now result }
    ensures before { IsBefore x result }
{
    match node_at(bank, x) {
        TermNode::Leaf(atom) => Wide::Known(width_of_atom(atom)),
        TermNode::Unary(UnaryOperator::Complement, a) => Wide::Like(a),
        TermNode::Unary(UnaryOperator::ZeroExtend(width), _) => Wide::Known(width),
        TermNode::Unary(UnaryOperator::SignExtend(width), _) => Wide::Known(width),
        TermNode::Unary(UnaryOperator::Low(width), _) => Wide::Known(width),
        TermNode::Binary(BinaryOperator::Word(_), a, _) => Wide::Like(a),
        TermNode::Binary(BinaryOperator::Join, _, _) => Wide::Known(Width::W16),
        TermNode::Ternary(TernaryOperator::Choose, _, a, _) => Wide::Like(a),
        TermNode::Quaternary(QuaternaryOperator::Join, _, _, _, _) => Wide::Known(Width::W32),
        TermNode::Octonary(_, _, _, _, _, _, _, _) => Wide::Known(Width::W64),
        _ => Wide::Known(Width::W8),
    }
}

/// The width of a word, and 8 of what is no word: a walk down the first arguments.
pub fn width_of(bank: &Bank, x: TermId) -> Width
    requires { x < length bank.now }
    ensures { result ≡ patterns.width_of (tree_at bank.now x) }
{
    let mut place = x;
    loop {
        match width_step(bank, place) {
            Wide::Known(width) => return width,
            Wide::Like(argument) => place = argument,
        }
    }
}
