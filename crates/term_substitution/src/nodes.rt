// The arguments of a node.

ghost use Rattle.std.specs.Prelude.{◌≡◌, ◌≤◌, length, take};
ghost use Rattle.term_bank.specs.Subterms.{arguments_of};

use term_bank::{TermId, TermNode};

/// The arguments of a node, from left to right, and how many there are; the rest are zeros.
pub fn arguments(node: TermNode) -> ([TermId; 8], usize)
    ensures few { result.1 ≤ 8 }
    ensures count { length (arguments_of node) ≡ result.1 }
    ensures are { take result.1 result.0 ≡ arguments_of node }
{
    match node {
        TermNode::Leaf(_) => ([0; 8], 0),
        TermNode::Unary(_, a) => ([a, 0, 0, 0, 0, 0, 0, 0], 1),
        TermNode::Binary(_, a, b) => ([a, b, 0, 0, 0, 0, 0, 0], 2),
        TermNode::Ternary(_, a, b, c) => ([a, b, c, 0, 0, 0, 0, 0], 3),
        TermNode::Quaternary(_, a, b, c, d) => ([a, b, c, d, 0, 0, 0, 0], 4),
        TermNode::Octonary(a, b, c, d, e, f, g, h) => ([a, b, c, d, e, f, g, h], 8),
    }
}
