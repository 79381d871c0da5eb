// The values of the terms of a bank.

ghost use Rattle.std.specs.Prelude.{◌≡◌, ◌<◌, ℕ, length, map, slice_get, Some, IfOk};
ghost use Rattle.term_core_spec.specs.Value as spec;
ghost use Rattle.term_core.specs.Values.{value_of};
ghost use Rattle.term_core.specs.Assignment.{assignment_of};
ghost use Rattle.term_bank.specs.Nodes.{IsNode, node_value, value_at};

use crate::node::TermNode;
use std::alloc::{AllocError, Global};
use term_core::{Assignment, Value, binary, byte_of, octonary, quaternary, ternary, unary};

// The byte at an index, where the value there is one.
fn byte_at(values: &[Value], i: usize) -> Option<u8>
    requires { i < length values.now }
    ensures { result ≡ spec.byte_of (value_at (map value_of values.now) i) }
{
    byte_of(&values[i])
}

/// The value of a node whose arguments have these values.
pub fn evaluate(
    alloc: Global,
    node: TermNode,
    values: &[Value],
    assignment: &Assignment,
) -> Result<Value, AllocError>
    requires { IsNode (length values.now) node }
    ensures { IfOk result (λ v. value_of v
        ≡ node_value (assignment_of assignment.now) (map value_of values.now) node) }
{
    match node {
        TermNode::Leaf(atom) => assignment.atom(alloc, atom),
        TermNode::Unary(operator, a) => Ok(unary(operator, &values[a])),
        TermNode::Binary(operator, a, b) => Ok(binary(operator, &values[a], &values[b])),
        TermNode::Ternary(operator, a, b, c) => {
            ternary(operator, &values[a], &values[b], &values[c])
        }
        TermNode::Quaternary(operator, a, b, c, d) => {
            quaternary(operator, &values[a], &values[b], &values[c], &values[d])
        }
        TermNode::Octonary(a, b, c, d, e, f, g, h) => {
            let high = [
                byte_at(values, e),
                byte_at(values, f),
                byte_at(values, g),
                byte_at(values, h),
            ];
            let (a, b) = (byte_at(values, a), byte_at(values, b));
            let (c, d) = (byte_at(values, c), byte_at(values, d));
            Ok(octonary(a, b, c, d, high))
        }
    }
}
