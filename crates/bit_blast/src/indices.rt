// The indices that the terms of a bank have in the table.

ghost use Rattle.std.specs.Prelude.{◌≡◌, IfOk};
ghost use Rattle.bit_blast.specs.Indices as spec;

use std::alloc::{AllocError, Global};
use std::collections::HashMap;
use term_bank::{TermId, TermNode};

/// The index of a term that has one.
pub(crate) fn index_of(indices: &HashMap<TermId, usize>, id: TermId) -> usize
    requires { spec.IsIndexed indices.now id }
    ensures { result ≡ spec.index_in indices.now id }
{
    *indices.get(&id).unwrap()
}

/// A node over the indices of its arguments.
pub(crate) fn moved(indices: &HashMap<TermId, usize>, node: TermNode) -> TermNode
    requires { spec.AllIndexed indices.now (spec.children node) }
    ensures { result ≡ spec.moved indices.now node }
{
    match node {
        TermNode::Leaf(atom) => TermNode::Leaf(atom),
        TermNode::Unary(operator, a) => TermNode::Unary(operator, index_of(indices, a)),
        TermNode::Binary(operator, a, b) => {
            TermNode::Binary(operator, index_of(indices, a), index_of(indices, b))
        }
        TermNode::Ternary(operator, a, b, c) => TermNode::Ternary(
            operator,
            index_of(indices, a),
            index_of(indices, b),
            index_of(indices, c),
        ),
        TermNode::Quaternary(operator, a, b, c, d) => TermNode::Quaternary(
            operator,
            index_of(indices, a),
            index_of(indices, b),
            index_of(indices, c),
            index_of(indices, d),
        ),
        TermNode::Octonary(a, b, c, d, e, f, g, h) => TermNode::Octonary(
            index_of(indices, a),
            index_of(indices, b),
            index_of(indices, c),
            index_of(indices, d),
            index_of(indices, e),
            index_of(indices, f),
            index_of(indices, g),
            index_of(indices, h),
        ),
    }
}

/// The arguments of a node, from left to right.
pub(crate) fn children(alloc: Global, node: TermNode) -> Result<Vec<TermId>, AllocError>
    ensures { IfOk result (λ ids. ids.items ≡ spec.children node) }
{
    match node {
        TermNode::Leaf(_) => Ok(Vec::new(alloc)),
        TermNode::Unary(_, a) => [a].to_vec(alloc),
        TermNode::Binary(_, a, b) => [a, b].to_vec(alloc),
        TermNode::Ternary(_, a, b, c) => [a, b, c].to_vec(alloc),
        TermNode::Quaternary(_, a, b, c, d) => [a, b, c, d].to_vec(alloc),
        TermNode::Octonary(a, b, c, d, e, f, g, h) => [a, b, c, d, e, f, g, h].to_vec(alloc),
    }
}
