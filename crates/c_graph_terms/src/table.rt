//! Terms from tables of nodes.

ghost use Rattle.std.specs.Prelude.{◌≡◌, ◌+◌, ◌<◌, IsTrue, OnOk, length, map};
ghost use Rattle.term_core_spec.specs.Term as tree;
ghost use Rattle.term_bank.specs.Nodes.{IsNode, tree_at};
ghost use Rattle.c_graph_terms.specs.Tables as tables;
ghost use Rattle.c_graph_terms.specs.Tables.{AreWithin, are_nodes, table_tree};
ghost use Rattle.c_graph_terms.specs.Built.{AreGrown, Builds};

use attempt::attempt;
use std::alloc::{AllocError, Global};
use term_bank::{Bank, TermId, TermNode};
use term_core_spec::Atom;

/// The node with ids in place of the numbers of its arguments.
pub fn placed(ids: &[TermId], node: TermNode) -> TermNode
    requires { IsNode (length ids.now) node }
    ensures { result ≡ tables.placed ids.now node }
{
    match node {
        TermNode::Leaf(atom) => TermNode::Leaf(atom),
        TermNode::Unary(operator, a) => TermNode::Unary(operator, ids[a]),
        TermNode::Binary(operator, a, b) => TermNode::Binary(operator, ids[a], ids[b]),
        TermNode::Ternary(operator, a, b, c) => {
            TermNode::Ternary(operator, ids[a], ids[b], ids[c])
        }
        TermNode::Quaternary(operator, a, b, c, d) => {
            TermNode::Quaternary(operator, ids[a], ids[b], ids[c], ids[d])
        }
        TermNode::Octonary(a, b, c, d, e, f, g, h) => {
            let (a, b, c, d) = (ids[a], ids[b], ids[c], ids[d]);
            let (e, f, g, h) = (ids[e], ids[f], ids[g], ids[h]);
            TermNode::Octonary(a, b, c, d, e, f, g, h)
        }
    }
}

/// A term without arguments.
pub fn leaf(bank: &mut Bank, atom: Atom) -> Result<TermId, AllocError>
    ensures { Builds bank.old bank.new result (tree.Leaf atom) }
{
    let id = attempt!(bank.add(TermNode::Leaf(atom)));
    Ok(id)
}

/// Adds the terms of nodes, and their ids to those that their numbers stand for.
fn extend(bank: &mut Bank, ids: &mut Vec<TermId>, nodes: &[TermNode]) -> Result<(), AllocError>
    requires ids { AreWithin (length bank.old) ids.old.items }
    requires nodes { IsTrue (are_nodes (length ids.old.items) nodes.now) }
    ensures { OnOk result (AreGrown bank.old bank.new ids.old.items ids.new.items nodes.now) }
{
    for node in nodes {
        let id = attempt!(bank.add(placed(ids.as_slice(), *node)));
        ids.push(id)?;
    }
    Ok(())
}

/// The term of the last node of a table over some given terms, or the last of these where there is
/// no node.
pub fn build(
    alloc: Global,
    bank: &mut Bank,
    given: &[TermId],
    nodes: &[TermNode],
) -> Result<TermId, AllocError>
    requires some { 0 < length given.now + length nodes.now }
    requires given { AreWithin (length bank.old) given.now }
    requires nodes { IsTrue (are_nodes (length given.now) nodes.now) }
    ensures { Builds bank.old bank.new result
        (table_tree (map (tree_at bank.old) given.now) nodes.now) }
{
    let mut ids = Vec::from_slice(alloc, given)?;
    attempt!(extend(bank, &mut ids, nodes));
    Ok(ids[ids.len() - 1])
}
