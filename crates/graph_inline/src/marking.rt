//! Marks on the terms of a bank: those that some bindings need.

ghost use Rattle.std.specs.Prelude.{◌≡◌, ◌<◌, ◌||◌, ℕ, All, length, nat_eq};
ghost use Rattle.std.specs.List.{list_any};
ghost use Rattle.term_bank.specs.Nodes.{IsNode};
ghost use Rattle.term_bank.specs.Subterms.{arguments_of};
ghost use Rattle.graph_core.specs.Shared.{AreSharedBindings, IsSharedNode};
ghost use Rattle.graph_inline.specs.Marks.{is_marked, MoreMarked, AreClosed};
ghost use Rattle.graph_inline.specs.Marks.{BindingsMarked, OutputsMarked};

use graph_core::{SharedBinding, SharedNode};
use term_bank::{Bank, TermId, TermNode};
use term_substitution::arguments;

/// Marks some terms.
fn mark_each(marks: &mut [bool], ids: &[TermId])
    requires { All (λ id. id < length marks.old) ids.now }
    ensures count { length marks.new ≡ length marks.old }
    ensures marks { (k : ℕ) → is_marked marks.new k
        ≡ (list_any (nat_eq k) ids.now || is_marked marks.old k) }
{
    for id in ids {
        marks[*id] = true;
    }
}

/// Marks the arguments of a node.
fn mark_arguments(marks: &mut [bool], node: TermNode)
    requires { IsNode (length marks.old) node }
    ensures count { length marks.new ≡ length marks.old }
    ensures marks { (k : ℕ) → is_marked marks.new k
        ≡ (list_any (nat_eq k) (arguments_of node) || is_marked marks.old k) }
{
    let (ids, count) = arguments(node);
    mark_each(marks, &ids[..count]);
}

/// Marks the arguments of all that is marked, and theirs.
pub(crate) fn mark_subterms(marks: &mut [bool], bank: &Bank)
    requires { length marks.old ≡ length bank.now }
    ensures count { length marks.new ≡ length bank.now }
    ensures closed { AreClosed 0 bank.now marks.new }
    ensures more { MoreMarked marks.old marks.new }
{
    bank.are_distinct();
    for id in (0..bank.len()).rev() {
        if marks[id] {
            mark_arguments(marks, bank.node(id));
        }
    }
}

/// Marks the terms of bindings.
pub(crate) fn mark_bindings(marks: &mut [bool], bindings: &[SharedBinding])
    requires { AreSharedBindings (length marks.old) bindings.now }
    ensures count { length marks.new ≡ length marks.old }
    ensures marked { BindingsMarked marks.new bindings.now }
    ensures more { MoreMarked marks.old marks.new }
{
    for binding in bindings {
        marks[binding.term] = true;
    }
}

/// Marks the terms of what a node, if it is a call, takes from its callee.
fn mark_node(marks: &mut [bool], node: &SharedNode)
    requires { IsSharedNode (length marks.old) node.now }
    ensures count { length marks.new ≡ length marks.old }
    ensures marked { OutputsMarked marks.new node.now }
    ensures more { MoreMarked marks.old marks.new }
{
    match node {
        SharedNode::Call { outputs, .. } => mark_bindings(marks, outputs.as_slice()),
        SharedNode::Basic { .. } | SharedNode::Cond { .. } => {}
    }
}

/// Marks the terms of what calls take from their callees.
pub(crate) fn mark_outputs(marks: &mut [bool], nodes: &[SharedNode])
    requires { All (IsSharedNode (length marks.old)) nodes.now }
    ensures count { length marks.new ≡ length marks.old }
    ensures marked { All (OutputsMarked marks.new) nodes.now }
    ensures more { MoreMarked marks.old marks.new }
{
    for node in nodes {
        mark_node(marks, node);
    }
}
