//! Lists of the variables of terms.

ghost use Rattle.std.specs.Prelude.{◌≡◌, IfOk, OnOk};
ghost use Rattle.graph_core.specs.Seen.{own_variables};
ghost use Rattle.graph_core_spec.specs.Variables.{with_variables};
ghost use Rattle.path_cond.specs.Bound.{KeepsListed};
ghost use Rattle.proof_tree.specs.Frames.{terms_of};
ghost use Rattle.sim_calls.specs.Listed.{AreListedIn, Lists, ListsBank, ListsLines};
ghost use Rattle.term_core.specs.Trees.{term_of};

use indexmap::IndexSet;
use std::alloc::{AllocError, Global};
use term_bank::{Bank, TermNode};
use term_core::Term;
use term_core_spec::{Atom, Variable};
use term_substitution::intern;

// Adds the variable that a node is, if it is one.
fn add_leaf(variables: &mut IndexSet<Variable>, node: TermNode) -> Result<(), AllocError>
    ensures { OnOk result (variables.new.keys
        ≡ with_variables variables.old.keys (own_variables node)) }
{
    if let TermNode::Leaf(Atom::Open(variable)) = node {
        variables.insert(variable)?;
    }
    Ok(())
}

// Adds the variables of the terms of a bank.
fn add_bank(variables: &mut IndexSet<Variable>, bank: &Bank) -> Result<(), AllocError>
    ensures listed { OnOk result (ListsBank variables.new.keys bank.now) }
    ensures kept { OnOk result (KeepsListed variables.old.keys variables.new.keys) }
{
    for id in 0..bank.len() {
        add_leaf(variables, bank.node(id))?;
    }
    Ok(())
}

// Adds the variables of a term.
fn add_line(
    alloc: Global,
    variables: &mut IndexSet<Variable>,
    line: &Term,
) -> Result<(), AllocError>
    ensures listed { OnOk result (Lists variables.new.keys (term_of line.now)) }
    ensures kept { OnOk result (KeepsListed variables.old.keys variables.new.keys) }
{
    let mut bank = Bank::new(alloc);
    let _id = intern(alloc, &mut bank, line)?;
    add_bank(variables, &bank)?;
    Ok(())
}

// Adds the variables of some terms.
fn add_lines(
    alloc: Global,
    variables: &mut IndexSet<Variable>,
    lines: &[Box<Term>],
) -> Result<(), AllocError>
    ensures listed { OnOk result (ListsLines variables.new.keys (terms_of lines.now)) }
    ensures kept { OnOk result (KeepsListed variables.old.keys variables.new.keys) }
{
    for i in 0..lines.len() {
        add_line(alloc, variables, &lines[i])?;
    }
    Ok(())
}

// Adds the variables of some terms, of a last one, and of those of a bank.
fn add_all(
    alloc: Global,
    variables: &mut IndexSet<Variable>,
    lines: &[Box<Term>],
    last: &Term,
    bank: &Bank,
) -> Result<(), AllocError>
    ensures { OnOk result (AreListedIn variables.new.keys (terms_of lines.now) (term_of last.now)
        bank.now) }
{
    add_lines(alloc, variables, lines)?;
    add_line(alloc, variables, last)?;
    add_bank(variables, bank)?;
    Ok(())
}

/// The variables of some terms, of a last one, and of those of a bank, each once.
pub(crate) fn list_variables(
    alloc: Global,
    lines: &[Box<Term>],
    last: &Term,
    bank: &Bank,
) -> Result<IndexSet<Variable>, AllocError>
    ensures { IfOk result (λ variables. AreListedIn variables.keys (terms_of lines.now)
        (term_of last.now) bank.now) }
{
    let mut variables = IndexSet::new(alloc);
    add_all(alloc, &mut variables, lines, last, bank)?;
    Ok(variables)
}
