//! What a callee leaves, as terms of a bank.

ghost use Rattle.std.specs.Prelude.{◌≡◌, ◌≤◌, length, IfOk, OnOk};
ghost use Rattle.std.specs.HashMap.{get};
ghost use Rattle.sim_rules_spec.specs.Calls as spec;
ghost use Rattle.sim_calls.specs.Left.{AreLeft, IsEmpty};
ghost use Rattle.term_bank.specs.Nodes.{Extends};
ghost use Rattle.term_core_spec.specs.Same.{same_variable};
ghost use Rattle.term_substitution.specs.States.{IsAt, IsFound};

use crate::variables::fresh;
use indexmap::IndexSet;
use sim_rules_terms::Known;
use std::alloc::{AllocError, Global};
use std::collections::HashMap;
use term_bank::{Bank, TermId, TermNode};
use term_core_spec::{Atom, Variable};

// What a callee leaves of a variable.
fn left_term(bank: &mut Bank, variable: Variable) -> Result<TermId, AllocError>
    ensures tree { IsAt bank.new result (spec.left variable) }
    ensures within { IsFound bank.new result }
    ensures extends { Extends bank.old bank.new }
    ensures longer { length bank.old ≤ length bank.new }
{
    bank.add(TermNode::Leaf(Atom::Open(fresh(variable))))
}

// Adds what a callee leaves of some variables.
fn add_left(
    bank: &mut Bank,
    variables: &IndexSet<Variable>,
    terms: &mut Known,
) -> Result<(), AllocError>
    requires { IsEmpty (get same_variable terms.old) }
    ensures left { OnOk result (AreLeft bank.new variables.now.keys
        (get same_variable terms.new)) }
    ensures extends { Extends bank.old bank.new }
    ensures longer { length bank.old ≤ length bank.new }
{
    for number in 0..variables.len() {
        let id = left_term(bank, variables[number])?;
        terms.insert(variables[number], id)?;
    }
    Ok(())
}

/// What a callee leaves of some variables. Out of memory, the bank may have some more terms.
pub(crate) fn left_terms(
    alloc: Global,
    bank: &mut Bank,
    variables: &IndexSet<Variable>,
) -> Result<Known, AllocError>
    ensures left { IfOk result (λ terms. AreLeft bank.new variables.now.keys
        (get same_variable terms)) }
    ensures extends { Extends bank.old bank.new }
    ensures longer { length bank.old ≤ length bank.new }
{
    let mut terms = HashMap::new(alloc);
    add_left(bank, variables, &mut terms)?;
    Ok(terms)
}
