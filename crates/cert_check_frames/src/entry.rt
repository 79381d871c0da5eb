//! The frame of a listed function's part, and the terms of variables at its entry.

ghost use Rattle.std.specs.Prelude.{◌≡◌, ◌++◌, IfOk, OnOk, length, map};
ghost use Rattle.std.specs.HashMap.{get};
ghost use Rattle.term_core_spec.specs.Same.{same_variable};
ghost use Rattle.term_bank.specs.Nodes.{Extends};
ghost use Rattle.path_cond.specs.States.{IsMapOf};
ghost use Rattle.graph_core.specs.Graphs.{boxed_term};
ghost use Rattle.proof_tree.specs.Frames.{frame_of, premise_of, start_of, terms_of};
ghost use Rattle.cert_check_frames.specs.Jobs.{premises_with, frame_with};
ghost use Rattle.cert_check_frames.specs.Listed.{frame_at, nothing_known, terms_given, HasStart};
ghost use Rattle.cert_check_frames.specs.Listed.{PutsFact};

use crate::jobs::Branch;
use crate::listed::{Fact, Listed};
use attempt::attempt;
use proof_tree::{Frame, Premise, Reachable, Start};
use sim_rules_terms::Known;
use std::alloc::{AllocError, Global};
use std::collections::HashMap;
use term_bank::Bank;
use term_core::Term;
use term_substitution::intern;

// ---- the terms of variables

// Adds the term of a variable, before those that are known.
fn add_fact(
    alloc: Global,
    bank: &mut Bank,
    fact: &Fact,
    known: &mut Known,
) -> Result<(), AllocError>
    ensures terms { OnOk result (PutsFact fact.now bank.old bank.new
        (get same_variable known.old) (get same_variable known.new)) }
    ensures extends { Extends bank.old bank.new }
{
    let id = attempt!(intern(alloc, bank, &fact.term));
    attempt!(known.insert(fact.variable, id), AllocError);
    Ok(())
}

// Adds the terms of the variables, the last first: so the first of a variable is left.
fn add_facts(
    alloc: Global,
    bank: &mut Bank,
    facts: &[Fact],
    known: &mut Known,
) -> Result<(), AllocError>
    requires { nothing_known (get same_variable known.old) }
    ensures terms { OnOk result (IsMapOf bank.new (get same_variable known.new)
        (terms_given facts.now)) }
    ensures extends { Extends bank.old bank.new }
{
    let count = facts.len();
    for index in 0..count {
        attempt!(add_fact(alloc, bank, &facts[count - 1 - index], known));
    }
    Ok(())
}

/// The terms of variables, in a bank.
pub fn known(alloc: Global, bank: &mut Bank, facts: &[Fact]) -> Result<Known, AllocError>
    ensures terms { IfOk result (λ known. IsMapOf bank.new (get same_variable known)
        (terms_given facts.now)) }
    ensures extends { Extends bank.old bank.new }
{
    let mut known = HashMap::new(alloc);
    attempt!(add_facts(alloc, bank, facts, &mut known));
    Ok(known)
}

// ---- the frame

// Adds what holds at the entry.
fn add_entry<'a>(premises: &mut Vec<Premise<'a>>, lines: &'a [Box<Term>]) -> Result<(), AllocError>
    ensures { OnOk result (map premise_of premises.new.items
        ≡ map premise_of premises.old.items ++ terms_of lines.now) }
{
    for line in lines {
        let premise = Premise {
            term: line,
            holds: true,
        };
        attempt!(premises.push(premise), AllocError);
    }
    Ok(())
}

// Adds tests, each as it holds; there is a test for each branch.
fn add_branches<'a>(
    premises: &mut Vec<Premise<'a>>,
    branches: &[Branch],
    tests: &'a [Box<Term>],
) -> Result<(), AllocError>
    requires { length branches.now ≡ length tests.now }
    ensures { OnOk result (map premise_of premises.new.items ≡ map premise_of premises.old.items
        ++ premises_with branches.now (map boxed_term tests.now)) }
{
    for index in 0..branches.len() {
        let premise = Premise {
            term: &tests[index],
            holds: branches[index].holds,
        };
        attempt!(premises.push(premise), AllocError);
    }
    Ok(())
}

/// The premises of a frame: these lines, and tests, each as it holds, of which the trees are given.
pub fn premises<'a>(
    alloc: Global,
    lines: &'a [Box<Term>],
    branches: &[Branch],
    tests: &'a [Box<Term>],
) -> Result<Vec<Premise<'a>>, AllocError>
    requires { length branches.now ≡ length tests.now }
    ensures { IfOk result (λ premises. map premise_of premises.items
        ≡ terms_of lines.now ++ premises_with branches.now (map boxed_term tests.now)) }
{
    let mut premises = Vec::new(alloc);
    attempt!(add_entry(&mut premises, lines));
    attempt!(add_branches(&mut premises, branches, tests));
    Ok(premises)
}

// Where a frame with these premises starts.
fn start<'a>(
    alloc: Global,
    function: &Listed<'a>,
    premises: Vec<Premise<'a>>,
) -> Result<Start<'a>, AllocError>
    ensures { IfOk result (λ start. HasStart function.now
        (map premise_of premises.entry.items) (start_of start)) }
{
    let binary = attempt!(Reachable::new(alloc, &function.binary, function.nodes.binary));
    let source = attempt!(Reachable::new(alloc, &function.source, function.nodes.source));
    Ok(Start {
        binary,
        source,
        path: function.path,
        premises,
        binary_bounds: Vec::new(alloc),
        source_bounds: Vec::new(alloc),
    })
}

/// The frame at the entry of a function, with these further premises, of which the trees are given.
/// Work is linear in both graphs, over which a Leaf walks anyway, and in the premises.
pub fn frame<'a>(
    alloc: Global,
    function: &'a Listed<'a>,
    branches: &[Branch],
    tests: &'a [Box<Term>],
) -> Result<Frame<'a>, AllocError>
    requires { length branches.now ≡ length tests.now }
    ensures { IfOk result (λ frame. frame_of frame ≡ frame_with (frame_at function.now)
        (premises_with branches.now (map boxed_term tests.now))) }
{
    let premises = attempt!(premises(alloc, function.entry, branches, tests));
    let start = attempt!(start(alloc, function, premises));
    Ok(Frame {
        binary: function.binary,
        source: function.source,
        setting: function.setting,
        entry: function.entry,
        start,
        goals: Vec::new(alloc),
        holds: Vec::new(alloc),
    })
}
