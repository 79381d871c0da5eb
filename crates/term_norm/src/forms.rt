// The normal form of the terms of a bank.

ghost use Rattle.std.specs.Prelude.{◌≡◌, ◌<◌, ℕ, length, Some, None, IfOk, IfErr};
ghost use Rattle.term_core_spec.specs.declared.Sort.{Sort};
ghost use Rattle.term_core_spec.specs.Sort.{sort_of};
ghost use Rattle.term_core_spec.specs.Value.{Assignment as assignment, IsAssignment, value};
ghost use Rattle.term_norm_spec.specs.Fixed.{HoldsFixed};
ghost use Rattle.term_norm_spec.specs.Normal as spec;
ghost use Rattle.term_bank.specs.Nodes.{IsNode, tree_at, Holds, Extends};
ghost use Rattle.memory_spec.specs.Viewed.{runs_of};
ghost use Rattle.term_norm.specs.Runs.{form_with};
ghost use Rattle.term_norm.specs.Nodes.{normal_node};
ghost use Rattle.term_norm.specs.Walk.{form_at, IsWalk, IsStop, AreForms};

use crate::loads::load;
use crate::runs::hold_runs;
use crate::walk::{Stop, Walk};
use memory_spec::Run;
use std::alloc::{AllocError, Global};
use term_bank::{Bank, TermId, TermNode};
use term_core_spec::BinaryOperator;
use term_norm_rules::{
    normal_and, normal_equal, normal_join_two, normal_less, normal_octonary, normal_or,
    normal_quaternary, normal_ternary, normal_unary, normal_word,
};

// An operator with two arguments in normal form.
#[tactic(auto, unfolding(term_norm_spec::specs::Normal::normal_binary))]
fn binary(
    alloc: Global,
    bank: &mut Bank,
    runs: &[Run],
    operator: BinaryOperator,
    x: TermId,
    y: TermId,
) -> Result<TermId, AllocError>
    requires first { x < length bank.old }
    requires second { y < length bank.old }
    ensures form { IfOk result (λ i. Holds bank.new i
        (spec.normal_binary (runs_of runs.now) operator (tree_at bank.old x)
        (tree_at bank.old y))) }
    ensures extends { Extends bank.old bank.new }
{
    match operator {
        BinaryOperator::And => normal_and(bank, x, y),
        BinaryOperator::Or => normal_or(bank, x, y),
        BinaryOperator::Equal => normal_equal(bank, x, y),
        BinaryOperator::Less => normal_less(bank, x, y),
        BinaryOperator::Word(operator) => normal_word(bank, operator, x, y),
        BinaryOperator::Load => load(alloc, bank, runs, x, y),
        BinaryOperator::Join => normal_join_two(bank, x, y),
    }
}

// A node whose arguments are in normal form.
fn normal_node(
    alloc: Global,
    bank: &mut Bank,
    runs: &[Run],
    node: TermNode,
) -> Result<TermId, AllocError>
    requires { IsNode (length bank.old) node }
    ensures form { IfOk result (λ i. Holds bank.new i
        (normal_node (runs_of runs.now) bank.old node)) }
    ensures extends { Extends bank.old bank.new }
{
    match node {
        TermNode::Leaf(leaf) => bank.add(TermNode::Leaf(leaf)),
        TermNode::Unary(operator, x) => normal_unary(bank, operator, x),
        TermNode::Binary(operator, x, y) => binary(alloc, bank, runs, operator, x, y),
        TermNode::Ternary(operator, x, y, z) => normal_ternary(bank, operator, x, y, z),
        TermNode::Quaternary(operator, x, y, z, w) => {
            normal_quaternary(bank, operator, x, y, z, w)
        }
        TermNode::Octonary(s, t, u, v, w, x, y, z) => {
            normal_octonary(bank, s, t, u, v, w, x, y, z)
        }
    }
}

// The form of the term at hand, by those of its arguments; or which of these is needed first.
fn form_at_hand(alloc: Global, bank: &mut Bank, runs: &[Run], walk: &Walk) -> Result<TermId, Stop>
    requires within { walk.now.at < length bank.old }
    requires forms { AreForms (form_with runs.now) bank.old walk.now }
    ensures form { IfOk result (λ i. Holds bank.new i
        (form_with runs.now (tree_at bank.old walk.now.at))) }
    ensures wanted { IfErr result (IsStop (form_at walk.now) walk.now.at) }
    ensures extends { Extends bank.old bank.new }
{
    let node = walk.with_forms(bank.node(walk.at))?;
    let form = normal_node(alloc, bank, runs, node)?;
    Ok(form)
}

// The form of the first term of a walk on which nothing is made yet.
fn form_on(
    alloc: Global,
    bank: &mut Bank,
    term: TermId,
    runs: &[Run],
    walk: &mut Walk,
) -> Result<TermId, AllocError>
    requires within { term < length bank.old }
    requires begins { IsWalk walk.old term }
    requires none { (id : ℕ) → form_at walk.old id ≡ None }
    ensures form { IfOk result (λ i. Holds bank.new i
        (form_with runs.now (tree_at bank.old term))) }
    ensures extends { Extends bank.old bank.new }
{
    loop {
        let outcome = form_at_hand(alloc, bank, runs, walk);
        if let Some(form) = walk.take(outcome)? {
            return Ok(form);
        }
    }
}

// The index of the normal form of a term, found on a walk over the terms below it.
fn form_of(alloc: Global, bank: &mut Bank, term: TermId, runs: &[Run]) -> Result<TermId, AllocError>
    requires { term < length bank.old }
    ensures form { IfOk result (λ i. Holds bank.new i
        (form_with runs.now (tree_at bank.old term))) }
    ensures extends { Extends bank.old bank.new }
{
    let mut walk = Walk::new(alloc, term);
    form_on(alloc, bank, term, runs, &mut walk)
}

/// The index of the normal form of a term, where `runs` are the bytes that each memory of the
/// source holds. The bank may grow, also out of memory.
pub fn normal(
    alloc: Global,
    bank: &mut Bank,
    term: TermId,
    runs: &[Run],
) -> Result<TermId, AllocError>
    requires { term < length bank.old }
    ensures form { IfOk result (λ i. Holds bank.new i
        (spec.normal (runs_of runs.now) (tree_at bank.old term))) }
    ensures sort { IfOk result (λ i. (s : Sort) → sort_of (tree_at bank.old term) ≡ Some s
        → sort_of (tree_at bank.new i) ≡ Some s) }

    // It has the value of the term wherever the memories of the source hold these bytes.
    ensures value { IfOk result (λ i. (s : Sort) → sort_of (tree_at bank.old term) ≡ Some s
        → (a : assignment) → IsAssignment a → HoldsFixed (runs_of runs.now) a
        → value a (tree_at bank.new i) ≡ value a (tree_at bank.old term)) }
    ensures within { IfOk result (λ i. i < length bank.new) }
    ensures extends { Extends bank.old bank.new }
{
    hold_runs(runs);
    form_of(alloc, bank, term, runs)
}
