// The load of a byte from a memory in normal form.

ghost use Rattle.std.specs.Prelude.{◌≡◌, ◌<◌, ℕ, length, None, if◌then◌else◌, ◌&&◌, IfOk, IfErr};
ghost use Rattle.term_norm_spec.specs.Normal as spec;
ghost use Rattle.term_norm_spec.specs.Patterns as patterns;
ghost use Rattle.memory_spec.specs.Runs as fixed_runs;
ghost use Rattle.term_bank.specs.Nodes.{IsNode, tree_at, Holds, Extends};
ghost use Rattle.memory_spec.specs.Viewed.{runs_of};
ghost use Rattle.term_norm.specs.Runs.{load_from};
ghost use Rattle.term_norm.specs.Nodes.{load_node};
ghost use Rattle.term_norm.specs.Walk.{form_at, IsWalk, IsStop, AreForms};

use crate::runs::fixed_byte;
use crate::walk::{Stop, Walk};
use memory_spec::Run;
use std::alloc::{AllocError, Global};
use term_bank::{Bank, TermId, TermNode};
use term_core_spec::{BinaryOperator, QuaternaryOperator, TernaryOperator};
use term_norm_rules::{
    constant_byte, is_constant, is_source_memory, normal_and, normal_choose, normal_equal,
    normal_less, normal_not, number_of,
};

// Whether it is a memory of the source that is read at a known address.
fn is_known_place(bank: &Bank, m: TermId, d: TermId) -> bool
    requires memory { m < length bank.now }
    requires address { d < length bank.now }
    ensures { result ≡ (patterns.is_source_memory (tree_at bank.now m) && patterns.is_constant
        (tree_at bank.now d)) }
{
    is_source_memory(bank, m) && is_constant(bank, d)
}

// The byte that is fixed there, where the address is known.
fn known_byte(bank: &Bank, runs: &[Run], m: TermId, d: TermId) -> Option<u8>
    requires memory { m < length bank.now }
    requires address { d < length bank.now }
    ensures { result ≡ (if patterns.is_source_memory (tree_at bank.now m) && patterns.is_constant
        (tree_at bank.now d) then fixed_runs.fixed_byte (runs_of runs.now)
        (patterns.number_of (tree_at bank.now d)) else None) }
{
    if is_known_place(bank, m, d) {
        fixed_byte(runs, number_of(bank, d))
    } else {
        None
    }
}

// The load of a memory that isn't taken apart.
fn load_of_variable(
    bank: &mut Bank,
    runs: &[Run],
    m: TermId,
    d: TermId,
) -> Result<TermId, AllocError>
    requires memory { m < length bank.old }
    requires address { d < length bank.old }
    ensures form { IfOk result (λ i. Holds bank.new i
        (spec.load_of_variable (runs_of runs.now) (tree_at bank.old m) (tree_at bank.old d))) }
    ensures extends { Extends bank.old bank.new }
{
    match known_byte(bank, runs, m, d) {
        Some(byte) => constant_byte(bank, byte),
        None => bank.add(TermNode::Binary(BinaryOperator::Load, m, d)),
    }
}

// The load of a store: the byte `b` that was stored where `d` is its address `a`, else the byte
// below it.
fn load_of_store(
    bank: &mut Bank,
    d: TermId,
    a: TermId,
    b: TermId,
    below: TermId,
) -> Result<TermId, AllocError>
    requires address { d < length bank.old }
    requires place { a < length bank.old }
    requires stored { b < length bank.old }
    requires rest { below < length bank.old }
    ensures form { IfOk result (λ i. Holds bank.new i
        (spec.normal_choose (spec.normal_equal (tree_at bank.old d) (tree_at bank.old a))
        (tree_at bank.old b) (tree_at bank.old below))) }
    ensures extends { Extends bank.old bank.new }
{
    let test = normal_equal(bank, d, a)?;
    normal_choose(bank, test, b, below)
}

// Whether `d` is from `low` on and below `high`.
fn is_between(bank: &mut Bank, d: TermId, low: TermId, high: TermId) -> Result<TermId, AllocError>
    requires address { d < length bank.old }
    requires first { low < length bank.old }
    requires end { high < length bank.old }
    ensures form { IfOk result (λ i. Holds bank.new i
        (spec.normal_and (spec.normal_not
        (spec.normal_less (tree_at bank.old d) (tree_at bank.old low)))
        (spec.normal_less (tree_at bank.old d) (tree_at bank.old high)))) }
    ensures extends { Extends bank.old bank.new }
{
    let is_before = normal_less(bank, d, low)?;
    let is_from = normal_not(bank, is_before)?;
    let is_below = normal_less(bank, d, high)?;
    normal_and(bank, is_from, is_below)
}

// The load of an overlay: the byte of the upper memory between the bounds, else that of the lower.
fn load_of_overlay(
    bank: &mut Bank,
    d: TermId,
    low: TermId,
    high: TermId,
    upper: TermId,
    lower: TermId,
) -> Result<TermId, AllocError>
    requires address { d < length bank.old }
    requires first { low < length bank.old }
    requires end { high < length bank.old }
    requires inside { upper < length bank.old }
    requires outside { lower < length bank.old }
    ensures form { IfOk result (λ i. Holds bank.new i
        (spec.normal_choose (spec.normal_and
        (spec.normal_not (spec.normal_less (tree_at bank.old d) (tree_at bank.old low)))
        (spec.normal_less (tree_at bank.old d) (tree_at bank.old high))) (tree_at bank.old upper)
        (tree_at bank.old lower))) }
    ensures extends { Extends bank.old bank.new }
{
    let test = is_between(bank, d, low, high)?;
    normal_choose(bank, test, upper, lower)
}

// The load of the memory at an index, by its node over the loads of its memories.
fn load_of_node(
    bank: &mut Bank,
    runs: &[Run],
    m: TermId,
    d: TermId,
    node: TermNode,
) -> Result<TermId, AllocError>
    requires memory { m < length bank.old }
    requires address { d < length bank.old }
    requires node { IsNode (length bank.old) node }
    ensures form { IfOk result (λ i. Holds bank.new i
        (load_node (runs_of runs.now) bank.old m d node)) }
    ensures extends { Extends bank.old bank.new }
{
    match node {
        TermNode::Ternary(TernaryOperator::Store, below, a, b) => {
            load_of_store(bank, d, a, b, below)
        }
        TermNode::Ternary(TernaryOperator::Choose, test, x, y) => normal_choose(bank, test, x, y),
        TermNode::Quaternary(QuaternaryOperator::Over, lower, upper, low, high) => {
            load_of_overlay(bank, d, low, high, upper, lower)
        }
        _ => load_of_variable(bank, runs, m, d),
    }
}

// The load of the memory at hand, by those of its memories; or which of these is needed first.
fn load_at_hand(bank: &mut Bank, runs: &[Run], walk: &Walk, d: TermId) -> Result<TermId, Stop>
    requires memory { walk.now.at < length bank.old }
    requires address { d < length bank.old }
    requires loads { AreForms (load_from runs.now (tree_at bank.old d)) bank.old walk.now }
    ensures form { IfOk result (λ i. Holds bank.new i
        (load_from runs.now (tree_at bank.old d) (tree_at bank.old walk.now.at))) }
    ensures wanted { IfErr result (IsStop (form_at walk.now) walk.now.at) }
    ensures extends { Extends bank.old bank.new }
{
    let node = walk.with_loads(bank.node(walk.at))?;
    let load = load_of_node(bank, runs, walk.at, d, node)?;
    Ok(load)
}

// The load of the first memory of a walk on which nothing is made yet.
fn load_on(
    bank: &mut Bank,
    runs: &[Run],
    m: TermId,
    d: TermId,
    walk: &mut Walk,
) -> Result<TermId, AllocError>
    requires memory { m < length bank.old }
    requires address { d < length bank.old }
    requires begins { IsWalk walk.old m }
    requires none { (id : ℕ) → form_at walk.old id ≡ None }
    ensures form { IfOk result (λ i. Holds bank.new i
        (load_from runs.now (tree_at bank.old d) (tree_at bank.old m))) }
    ensures within { IfOk result (λ i. i < length bank.new) }
    ensures extends { Extends bank.old bank.new }
{
    loop {
        let outcome = load_at_hand(bank, runs, walk, d);
        if let Some(load) = walk.take(outcome)? {
            return Ok(load);
        }
    }
}

/// The normal form of a load from a memory in normal form at an address in normal form.
pub fn load(
    alloc: Global,
    bank: &mut Bank,
    runs: &[Run],
    m: TermId,
    d: TermId,
) -> Result<TermId, AllocError>
    requires memory { m < length bank.old }
    requires address { d < length bank.old }
    ensures form { IfOk result (λ i. Holds bank.new i
        (load_from runs.now (tree_at bank.old d) (tree_at bank.old m))) }
    ensures within { IfOk result (λ i. i < length bank.new) }
    ensures extends { Extends bank.old bank.new }
{
    let mut walk = Walk::new(alloc, m);
    load_on(bank, runs, m, d, &mut walk)
}
