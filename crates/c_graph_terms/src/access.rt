//! Objects in memory: their addresses, the tests of an access, and what it reads or writes.

ghost use Rattle.std.specs.Prelude.{◌≡◌, ℕ, ◌+◌, ◌-◌, ◌<◌, ◌≤◌, ◌∷◌, [], length, map};
ghost use Rattle.memory_spec.specs.Viewed.{run_of, runs_of};
ghost use Rattle.term_core_spec.specs.Term as tree;
ghost use Rattle.term_bank.specs.Nodes.{tree_at};
ghost use Rattle.c_graph_spec.specs.State as state;
ghost use Rattle.c_graph_spec.specs.Values as spec;
ghost use Rattle.c_graph_spec.specs.Guards as guards;
ghost use Rattle.c_graph_terms.specs.Accesses as accesses;
ghost use Rattle.c_graph_terms.specs.Accesses.{Stores};
ghost use Rattle.c_graph_terms.specs.Built.{Builds};
ghost use Rattle.c_graph_terms.specs.Scenes.{BuildsObject, object_at};
ghost use Rattle.c_graph_terms.specs.Tests.{AddsTests, Evaluates};

use crate::guards::keep;
use crate::numbers::{ADD, MASK, last_place};
use crate::table::{build, leaf};
use crate::values::{Object, ValueIds};
use crate::variables::{MEMORY, ZONE_HIGH, ZONE_LOW, width_of};
use crate::words::{number, of_word};
use attempt::attempt;
use c_types_spec::Scalar;
use memory_spec::Run;
use std::alloc::{AllocError, Global};
use term_bank::TermNode::{Binary, Leaf, Quaternary, Ternary, Unary};
use term_bank::{Bank, TermId};
use term_core_spec::Atom::{Constant, Open, Truth};
use term_core_spec::{BinaryOperator, QuaternaryOperator, TernaryOperator, UnaryOperator, Width};

/// What an expression that is in no assignment to an object speaks of as its target.
pub fn no_object(bank: &mut Bank) -> Result<Object, AllocError>
    ensures { BuildsObject bank.old bank.new result spec.no_object }
{
    let base = attempt!(number(bank, 0));
    Ok(Object {
        base,
        displacement: 0,
    })
}

/// The address of an object.
fn address_of(alloc: Global, bank: &mut Bank, object: Object) -> Result<TermId, AllocError>
    requires { object.base < length bank.old }
    ensures { Builds bank.old bank.new result (spec.address_of (object_at bank.old object)) }
{
    let nodes = [
        Leaf(Constant(Width::W32, object.displacement as u64)),
        Binary(ADD, 0, 1),
    ];
    build(alloc, bank, &[object.base], &nodes)
}

/// The value of a width at an address, the lowest byte first.
fn loaded_at(
    alloc: Global,
    bank: &mut Bank,
    width: Width,
    address: TermId,
) -> Result<TermId, AllocError>
    requires { address < length bank.old }
    ensures { Builds bank.old bank.new result
        (spec.loaded_at width (tree_at bank.old address)) }
{
    match width {
        Width::W8 => {
            let nodes = [Leaf(Open(MEMORY)), Binary(BinaryOperator::Load, 1, 0)];
            build(alloc, bank, &[address], &nodes)
        }
        Width::W16 => {
            let nodes = [
                Leaf(Open(MEMORY)),
                Binary(BinaryOperator::Load, 1, 0),
                Leaf(Constant(Width::W32, 1)),
                Binary(ADD, 0, 3),
                Binary(BinaryOperator::Load, 1, 4),
                Binary(BinaryOperator::Join, 2, 5),
            ];
            build(alloc, bank, &[address], &nodes)
        }
        Width::W32 | Width::W64 => {
            let nodes = [
                Leaf(Open(MEMORY)),
                Binary(BinaryOperator::Load, 1, 0),
                Leaf(Constant(Width::W32, 1)),
                Binary(ADD, 0, 3),
                Binary(BinaryOperator::Load, 1, 4),
                Leaf(Constant(Width::W32, 2)),
                Binary(ADD, 0, 6),
                Binary(BinaryOperator::Load, 1, 7),
                Leaf(Constant(Width::W32, 3)),
                Binary(ADD, 0, 9),
                Binary(BinaryOperator::Load, 1, 10),
                Quaternary(QuaternaryOperator::Join, 2, 5, 8, 11),
            ];
            build(alloc, bank, &[address], &nodes)
        }
    }
}

/// The memory after a word of a width is written at an address, the lowest byte first.
fn stored_at(
    alloc: Global,
    bank: &mut Bank,
    width: Width,
    address: TermId,
    x: TermId,
) -> Result<TermId, AllocError>
    requires address_within { address < length bank.old }
    requires x_within { x < length bank.old }
    ensures { Builds bank.old bank.new result
        (spec.stored_at width (tree_at bank.old address) (tree_at bank.old x)) }
{
    match width {
        Width::W8 => {
            let nodes = [
                Leaf(Open(MEMORY)),
                Unary(UnaryOperator::Byte(0), 1),
                Ternary(TernaryOperator::Store, 2, 0, 3),
            ];
            build(alloc, bank, &[address, x], &nodes)
        }
        Width::W16 => {
            let nodes = [
                Leaf(Open(MEMORY)),
                Unary(UnaryOperator::Byte(0), 1),
                Ternary(TernaryOperator::Store, 2, 0, 3),
                Leaf(Constant(Width::W32, 1)),
                Binary(ADD, 0, 5),
                Unary(UnaryOperator::Byte(1), 1),
                Ternary(TernaryOperator::Store, 4, 6, 7),
            ];
            build(alloc, bank, &[address, x], &nodes)
        }
        Width::W32 | Width::W64 => {
            let nodes = [
                Leaf(Open(MEMORY)),
                Unary(UnaryOperator::Byte(0), 1),
                Ternary(TernaryOperator::Store, 2, 0, 3),
                Leaf(Constant(Width::W32, 1)),
                Binary(ADD, 0, 5),
                Unary(UnaryOperator::Byte(1), 1),
                Ternary(TernaryOperator::Store, 4, 6, 7),
                Leaf(Constant(Width::W32, 2)),
                Binary(ADD, 0, 9),
                Unary(UnaryOperator::Byte(2), 1),
                Ternary(TernaryOperator::Store, 8, 10, 11),
                Leaf(Constant(Width::W32, 3)),
                Binary(ADD, 0, 13),
                Unary(UnaryOperator::Byte(3), 1),
                Ternary(TernaryOperator::Store, 12, 14, 15),
            ];
            build(alloc, bank, &[address, x], &nodes)
        }
    }
}

/// Guard 5: an address that is not 0, a multiple of the type's size, and not below the base that
/// it is past.
fn access_test(
    alloc: Global,
    bank: &mut Bank,
    of: Scalar,
    address: TermId,
    base: TermId,
) -> Result<TermId, AllocError>
    requires address_within { address < length bank.old }
    requires base_within { base < length bank.old }
    ensures { Builds bank.old bank.new result
        (accesses.accessible_at of (tree_at bank.old address) (tree_at bank.old base)) }
{
    let nodes = [
        Leaf(Constant(Width::W32, 0)),
        Binary(BinaryOperator::Equal, 0, 2),
        Unary(UnaryOperator::Not, 3),
        Leaf(Constant(Width::W32, last_place(width_of(of)))),
        Binary(MASK, 0, 5),
        Binary(BinaryOperator::Equal, 6, 2),
        Binary(BinaryOperator::And, 4, 7),
        Binary(BinaryOperator::Less, 0, 1),
        Unary(UnaryOperator::Not, 9),
        Binary(BinaryOperator::And, 8, 10),
    ];
    build(alloc, bank, &[address, base], &nodes)
}

/// Guard 6: no byte of an object is in the zone.
fn zone_test(
    alloc: Global,
    bank: &mut Bank,
    of: Scalar,
    address: TermId,
) -> Result<TermId, AllocError>
    requires { address < length bank.old }
    ensures { Builds bank.old bank.new result (guards.avoids_zone (tree_at bank.old address)
        (accesses.last_of of (tree_at bank.old address))) }
{
    let nodes = [
        Leaf(Constant(Width::W32, last_place(width_of(of)))),
        Binary(ADD, 0, 1),
        Leaf(Open(ZONE_LOW)),
        Leaf(Open(ZONE_HIGH)),
        // the zone is empty
        Binary(BinaryOperator::Less, 3, 4),
        Unary(UnaryOperator::Not, 5),
        // the object is below it, or above it
        Binary(BinaryOperator::Less, 2, 3),
        Binary(BinaryOperator::Less, 0, 4),
        Unary(UnaryOperator::Not, 8),
        Binary(BinaryOperator::Or, 7, 9),
        Binary(BinaryOperator::Or, 6, 10),
    ];
    build(alloc, bank, &[address], &nodes)
}

/// The last byte of an object.
fn last_byte(
    alloc: Global,
    bank: &mut Bank,
    of: Scalar,
    address: TermId,
) -> Result<TermId, AllocError>
    requires { address < length bank.old }
    ensures { Builds bank.old bank.new result
        (accesses.last_of of (tree_at bank.old address)) }
{
    let nodes = [
        Leaf(Constant(Width::W32, last_place(width_of(of)))),
        Binary(ADD, 0, 1),
    ];
    build(alloc, bank, &[address], &nodes)
}

/// The address of the last byte of a run, as a number that may be any.
fn last_of_run(run: &Run) -> u64
    ensures { result ≡ (run_of run.now).start + length (run_of run.now).bytes - 1 }
{
    (u64::from(run.start) + run.bytes.len() as u64).saturating_sub(1)
}

/// The bytes from a to e meet none of a run.
fn run_test(
    alloc: Global,
    bank: &mut Bank,
    run: &Run,
    a: TermId,
    e: TermId,
) -> Result<TermId, AllocError>
    requires a_within { a < length bank.old }
    requires e_within { e < length bank.old }
    ensures { Builds bank.old bank.new result
        (guards.avoids_run (tree_at bank.old a) (tree_at bank.old e) (run_of run.now)) }
{
    let nodes = [
        Leaf(Constant(Width::W32, last_of_run(run))),
        Binary(BinaryOperator::Less, 2, 0),
        Leaf(Constant(Width::W32, u64::from(run.start))),
        Binary(BinaryOperator::Less, 1, 4),
        Binary(BinaryOperator::Or, 3, 5),
    ];
    build(alloc, bank, &[a, e], &nodes)
}

/// Both of two tests.
fn both_tests(
    alloc: Global,
    bank: &mut Bank,
    first: TermId,
    second: TermId,
) -> Result<TermId, AllocError>
    requires first_within { first < length bank.old }
    requires second_within { second < length bank.old }
    ensures { Builds bank.old bank.new result
        (tree.and_term (tree_at bank.old first) (tree_at bank.old second)) }
{
    let nodes = [Binary(BinaryOperator::And, 0, 1)];
    build(alloc, bank, &[first, second], &nodes)
}

/// The bytes from a to e meet none of the runs, by halves of these. Its calls of itself nest as
/// deep as the number of runs can be halved, which is 16 times at most where a file has so many
/// that their count is below 2 ^ 16.
fn runs_test(
    alloc: Global,
    bank: &mut Bank,
    runs: &[Run],
    a: TermId,
    e: TermId,
) -> Result<TermId, AllocError>
    requires a_within { a < length bank.old }
    requires e_within { e < length bank.old }
    ensures { (halvings : ℕ) → length runs.now ≤ halvings
        → Builds bank.old bank.new result (guards.conjoined halvings
        (map (guards.avoids_run (tree_at bank.old a) (tree_at bank.old e)) (runs_of runs.now))) }
{
    if runs.is_empty() {
        return leaf(bank, Truth(true));
    }
    if runs.len() == 1 {
        return run_test(alloc, bank, &runs[0], a, e);
    }
    let (front, back) = runs.split_at(runs.len() / 2);
    let first = attempt!(runs_test(alloc, bank, front, a, e));
    let second = attempt!(runs_test(alloc, bank, back, a, e));
    both_tests(alloc, bank, first, second)
}

/// Guard 7: the bytes from a to e are not fixed.
fn fixed_test(
    alloc: Global,
    bank: &mut Bank,
    runs: &[Run],
    a: TermId,
    e: TermId,
) -> Result<TermId, AllocError>
    requires a_within { a < length bank.old }
    requires e_within { e < length bank.old }
    ensures { Builds bank.old bank.new result
        (guards.avoids_fixed (tree_at bank.old a) (tree_at bank.old e) (runs_of runs.now)) }
{
    runs_test(alloc, bank, runs, a, e)
}

/// Adds the tests of a read.
fn add_read_tests(
    alloc: Global,
    bank: &mut Bank,
    tests: &mut Vec<TermId>,
    of: Scalar,
    address: TermId,
    base: TermId,
) -> Result<(), AllocError>
    requires address_within { address < length bank.old }
    requires base_within { base < length bank.old }
    ensures { AddsTests bank.old bank.new tests.old.items tests.new.items result
        (accesses.read_tests_at of (tree_at bank.old address) (tree_at bank.old base)) }
{
    let accessible = attempt!(access_test(alloc, bank, of, address, base));
    attempt!(keep(tests, accessible));
    let outside = attempt!(zone_test(alloc, bank, of, address));
    keep(tests, outside)
}

/// Adds the test that the bytes of an object are not fixed.
fn add_fixed_test(
    alloc: Global,
    bank: &mut Bank,
    tests: &mut Vec<TermId>,
    runs: &[Run],
    of: Scalar,
    address: TermId,
) -> Result<(), AllocError>
    requires { address < length bank.old }
    ensures { AddsTests bank.old bank.new tests.old.items tests.new.items result
        (guards.avoids_fixed (tree_at bank.old address)
        (accesses.last_of of (tree_at bank.old address)) (runs_of runs.now) ∷ []) }
{
    let last = attempt!(last_byte(alloc, bank, of, address));
    let test = attempt!(fixed_test(alloc, bank, runs, address, last));
    keep(tests, test)
}

/// The value of the object at an address.
fn read_at(
    alloc: Global,
    bank: &mut Bank,
    tests: &mut Vec<TermId>,
    of: Scalar,
    address: TermId,
    base: TermId,
) -> Result<ValueIds, AllocError>
    requires address_within { address < length bank.old }
    requires base_within { base < length bank.old }
    ensures { Evaluates bank.old bank.new tests.old.items tests.new.items result
        (spec.of_word of (spec.loaded_at (state.width_of of) (tree_at bank.old address)))
        (accesses.read_tests_at of (tree_at bank.old address) (tree_at bank.old base)) }
{
    attempt!(add_read_tests(alloc, bank, tests, of, address, base));
    let word = attempt!(loaded_at(alloc, bank, width_of(of), address));
    of_word(alloc, bank, of, word)
}

/// The value of an object.
pub(crate) fn read_object(
    alloc: Global,
    bank: &mut Bank,
    tests: &mut Vec<TermId>,
    of: Scalar,
    object: Object,
) -> Result<ValueIds, AllocError>
    requires { object.base < length bank.old }
    ensures { Evaluates bank.old bank.new tests.old.items tests.new.items result
        (spec.of_word of (spec.loaded of (object_at bank.old object)))
        (guards.read_tests of (object_at bank.old object)) }
{
    let address = attempt!(address_of(alloc, bank, object));
    read_at(alloc, bank, tests, of, address, object.base)
}

/// The memory after a word is stored at an address, once its last test is added.
fn write_at(
    alloc: Global,
    bank: &mut Bank,
    tests: &mut Vec<TermId>,
    runs: &[Run],
    of: Scalar,
    address: TermId,
    x: TermId,
) -> Result<TermId, AllocError>
    requires address_within { address < length bank.old }
    requires x_within { x < length bank.old }
    ensures { Stores bank.old bank.new tests.old.items tests.new.items result
        (spec.stored_at (state.width_of of) (tree_at bank.old address) (tree_at bank.old x))
        (guards.avoids_fixed (tree_at bank.old address)
        (accesses.last_of of (tree_at bank.old address)) (runs_of runs.now) ∷ []) }
{
    attempt!(add_fixed_test(alloc, bank, tests, runs, of, address));
    stored_at(alloc, bank, width_of(of), address, x)
}

/// The memory after a value of a type is stored in an object, and the tests of the write.
pub fn store_object(
    alloc: Global,
    bank: &mut Bank,
    tests: &mut Vec<TermId>,
    runs: &[Run],
    of: Scalar,
    object: Object,
    x: TermId,
) -> Result<TermId, AllocError>
    requires object_within { object.base < length bank.old }
    requires x_within { x < length bank.old }
    ensures { Stores bank.old bank.new tests.old.items tests.new.items result
        (spec.stored of (object_at bank.old object) (tree_at bank.old x))
        (guards.write_tests (runs_of runs.now) of (object_at bank.old object)) }
{
    let address = attempt!(address_of(alloc, bank, object));
    attempt!(add_read_tests(alloc, bank, tests, of, address, object.base));
    write_at(alloc, bank, tests, runs, of, address, x)
}
