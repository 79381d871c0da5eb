//! Expressions, and assignments to objects.

ghost use Rattle.std.specs.Prelude.{◌≡◌, ◌<◌, ◌++◌, ◌∷◌, [], ℕ, List, length, map, if◌then◌else◌};
ghost use Rattle.std.specs.Prelude.{unwrap_or};
ghost use Rattle.term_core_spec.specs.Term as tree;
ghost use Rattle.term_core_spec.specs.declared.Width.TheVariants.{W32};
ghost use Rattle.term_bank.specs.Nodes.{tree_at};
ghost use Rattle.memory_spec.specs.Viewed.{runs_of};
ghost use Rattle.c_types_spec.specs.Core as core;
ghost use Rattle.c_types_spec.specs.Types as types;
ghost use Rattle.c_types_spec.specs.declared.Scalar as scalar;
ghost use Rattle.c_types_core.specs.Expressions.{core_of};
ghost use Rattle.c_graph_spec.specs.State as state;
ghost use Rattle.c_graph_spec.specs.Values as spec;
ghost use Rattle.c_graph_spec.specs.Guards as guards;
ghost use Rattle.c_graph_terms.specs.Built.{Builds, BuildsTerms, IsWithin, terms_at};
ghost use Rattle.c_graph_terms.specs.Scenes.{EvaluatesBoth, EvaluatesTo, EvaluatesUnder};
ghost use Rattle.c_graph_terms.specs.Scenes.{StoresTo, globals_of};
ghost use Rattle.c_graph_terms.specs.Tables.{AreWithin};
ghost use Rattle.c_graph_terms.specs.Tests.{AddsTests, Evaluates};

use crate::access::{read_object, store_object};
use crate::guards::{keep, keep_some, operator_test};
use crate::moves::{alignment_test, index_test, move_test, moved_pointer};
use crate::table::{build, leaf};
use crate::values::{Object, Operands, Scene, ValueIds};
use crate::variables::{is_set, local, width_of};
use crate::words::{
    at_width, chosen, compared, computed, constant, converted, of_truth, of_word, opposite,
    zero_test,
};
use attempt::attempt;
use c_run_value::setting::global_address;
use c_types_core::constants::{WORD, type_of};
use c_types_core::expression::Core;
use c_types_spec::{Arithmetic, Comparison, Direction, Order, Scalar};
use memory_spec::Run;
use std::alloc::{AllocError, Global};
use term_bank::TermNode::Binary;
use term_bank::{Bank, TermId};
use term_core_spec::Atom::{Constant, Open};
use term_core_spec::{BinaryOperator, Width};

// ---- what needs no other expression

/// The value of a local, whose guard is that it is set.
fn read_local(
    alloc: Global,
    bank: &mut Bank,
    tests: &mut Vec<TermId>,
    of: Scalar,
    number: usize,
) -> Result<ValueIds, AllocError>
    ensures { Evaluates bank.old bank.new tests.old.items tests.new.items result
        (spec.of_word of (tree.open_term (state.local number of)))
        (tree.open_term (state.is_set number) ∷ []) }
{
    let test = attempt!(leaf(bank, Open(is_set(number))));
    attempt!(keep(tests, test));
    let word = attempt!(leaf(bank, Open(local(number, of))));
    of_word(alloc, bank, of, word)
}

/// The address of a global.
fn global_value(scene: &Scene<'_>, bank: &mut Bank, name: &[u8]) -> Result<ValueIds, AllocError>
    ensures { BuildsTerms bank.old bank.new result (spec.of_word types.word
        (state.number (unwrap_or (globals_of scene.now name.now) 0))) }
{
    let address = u64::from(global_address(scene.globals, name));
    let word = attempt!(leaf(bank, Constant(Width::W32, address)));
    of_word(scene.alloc, bank, WORD, word)
}

/// The value of an operator.
fn operated_value(
    alloc: Global,
    bank: &mut Bank,
    operator: Arithmetic,
    of: Scalar,
    second: Scalar,
    x: TermId,
    y: TermId,
) -> Result<ValueIds, AllocError>
    requires x_within { x < length bank.old }
    requires y_within { y < length bank.old }
    ensures { BuildsTerms bank.old bank.new result (spec.of_word of (spec.computed operator of
        (tree_at bank.old x)
        (spec.at_width second (state.width_of of) (tree_at bank.old y)))) }
{
    let y = attempt!(at_width(alloc, bank, second, width_of(of), y));
    let word = attempt!(computed(alloc, bank, operator, of, x, y));
    of_word(alloc, bank, of, word)
}

/// An operator on two values, the right one of type `second`.
fn operated(
    alloc: Global,
    bank: &mut Bank,
    tests: &mut Vec<TermId>,
    operator: Arithmetic,
    of: Scalar,
    second: Scalar,
    x: TermId,
    y: TermId,
) -> Result<ValueIds, AllocError>
    requires x_within { x < length bank.old }
    requires y_within { y < length bank.old }
    ensures { Evaluates bank.old bank.new tests.old.items tests.new.items result
        (spec.of_word of (spec.computed operator of (tree_at bank.old x)
        (spec.at_width second (state.width_of of) (tree_at bank.old y))))
        (guards.operator_tests operator of second (tree_at bank.old x) (tree_at bank.old y)) }
{
    let test = attempt!(operator_test(alloc, bank, operator, of, second, x, y));
    attempt!(keep_some(tests, test));
    operated_value(alloc, bank, operator, of, second, x, y)
}

/// A constant 0, converted or not.
#[tactic(auto, using(c_types_core::proofs::Views::views))]
fn is_zero(x: &Core<'_>) -> bool
    ensures { result ≡ spec.is_zero (core_of x.now) }
{
    match x {
        Core::Constant(_, value) => *value == 0,
        Core::Convert(_, operand) => is_zero(operand),
        Core::ReadLocal(_, _, _)
        | Core::GlobalAddress(_)
        | Core::Load(_, _, _, _)
        | Core::Target(_, _)
        | Core::Operate(_, _, _, _, _)
        | Core::Compare(_, _, _)
        | Core::Move(_, _, _, _, _, _)
        | Core::Within(_, _, _)
        | Core::Aligned(_, _, _)
        | Core::Choose(_, _, _, _) => false,
    }
}

/// The comparison is for equality with a constant 0.
fn tests_zero(operator: Comparison, right: &Core<'_>) -> bool
    ensures { result ≡ spec.tests_zero operator (core_of right.now) }
{
    match operator {
        Comparison::Equal | Comparison::NotEqual => is_zero(right),
        Comparison::Less
        | Comparison::Greater
        | Comparison::LessOrEqual
        | Comparison::GreaterOrEqual => false,
    }
}

/// Whether two values compare so; where one is compared for equality with 0, by its truth.
fn comparison_test(
    alloc: Global,
    bank: &mut Bank,
    operator: Comparison,
    of: Scalar,
    with_zero: bool,
    x: ValueIds,
    y: TermId,
) -> Result<TermId, AllocError>
    requires x_within { IsWithin (length bank.old) x }
    requires y_within { y < length bank.old }
    ensures { Builds bank.old bank.new result (if with_zero
        then spec.zero_test operator (tree_at bank.old x.truth)
        else spec.compared operator of (tree_at bank.old x.word) (tree_at bank.old y)) }
{
    if with_zero {
        zero_test(alloc, bank, operator, x.truth)
    } else {
        compared(alloc, bank, operator, of, x.word, y)
    }
}

/// A comparison of two values.
fn compared_value(
    alloc: Global,
    bank: &mut Bank,
    operator: Comparison,
    of: Scalar,
    with_zero: bool,
    x: ValueIds,
    y: TermId,
) -> Result<ValueIds, AllocError>
    requires x_within { IsWithin (length bank.old) x }
    requires y_within { y < length bank.old }
    ensures { BuildsTerms bank.old bank.new result (spec.of_truth (if with_zero
        then spec.zero_test operator (tree_at bank.old x.truth)
        else spec.compared operator of (tree_at bank.old x.word) (tree_at bank.old y))) }
{
    let test = attempt!(comparison_test(alloc, bank, operator, of, with_zero, x, y));
    of_truth(alloc, bank, test)
}

/// A pointer that is moved by so many objects of a size.
fn moved_value(
    alloc: Global,
    bank: &mut Bank,
    tests: &mut Vec<TermId>,
    direction: Direction,
    size: usize,
    pointer: TermId,
    index: Scalar,
    i: TermId,
) -> Result<ValueIds, AllocError>
    requires pointer_within { pointer < length bank.old }
    requires i_within { i < length bank.old }
    ensures { Evaluates bank.old bank.new tests.old.items tests.new.items result
        (spec.of_word types.word (spec.moved direction (tree_at bank.old pointer)
        (spec.scaled W32 size (spec.at_width index W32 (tree_at bank.old i)))))
        (guards.is_pointer_moved direction size (tree_at bank.old pointer) index
        (tree_at bank.old i) ∷ []) }
{
    let test = attempt!(move_test(alloc, bank, direction, size, pointer, index, i));
    attempt!(keep(tests, test));
    moved_pointer(alloc, bank, direction, size, pointer, index, i)
}

/// An index, once its guard is tested.
fn bounded(
    alloc: Global,
    bank: &mut Bank,
    tests: &mut Vec<TermId>,
    bound: usize,
    index: Scalar,
    i: ValueIds,
) -> Result<ValueIds, AllocError>
    requires { IsWithin (length bank.old) i }
    ensures { Evaluates bank.old bank.new tests.old.items tests.new.items result
        (terms_at bank.old i)
        (guards.is_within bound index (tree_at bank.old i.word) ∷ []) }
{
    let test = attempt!(index_test(alloc, bank, bound, index, i.word));
    attempt!(keep(tests, test));
    Ok(i)
}

/// A pointer, once its alignment is tested.
fn at_alignment(
    alloc: Global,
    bank: &mut Bank,
    tests: &mut Vec<TermId>,
    alignment: usize,
    pointer: ValueIds,
) -> Result<ValueIds, AllocError>
    requires { IsWithin (length bank.old) pointer }
    ensures { Evaluates bank.old bank.new tests.old.items tests.new.items result
        (terms_at bank.old pointer)
        (guards.is_aligned alignment (tree_at bank.old pointer.word) ∷ []) }
{
    let test = attempt!(alignment_test(alloc, bank, alignment, pointer.word));
    attempt!(keep(tests, test));
    Ok(pointer)
}

/// Adds tests that are asked only where a condition doesn't fail.
fn add_excused(
    alloc: Global,
    bank: &mut Bank,
    tests: &mut Vec<TermId>,
    excuse: TermId,
    own: &[TermId],
) -> Result<(), AllocError>
    requires excuse_within { excuse < length bank.old }
    requires own_within { AreWithin (length bank.old) own.now }
    ensures { AddsTests bank.old bank.new tests.old.items tests.new.items result
        (map (tree.or_term (tree_at bank.old excuse)) (map (tree_at bank.old) own.now)) }
{
    for test in own {
        let node = Binary(BinaryOperator::Or, 0, 1);
        let excused = attempt!(build(alloc, bank, &[excuse, *test], &[node]));
        attempt!(keep(tests, excused));
    }
    Ok(())
}

/// Adds tests that are asked only where a condition holds.
fn add_under(
    alloc: Global,
    bank: &mut Bank,
    tests: &mut Vec<TermId>,
    condition: TermId,
    own: &[TermId],
) -> Result<(), AllocError>
    requires condition_within { condition < length bank.old }
    requires own_within { AreWithin (length bank.old) own.now }
    ensures { AddsTests bank.old bank.new tests.old.items tests.new.items result
        (map (guards.under (tree_at bank.old condition)) (map (tree_at bank.old) own.now)) }
{
    let excuse = attempt!(opposite(alloc, bank, condition));
    add_excused(alloc, bank, tests, excuse, own)
}

// ---- what has other expressions in it

/// The object so many bytes past an address.
#[cycle(expressions)]
fn load(
    address: &Core<'_>,
    scene: &Scene<'_>,
    bank: &mut Bank,
    tests: &mut Vec<TermId>,
    of: Scalar,
    displacement: usize,
) -> Result<ValueIds, AllocError>
    requires { scene.now.target.base < length bank.old }
    ensures { (offset : ℕ) → EvaluatesTo scene.now bank.old bank.new tests.old.items
        tests.new.items result (core.Load of (core_of address.now) displacement offset) }
{
    let x = attempt!(evaluate(address, scene, bank, tests));
    let object = Object {
        base: x.word,
        displacement,
    };
    read_object(scene.alloc, bank, tests, of, object)
}

/// A value in another type.
#[cycle(expressions)]
fn convert(
    operand: &Core<'_>,
    scene: &Scene<'_>,
    bank: &mut Bank,
    tests: &mut Vec<TermId>,
    of: Scalar,
) -> Result<ValueIds, AllocError>
    requires { scene.now.target.base < length bank.old }
    ensures { EvaluatesTo scene.now bank.old bank.new tests.old.items tests.new.items result
        (core.Convert of (core_of operand.now)) }
{
    let x = attempt!(evaluate(operand, scene, bank, tests));
    converted(scene.alloc, bank, type_of(operand), of, x.word)
}

/// Two expressions, one after the other.
#[cycle(expressions)]
fn both(
    first: &Core<'_>,
    second: &Core<'_>,
    scene: &Scene<'_>,
    bank: &mut Bank,
    tests: &mut Vec<TermId>,
) -> Result<Operands, AllocError>
    requires { scene.now.target.base < length bank.old }
    ensures { EvaluatesBoth scene.now bank.old bank.new tests.old.items tests.new.items result
        (core_of first.now) (core_of second.now) }
{
    let first = attempt!(evaluate(first, scene, bank, tests));
    let second = attempt!(evaluate(second, scene, bank, tests));
    Ok(Operands { first, second })
}

/// An operator on two values.
#[cycle(expressions)]
fn operate(
    left: &Core<'_>,
    right: &Core<'_>,
    scene: &Scene<'_>,
    bank: &mut Bank,
    tests: &mut Vec<TermId>,
    operator: Arithmetic,
    of: Scalar,
) -> Result<ValueIds, AllocError>
    requires { scene.now.target.base < length bank.old }
    ensures { (offset : ℕ) → EvaluatesTo scene.now bank.old bank.new tests.old.items
        tests.new.items result (core.Operate operator of (core_of left.now) (core_of right.now)
        offset) }
{
    let given = attempt!(both(left, right, scene, bank, tests));
    let (x, y) = (given.first.word, given.second.word);
    operated(scene.alloc, bank, tests, operator, of, type_of(right), x, y)
}

/// A comparison of two values.
#[cycle(expressions)]
fn compare(
    left: &Core<'_>,
    right: &Core<'_>,
    scene: &Scene<'_>,
    bank: &mut Bank,
    tests: &mut Vec<TermId>,
    operator: Comparison,
) -> Result<ValueIds, AllocError>
    requires { scene.now.target.base < length bank.old }
    ensures { EvaluatesTo scene.now bank.old bank.new tests.old.items tests.new.items result
        (core.Compare operator (core_of left.now) (core_of right.now)) }
{
    let given = attempt!(both(left, right, scene, bank, tests));
    let with_zero = tests_zero(operator, right);
    let (x, y) = (given.first, given.second.word);
    compared_value(scene.alloc, bank, operator, type_of(left), with_zero, x, y)
}

/// A pointer that is moved by so many objects of a size.
#[cycle(expressions)]
fn move_pointer(
    pointer: &Core<'_>,
    index: &Core<'_>,
    scene: &Scene<'_>,
    bank: &mut Bank,
    tests: &mut Vec<TermId>,
    direction: Direction,
    order: Order,
    size: usize,
) -> Result<ValueIds, AllocError>
    requires { scene.now.target.base < length bank.old }
    ensures { (offset : ℕ) → EvaluatesTo scene.now bank.old bank.new tests.old.items
        tests.new.items result (core.Move direction order size (core_of pointer.now)
        (core_of index.now) offset) }
{
    let alloc = scene.alloc;
    match order {
        Order::PointerFirst => {
            let given = attempt!(both(pointer, index, scene, bank, tests));
            let (p, i) = (given.first.word, given.second.word);
            moved_value(alloc, bank, tests, direction, size, p, type_of(index), i)
        }
        Order::IndexFirst => {
            let given = attempt!(both(index, pointer, scene, bank, tests));
            let (i, p) = (given.first.word, given.second.word);
            moved_value(alloc, bank, tests, direction, size, p, type_of(index), i)
        }
    }
}

/// An index below a bound.
#[cycle(expressions)]
fn within(
    index: &Core<'_>,
    scene: &Scene<'_>,
    bank: &mut Bank,
    tests: &mut Vec<TermId>,
    bound: usize,
) -> Result<ValueIds, AllocError>
    requires { scene.now.target.base < length bank.old }
    ensures { (offset : ℕ) → EvaluatesTo scene.now bank.old bank.new tests.old.items
        tests.new.items result (core.Within bound (core_of index.now) offset) }
{
    let i = attempt!(evaluate(index, scene, bank, tests));
    bounded(scene.alloc, bank, tests, bound, type_of(index), i)
}

/// A pointer at a multiple of an alignment.
#[cycle(expressions)]
fn aligned(
    pointer: &Core<'_>,
    scene: &Scene<'_>,
    bank: &mut Bank,
    tests: &mut Vec<TermId>,
    alignment: usize,
) -> Result<ValueIds, AllocError>
    requires { scene.now.target.base < length bank.old }
    ensures { (offset : ℕ) → EvaluatesTo scene.now bank.old bank.new tests.old.items
        tests.new.items result (core.Aligned alignment (core_of pointer.now) offset) }
{
    let p = attempt!(evaluate(pointer, scene, bank, tests));
    at_alignment(scene.alloc, bank, tests, alignment, p)
}

/// An expression that is evaluated only where a condition holds.
#[cycle(expressions)]
fn arm(
    x: &Core<'_>,
    scene: &Scene<'_>,
    bank: &mut Bank,
    tests: &mut Vec<TermId>,
    condition: TermId,
) -> Result<ValueIds, AllocError>
    requires target_within { scene.now.target.base < length bank.old }
    requires condition_within { condition < length bank.old }
    ensures { EvaluatesUnder scene.now bank.old bank.new tests.old.items tests.new.items result
        (tree_at bank.old condition) (core_of x.now) }
{
    let mut own = Vec::new(scene.alloc);
    let value = attempt!(evaluate(x, scene, bank, &mut own));
    attempt!(add_under(scene.alloc, bank, tests, condition, own.as_slice()));
    Ok(value)
}

/// One of two values, by a test.
#[cycle(expressions)]
fn choose(
    test: &Core<'_>,
    first: &Core<'_>,
    second: &Core<'_>,
    scene: &Scene<'_>,
    bank: &mut Bank,
    tests: &mut Vec<TermId>,
) -> Result<ValueIds, AllocError>
    requires { scene.now.target.base < length bank.old }
    ensures { (of : scalar.Scalar) → EvaluatesTo scene.now bank.old bank.new tests.old.items
        tests.new.items result (core.Choose of (core_of test.now) (core_of first.now)
        (core_of second.now)) }
{
    let test = attempt!(evaluate(test, scene, bank, tests));
    let first = attempt!(arm(first, scene, bank, tests, test.truth));
    let otherwise = attempt!(opposite(scene.alloc, bank, test.truth));
    let second = attempt!(arm(second, scene, bank, tests, otherwise));
    chosen(scene.alloc, bank, test, first, second)
}

/// The terms of an expression's value; the tests of its guards are added to those before, in the
/// order in which a run evaluates them.
#[cycle(expressions)]
#[tactic(auto, using(c_types_core::proofs::Views::views))]
pub fn evaluate(
    x: &Core<'_>,
    scene: &Scene<'_>,
    bank: &mut Bank,
    tests: &mut Vec<TermId>,
) -> Result<ValueIds, AllocError>
    requires { scene.now.target.base < length bank.old }
    ensures { EvaluatesTo scene.now bank.old bank.new tests.old.items tests.new.items result
        (core_of x.now) }
{
    match x {
        Core::Constant(of, value) => constant(scene.alloc, bank, *of, *value),
        Core::ReadLocal(of, number, _) => read_local(scene.alloc, bank, tests, *of, *number),
        Core::GlobalAddress(name) => global_value(scene, bank, name),
        Core::Load(of, address, displacement, _) => {
            load(address, scene, bank, tests, *of, *displacement)
        }
        Core::Target(of, _) => read_object(scene.alloc, bank, tests, *of, scene.target),
        Core::Convert(of, operand) => convert(operand, scene, bank, tests, *of),
        Core::Operate(operator, of, left, right, _) => {
            operate(left, right, scene, bank, tests, *operator, *of)
        }
        Core::Compare(operator, left, right) => {
            compare(left, right, scene, bank, tests, *operator)
        }
        Core::Move(direction, order, size, pointer, index, _) => {
            move_pointer(
                pointer, index, scene, bank, tests, *direction, *order, *size,
            )
        }
        Core::Within(bound, index, _) => within(index, scene, bank, tests, *bound),
        Core::Aligned(alignment, pointer, _) => aligned(pointer, scene, bank, tests, *alignment),
        Core::Choose(_, test, first, second) => choose(test, first, second, scene, bank, tests),
    }
}

/// The memory after a value is stored in the object so many bytes past an address; the tests of the
/// address are added, then those of the value, which may speak of the object, and of the write.
pub fn store(
    address: &Core<'_>,
    value: &Core<'_>,
    scene: &Scene<'_>,
    bank: &mut Bank,
    tests: &mut Vec<TermId>,
    runs: &[Run],
    of: Scalar,
    displacement: usize,
) -> Result<TermId, AllocError>
    requires { scene.now.target.base < length bank.old }
    ensures { StoresTo scene.now bank.old bank.new tests.old.items tests.new.items result
        (runs_of runs.now) of (core_of address.now) displacement (core_of value.now) }
{
    let base = attempt!(evaluate(address, scene, bank, tests));
    let target = Object {
        base: base.word,
        displacement,
    };
    let inner = Scene {
        alloc: scene.alloc,
        globals: scene.globals,
        target,
    };
    let x = attempt!(evaluate(value, &inner, bank, tests));
    store_object(scene.alloc, bank, tests, runs, of, target, x.word)
}
