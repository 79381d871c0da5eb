//! The value of an expression.

ghost use Rattle.std.specs.Prelude.{◌≡◌, ◌+◌, ◌%◌, ◌==◌, ◌≤◌, ◌^◌, ◌*ℤ◌, pos, slice_get, unwrap_or};
ghost use Rattle.std.specs.Prelude.{MatchResult, Ok};
ghost use Rattle.c_types_spec.specs.Types.{word};
ghost use Rattle.c_types_spec.specs.Values as rule;
ghost use Rattle.c_types_spec.specs.Core as core;
ghost use Rattle.c_run_spec.specs.Accesses as accesses;
ghost use Rattle.c_run_spec.specs.Evaluation as spec;
ghost use Rattle.c_types_core.specs.Expressions.{core_of};
ghost use Rattle.c_types_core.specs.Widths.{IsWithin};
ghost use Rattle.c_run_value.specs.Settings.{setting_of};
ghost use Rattle.c_run_value.specs.Gives.{GivesValue};
ghost use Rattle.c_run_value.specs.Scenes.{Evaluates, chosen_in};

use crate::access::object_value;
use crate::memory::Memory;
use crate::setting::{Setting, Stop, global_address};
use attempt::{Refusal, attempt};
use c_run_spec::Guard;
use c_types_core::constants::{WORD, operator_value, value_in};
use c_types_core::expression::Core;
use c_types_core::values::{TooWide, comparison_value, convert};
use c_types_spec::{Arithmetic, Comparison, Direction, Order, Scalar};

/// What an expression is evaluated in, with a setting that stays for the whole run.
#[derive(Clone, Copy)]
pub struct Scene<'m> {
    /// The values of the locals.
    pub locals: &'m [Option<i128>],
    /// The memory.
    pub memory: &'m Memory,
    /// The address of the object that the assignment around the expression stores to, or 0.
    pub target: u128,
}

/// The address that the value of a pointer is.
#[tactic(auto, using(crate::proofs::Addresses::addresses))]
pub fn address_of(value: i128) -> u128
    ensures address { result ≡ accesses.address_of value }
    ensures below { result ≤ 2 ^ 127 }
{
    if value < 0 { 0 } else { value.unsigned_abs() }
}

/// The address so many bytes past the value of a pointer.
pub fn address_past(value: i128, displacement: usize) -> u128
    ensures { result ≡ accesses.address_of value + displacement }
{
    address_of(value) + displacement as u128
}

/// The address of a global, as a value.
#[tactic(auto, unfolding(crate::specs::Settings::setting_in))]
fn global_value(setting: &Setting<'_, '_>, name: &[u8]) -> i128
    ensures { result ≡ pos (unwrap_or ((setting_of setting.now).globals name.now) 0) }
{
    let place = setting.place;
    global_address(place.globals, name) as i128
}

/// The value of a local.
#[tactic(auto, unfolding(c_run_spec::specs::Evaluation::local_value))]
fn local_value(locals: &[Option<i128>], local: usize, offset: usize) -> Result<i128, Refusal<Stop>>
    ensures { GivesValue result (spec.local_value (slice_get locals.now local) offset) }
{
    match locals.get(local) {
        Some(Some(value)) => Ok(*value),
        Some(None) => Err(Refusal::Fault(Stop::Broke(Guard::UnsetLocal, offset))),
        None => Err(Refusal::Fault(Stop::Broke(Guard::UnsetLocal, offset))),
    }
}

/// A value in another type.
fn converted(of: Scalar, value: i128) -> Result<i128, Refusal<Stop>>
    ensures { GivesValue result (Ok (rule.converted of value)) }
{
    match value_in(of, value) {
        Ok(made) => Ok(made),
        Err(_) => Err(Refusal::NoMemory),
    }
}

/// The guard of an operator.
fn guard_of(operator: Arithmetic) -> Guard
    ensures { result ≡ spec.guard_of operator }
{
    match operator {
        Arithmetic::Divide | Arithmetic::Remainder => Guard::Division,
        Arithmetic::ShiftLeft | Arithmetic::ShiftRight => Guard::ShiftCount,
        Arithmetic::Add | Arithmetic::Subtract | Arithmetic::Multiply => Guard::SignedOverflow,
        Arithmetic::And | Arithmetic::Or | Arithmetic::Xor => Guard::SignedOverflow,
    }
}

/// An operator on two values.
#[tactic(auto, unfolding(c_run_spec::specs::Evaluation::operated))]
fn operated(
    operator: Arithmetic,
    of: Scalar,
    left: i128,
    right: i128,
    offset: usize,
) -> Result<i128, Refusal<Stop>>
    ensures { GivesValue result (spec.operated operator of left right offset) }
{
    match operator_value(operator, of, left, right) {
        Ok(Some(value)) => Ok(value),
        Ok(None) => Err(Refusal::Fault(Stop::Broke(guard_of(operator), offset))),
        Err(_) => Err(Refusal::NoMemory),
    }
}

/// A comparison of two values.
fn compared(operator: Comparison, left: i128, right: i128) -> Result<i128, Refusal<Stop>>
    ensures { GivesValue result (Ok (rule.comparison_value operator left right)) }
{
    Ok(comparison_value(operator, left, right))
}

/// A pointer and a distance added, or subtracted.
fn sum_of(direction: Direction, pointer: i128, distance: i128) -> Result<i128, TooWide>
    ensures { IsWithin (spec.sum_of direction pointer distance)
        (spec.sum_of direction pointer distance) result }
{
    let sum = match direction {
        Direction::Up => pointer.checked_add(distance),
        Direction::Down => pointer.checked_sub(distance),
    };
    match sum {
        Some(sum) => Ok(sum),
        None => Err(TooWide),
    }
}

/// How far so many objects of a size reach.
fn distance_of(index: i128, size: usize) -> Result<i128, TooWide>
    ensures { IsWithin (index *ℤ pos size) (index *ℤ pos size) result }
{
    match index.checked_mul(size as i128) {
        Some(distance) => Ok(distance),
        None => Err(TooWide),
    }
}

/// The value is one of a pointer.
fn is_pointer(value: i128) -> bool
    ensures { result ≡ rule.is_of word value }
{
    convert(value, WORD) == value
}

/// A pointer moved by so many objects of a size.
#[tactic(auto, unfolding(c_run_spec::specs::Evaluation::moved))]
fn moved(
    direction: Direction,
    size: usize,
    pointer: i128,
    index: i128,
    offset: usize,
) -> Result<i128, Refusal<Stop>>
    ensures { GivesValue result (spec.moved direction size pointer index offset) }
{
    let distance = attempt!(distance_of(index, size), Refusal::NoMemory);
    let sum = attempt!(sum_of(direction, pointer, distance), Refusal::NoMemory);
    if is_pointer(sum) {
        Ok(sum)
    } else {
        Err(Refusal::Fault(Stop::Broke(Guard::PointerRange, offset)))
    }
}

/// An index below a bound.
#[tactic(auto, unfolding(c_run_spec::specs::Evaluation::within))]
fn within(bound: usize, index: i128, offset: usize) -> Result<i128, Refusal<Stop>>
    ensures { GivesValue result (spec.within bound index offset) }
{
    if 0 <= index && index < bound as i128 {
        Ok(index)
    } else {
        Err(Refusal::Fault(Stop::Broke(Guard::Index, offset)))
    }
}

/// An address is a multiple of an alignment, which is not 0.
fn is_multiple(address: u128, alignment: usize) -> Result<bool, TooWide>
    ensures { MatchResult result (λ is_multiple. is_multiple ≡ (address % alignment == 0))
        (λ _. alignment ≡ 0) }
{
    if alignment == 0 {
        return Err(TooWide);
    }
    Ok(address % alignment as u128 == 0)
}

/// A pointer at a multiple of an alignment.
#[tactic(auto, unfolding(c_run_spec::specs::Evaluation::aligned))]
fn aligned(alignment: usize, pointer: i128, offset: usize) -> Result<i128, Refusal<Stop>>
    ensures { GivesValue result (spec.aligned alignment pointer offset) }
{
    let address = address_of(pointer);
    let is_multiple = attempt!(is_multiple(address, alignment), Refusal::NoMemory);
    if address != 0 && is_multiple {
        Ok(pointer)
    } else {
        Err(Refusal::Fault(Stop::Broke(Guard::Access, offset)))
    }
}

// ---- what has other expressions in it

/// The object so many bytes past an address.
#[cycle(values)]
#[tactic(auto, unfolding(c_run_spec::specs::Evaluation::value))]
fn load(
    address: &Core<'_>,
    setting: &Setting<'_, '_>,
    scene: &Scene<'_>,
    of: Scalar,
    displacement: usize,
    offset: usize,
) -> Result<i128, Refusal<Stop>>
    ensures { Evaluates setting.now scene.now result (core.Load of (core_of address.now)
        displacement offset) }
{
    let base = attempt!(value(address, setting, scene));
    let place = address_past(base, displacement);
    object_value(setting, scene.memory, of, place, offset)
}

/// An operator on two values.
#[cycle(values)]
#[tactic(auto, unfolding(c_run_spec::specs::Evaluation::value))]
fn operate(
    left: &Core<'_>,
    right: &Core<'_>,
    setting: &Setting<'_, '_>,
    scene: &Scene<'_>,
    operator: Arithmetic,
    of: Scalar,
    offset: usize,
) -> Result<i128, Refusal<Stop>>
    ensures { Evaluates setting.now scene.now result (core.Operate operator of (core_of left.now)
        (core_of right.now) offset) }
{
    let first = attempt!(value(left, setting, scene));
    let second = attempt!(value(right, setting, scene));
    operated(operator, of, first, second, offset)
}

/// A comparison of two values.
#[cycle(values)]
#[tactic(auto, unfolding(c_run_spec::specs::Evaluation::value))]
fn compare(
    left: &Core<'_>,
    right: &Core<'_>,
    setting: &Setting<'_, '_>,
    scene: &Scene<'_>,
    operator: Comparison,
) -> Result<i128, Refusal<Stop>>
    ensures { Evaluates setting.now scene.now result (core.Compare operator (core_of left.now)
        (core_of right.now)) }
{
    let first = attempt!(value(left, setting, scene));
    let second = attempt!(value(right, setting, scene));
    compared(operator, first, second)
}

/// A pointer that is moved by so many objects of a size.
#[cycle(values)]
#[tactic(auto, unfolding(c_run_spec::specs::Evaluation::value))]
fn move_pointer(
    pointer: &Core<'_>,
    index: &Core<'_>,
    setting: &Setting<'_, '_>,
    scene: &Scene<'_>,
    direction: Direction,
    order: Order,
    size: usize,
    offset: usize,
) -> Result<i128, Refusal<Stop>>
    ensures { Evaluates setting.now scene.now result (core.Move direction order size (core_of
        pointer.now) (core_of index.now) offset) }
{
    match order {
        Order::PointerFirst => {
            let address = attempt!(value(pointer, setting, scene));
            let number = attempt!(value(index, setting, scene));
            moved(direction, size, address, number, offset)
        }
        Order::IndexFirst => {
            let number = attempt!(value(index, setting, scene));
            let address = attempt!(value(pointer, setting, scene));
            moved(direction, size, address, number, offset)
        }
    }
}

/// One of two values, by a test.
#[cycle(values)]
#[tactic(auto, unfolding(c_run_spec::specs::Evaluation::value))]
fn choose(
    test: &Core<'_>,
    first: &Core<'_>,
    second: &Core<'_>,
    setting: &Setting<'_, '_>,
    scene: &Scene<'_>,
) -> Result<i128, Refusal<Stop>>
    ensures { GivesValue result (chosen_in setting.now scene.now (core_of test.now) (core_of
        first.now) (core_of second.now)) }
{
    let tested = attempt!(value(test, setting, scene));
    if tested == 0 {
        value(second, setting, scene)
    } else {
        value(first, setting, scene)
    }
}

/// A value in another type.
#[cycle(values)]
#[tactic(auto, unfolding(c_run_spec::specs::Evaluation::value))]
fn convert_value(
    operand: &Core<'_>,
    setting: &Setting<'_, '_>,
    scene: &Scene<'_>,
    of: Scalar,
) -> Result<i128, Refusal<Stop>>
    ensures { Evaluates setting.now scene.now result (core.Convert of (core_of operand.now)) }
{
    let number = attempt!(value(operand, setting, scene));
    converted(of, number)
}

/// An index below a bound.
#[cycle(values)]
#[tactic(auto, unfolding(c_run_spec::specs::Evaluation::value))]
fn bounded(
    index: &Core<'_>,
    setting: &Setting<'_, '_>,
    scene: &Scene<'_>,
    bound: usize,
    offset: usize,
) -> Result<i128, Refusal<Stop>>
    ensures { Evaluates setting.now scene.now result (core.Within bound (core_of index.now)
        offset) }
{
    let number = attempt!(value(index, setting, scene));
    within(bound, number, offset)
}

/// A pointer at a multiple of an alignment.
#[cycle(values)]
#[tactic(auto, unfolding(c_run_spec::specs::Evaluation::value))]
fn at_alignment(
    pointer: &Core<'_>,
    setting: &Setting<'_, '_>,
    scene: &Scene<'_>,
    alignment: usize,
    offset: usize,
) -> Result<i128, Refusal<Stop>>
    ensures { Evaluates setting.now scene.now result (core.Aligned alignment (core_of pointer.now)
        offset) }
{
    let address = attempt!(value(pointer, setting, scene));
    aligned(alignment, address, offset)
}

/// The value of an expression, or the first guard that it breaks.
#[cycle(values)]
#[tactic(auto, using(c_types_core::proofs::Views::views), unfolding(c_run_spec::specs::Evaluation::value))]
pub fn value(
    x: &Core<'_>,
    setting: &Setting<'_, '_>,
    scene: &Scene<'_>,
) -> Result<i128, Refusal<Stop>>
    ensures { Evaluates setting.now scene.now result (core_of x.now) }
{
    match x {
        Core::Constant(_, number) => Ok(*number),
        Core::ReadLocal(_, local, offset) => local_value(scene.locals, *local, *offset),
        Core::GlobalAddress(name) => Ok(global_value(setting, name)),
        Core::Target(of, offset) => {
            object_value(setting, scene.memory, *of, scene.target, *offset)
        }
        Core::Load(of, address, displacement, offset) => {
            load(address, setting, scene, *of, *displacement, *offset)
        }
        Core::Convert(of, operand) => convert_value(operand, setting, scene, *of),
        Core::Operate(operator, of, left, right, offset) => {
            operate(left, right, setting, scene, *operator, *of, *offset)
        }
        Core::Compare(operator, left, right) => compare(left, right, setting, scene, *operator),
        Core::Move(direction, order, size, pointer, index, offset) => move_pointer(
            pointer, index, setting, scene, *direction, *order, *size, *offset,
        ),
        Core::Within(bound, index, offset) => bounded(index, setting, scene, *bound, *offset),
        Core::Aligned(alignment, pointer, offset) => {
            at_alignment(pointer, setting, scene, *alignment, *offset)
        }
        Core::Choose(_, test, first, second) => choose(test, first, second, setting, scene),
    }
}
