//! Assignments (6.5.16), and `++` and `--` (6.5.2.4, 6.5.3.1).

ghost use Rattle.std.specs.Prelude.{◌≡◌, Ok, true};
ghost use Rattle.c_types_spec.specs.Operands as operands;
ghost use Rattle.c_types_spec.specs.Statements as rule;
ghost use Rattle.c_types_spec.specs.Types as types;
ghost use Rattle.c_types_layout.specs.Types.{type_of as ctype_of};
ghost use Rattle.c_types_operator.specs.Gives.{Gives};
ghost use Rattle.c_types_operator.specs.Operands.{core_in, operand_of, valued_of};
ghost use Rattle.c_types_scope.specs.States.{state_of, Runs};
ghost use Rattle.c_types_simple.specs.Contexts.{action_in};

use crate::context::action_or_memory;
use attempt::{Refusal, attempt};
use c_syntax_spec::{BinaryOperator, StepOperator};
use c_types_core::action::Action;
use c_types_core::constants::INT;
use c_types_core::expression::Core;
use c_types_core::fault::TypeFault;
use c_types_declaration::sizes::{is_array, is_void};
use c_types_layout::types::{Base, CType};
use c_types_operator::attempt_or_drop;
use c_types_operator::binary::binary_rule;
use c_types_operator::conversion::assigned;
use c_types_operator::operand::{Category, Operand, Valued, core_or_memory, type_or_memory};
use c_types_operator::value::{read_local, value_of};
use c_types_scope::state::State;
use c_types_spec::{LeftOut, Standing, TypeFaultKind};
use std::alloc::Global;

/// It designates an object that can be assigned to.
#[tactic(auto, unfolding(c_types_operator::specs::Operands::operand_of))]
pub fn is_assignable(x: &Operand<'_>) -> bool
    ensures { result ≡ rule.is_assignable (operand_of x.now) }
{
    match &x.category {
        Category::Value(_) => false,
        Category::InLocal(_) => true,
        Category::InMemory(_, _) => !(is_array(&x.of) || is_void(&x.of)),
    }
}

/// The object gets the value, which has its type.
#[tactic(auto, unfolding(c_types_operator::specs::Operands::operand_of, c_types_spec::specs::Statements::stored))]
fn stored<'a>(
    alloc: Global,
    x: Operand<'a>,
    core: Box<Core<'a>>,
    offset: usize,
) -> Result<Box<Action<'a>>, Refusal<TypeFault>>
    ensures { Gives action_in result
        (rule.stored (operand_of x.entry) (core_in core.entry) offset) }
{
    let Operand {
        category,
        of,
        standing: _,
        offset: _,
    } = x;
    let scalar = of.scalar();
    drop(of);
    match category {
        Category::Value(_) => {
            drop(category);
            Err(Refusal::Fault(TypeFault::At(TypeFaultKind::NotLvalue, offset)))
        }
        Category::InLocal(local) => {
            drop(category);
            action_or_memory(Action::set(alloc, local, core))
        }
        Category::InMemory(address, displacement) => match scalar {
            Some(scalar) => action_or_memory(Action::store(
                alloc,
                scalar,
                address,
                displacement,
                core,
                offset,
            )),
            None => Err(Refusal::Fault(TypeFault::At(TypeFaultKind::Mismatch, offset))),
        },
    }
}

/// A value as one of a type, as if by assignment.
pub fn assigned_value<'a>(
    alloc: Global,
    of: &CType,
    v: Valued<'a>,
    offset: usize,
) -> Result<Box<Core<'a>>, Refusal<TypeFault>>
    ensures { Gives core_in result (operands.or_mismatch (operands.assigned (ctype_of of.now)
        (valued_of v.entry)) offset) }
{
    match attempt!(assigned(alloc, of, v)) {
        Some(core) => Ok(core),
        None => Err(Refusal::Fault(TypeFault::At(TypeFaultKind::Mismatch, offset))),
    }
}

/// A value is assigned to an object.
#[tactic(auto, unfolding(c_types_spec::specs::Statements::assignment, c_types_operator::specs::Operands::operand_of))]
pub fn assignment<'a>(
    alloc: Global,
    x: Operand<'a>,
    v: Valued<'a>,
    offset: usize,
) -> Result<Box<Action<'a>>, Refusal<TypeFault>>
    ensures { Gives action_in result (rule.assignment (operand_of x.entry) (valued_of v.entry)
        offset) }
{
    if !is_assignable(&x) {
        drop(x);
        drop(v);
        return Err(Refusal::Fault(TypeFault::At(TypeFaultKind::NotLvalue, offset)));
    }
    let core = attempt_or_drop!(assigned_value(alloc, &x.of, v, offset); x);
    stored(alloc, x, core, offset)
}

/// The object that is assigned to, as a value.
#[tactic(auto, unfolding(c_types_operator::specs::Operands::valued_of))]
fn target<'a>(alloc: Global, of: CType, offset: usize) -> Result<Valued<'a>, Refusal<TypeFault>>
    ensures { Gives valued_of result
        (rule.target_value (ctype_of of) (types.scalar_of (ctype_of of))
        offset) }
{
    match of.scalar() {
        Some(scalar) => {
            let core = attempt_or_drop!(core_or_memory(Core::target(alloc, scalar, offset)); of);
            Ok(Valued {
                core,
                of,
                standing: Standing::Computed,
                offset,
            })
        }
        None => {
            drop(of);
            Err(Refusal::Fault(TypeFault::At(TypeFaultKind::LeftOut(LeftOut::Struct), offset)))
        }
    }
}

/// The value of an object that is assigned to.
#[tactic(auto, unfolding(c_types_operator::specs::Operands::operand_of, c_types_spec::specs::Statements::current, c_types_spec::specs::Operands::value_of))]
fn current<'a>(alloc: Global, x: &Operand<'a>) -> Result<Valued<'a>, Refusal<TypeFault>>
    requires { rule.is_assignable (operand_of x.now) ≡ true }
    ensures { Gives valued_of result (rule.current (operand_of x.now)) }
{
    let of = attempt!(type_or_memory(x.of.copy(alloc)));
    match &x.category {
        Category::Value(_) => unreachable!(),
        Category::InLocal(local) => read_local(alloc, of, *local, x.offset),
        Category::InMemory(_, _) => target(alloc, of, x.offset),
    }
}

/// `x op= b`
#[tactic(auto, unfolding(c_types_spec::specs::Statements::compound))]
pub fn compound<'a>(
    alloc: Global,
    operator: BinaryOperator,
    x: Operand<'a>,
    b: Valued<'a>,
    offset: usize,
    state: &State<'a>,
) -> Result<Box<Action<'a>>, Refusal<TypeFault>>
    ensures { Runs action_in result state.now
        (rule.compound operator (operand_of x.entry) (valued_of
        b.entry) offset (state_of state.now)) }
{
    let is_object = is_assignable(&x);
    if !is_object {
        drop(x);
        drop(b);
        return Err(Refusal::Fault(TypeFault::At(TypeFaultKind::NotLvalue, offset)));
    }
    let a = attempt_or_drop!(current(alloc, &x); x, b);
    let made = attempt_or_drop!(binary_rule(alloc, operator, state.structs(), a, b, offset); x);
    let v = attempt_or_drop!(value_of(alloc, made); x);
    assignment(alloc, x, v, offset)
}

/// The operator of `+= 1` or `-= 1`.
pub fn step_operator(operator: StepOperator) -> BinaryOperator
    ensures { result ≡ rule.step_operator operator }
{
    match operator {
        StepOperator::Increment => BinaryOperator::Add,
        StepOperator::Decrement => BinaryOperator::Subtract,
    }
}

/// The 1 that is added or taken away.
#[tactic(auto, unfolding(c_types_operator::specs::Operands::valued_of, c_types_layout::specs::Types::type_of))]
pub fn one<'a>(alloc: Global, offset: usize) -> Result<Valued<'a>, Refusal<TypeFault>>
    ensures { Gives valued_of result (Ok (rule.one offset)) }
{
    let core = attempt!(core_or_memory(Core::constant(alloc, INT, 1)));
    Ok(Valued {
        core,
        of: CType::plain(alloc, Base::Integer(INT)),
        standing: Standing::Computed,
        offset,
    })
}
