//! Declarations of locals (6.7).

ghost use Rattle.std.specs.Prelude.{◌≡◌, Some, map};
ghost use Rattle.std.specs.Option.{option_map};
ghost use Rattle.c_syntax.specs.Locals.{local_of, locals_of};
ghost use Rattle.c_syntax.specs.Simples.{value_of as tree_value_of};
ghost use Rattle.c_types_expression.specs.Trees.{unboxed};
ghost use Rattle.c_types_spec.specs.Statements as rule;
ghost use Rattle.c_types_core.specs.Actions.{actions_in};
ghost use Rattle.c_types_layout.specs.Types.{type_of};
ghost use Rattle.c_types_scope.specs.States.{state_of, Runs};
ghost use Rattle.c_types_simple.specs.Contexts.{action_in};

use crate::assignment::assigned_value;
use crate::calls::{call, call_into, push_action};
use crate::context::action_or_memory;
use attempt::{Refusal, attempt};
use c_syntax::simple::Value;
use c_syntax::statement::{Local, Locals};
use c_types_core::action::Action;
use c_types_core::fault::TypeFault;
use c_types_declaration::declare::local;
use c_types_expression::expression::{declarator, specifiers, value};
use c_types_layout::types::CType;
use c_types_operator::attempt_or_drop;
use c_types_operator::conversion::converts;
use c_types_scope::state::State;
use c_types_spec::TypeFaultKind;
use std::alloc::Global;

/// The initial value of a local, or none.
#[tactic(auto, unfolding(c_types_spec::specs::Statements::initial))]
fn initial<'a>(
    alloc: Global,
    given: &Option<Box<Value<'a>>>,
    of: &CType,
    local: usize,
    offset: usize,
    state: &mut State<'a>,
) -> Result<Box<Action<'a>>, Refusal<TypeFault>>
    ensures { Runs action_in result state.new (rule.initial (option_map (λ v. tree_value_of v.value)
        given.now) (type_of of.now) local offset (state_of state.old)) }
{
    match given {
        None => action_or_memory(Action::unset(alloc, local)),
        Some(given) => begins(alloc, given, of, local, offset, state),
    }
}

/// A local with an initial value.
#[tactic(auto, unfolding(c_types_spec::specs::Statements::initial, crate::specs::Contexts::made_of))]
fn begins<'a>(
    alloc: Global,
    given: &Value<'a>,
    of: &CType,
    local: usize,
    offset: usize,
    state: &mut State<'a>,
) -> Result<Box<Action<'a>>, Refusal<TypeFault>>
    ensures { Runs action_in result state.new
        (rule.initial (Some (tree_value_of given.now)) (type_of
        of.now) local offset (state_of state.old)) }
{
    match given {
        Value::Computed(source) => {
            let v = attempt!(value(alloc, source, state));
            let core = attempt!(assigned_value(alloc, of, v, offset));
            action_or_memory(Action::set(alloc, local, core))
        }
        Value::Called(source) => {
            let made = attempt!(call(alloc, source, state));
            if !converts(of, &made.of) {
                return Err(Refusal::Fault(TypeFault::At(TypeFaultKind::Mismatch, offset)));
            }
            call_into(alloc, made, Some(local))
        }
    }
}

/// A local, which is in scope before its initial value.
#[tactic(auto, unfolding(c_types_spec::specs::Statements::declared_local), using(c_types_expression::proofs::Parts::parts))]
fn declared_local<'a>(
    alloc: Global,
    declared: &Local<'a>,
    base: &CType,
    is_static: bool,
    state: &mut State<'a>,
) -> Result<Box<Action<'a>>, Refusal<TypeFault>>
    ensures { Runs action_in result state.new (rule.declared_local (local_of declared.now) (type_of
        base.now) is_static (state_of state.old)) }
{
    let name = declared.declarator.name;
    let of = attempt!(declarator(alloc, &declared.declarator, base, state));
    let number = attempt_or_drop!(local(alloc, name, &of, is_static, state); of);
    let made = initial(alloc, &declared.value, &of, number, name.offset, state);
    drop(of);
    made
}

/// The locals of a declaration, after what is done so far.
#[tactic(auto, unfolding(c_types_spec::specs::Statements::declared_locals), using(crate::proofs::Lists::lists))]
fn declared_locals<'a>(
    alloc: Global,
    list: &[Box<Local<'a>>],
    base: &CType,
    is_static: bool,
    done: &mut Vec<Action<'a>>,
    state: &mut State<'a>,
) -> Result<(), Refusal<TypeFault>>
    ensures { Runs (λ _. actions_in done.new) result state.new (rule.declared_locals (map local_of
        (unboxed list.now)) (type_of base.now) is_static (actions_in done.old) (state_of
        state.old)) }
{
    for item in list {
        let action = attempt!(declared_local(alloc, item, base, is_static, state));
        attempt!(push_action(done, action));
    }
    Ok(())
}

/// A declaration of locals, after what is done so far.
#[tactic(auto, unfolding(c_types_spec::specs::Statements::declaration), using(c_types_expression::proofs::Parts::parts))]
pub fn declaration<'a>(
    alloc: Global,
    locals: &Locals<'a>,
    done: &mut Vec<Action<'a>>,
    state: &mut State<'a>,
) -> Result<(), Refusal<TypeFault>>
    ensures { Runs (λ _. actions_in done.new) result state.new (rule.declaration (locals_of
        locals.now) (actions_in done.old) (state_of state.old)) }
{
    let base = attempt!(specifiers(alloc, &locals.specifiers, state));
    let made = declared_locals(
        alloc,
        locals.locals.as_slice(),
        &base,
        locals.specifiers.storage.is_static,
        done,
        state,
    );
    drop(base);
    made
}
