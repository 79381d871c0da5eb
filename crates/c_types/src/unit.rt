//! Units: the external declarations in order (6.9).

ghost use Rattle.std.specs.Prelude.{◌≡◌, ◌++◌, ◌∷◌, [], None, Ok, map};
ghost use Rattle.c_syntax.specs.Expressions.{declarator_of};
ghost use Rattle.c_syntax.specs.Units.{external_declaration_of, global_of, unit_of};
ghost use Rattle.c_types_expression.specs.Trees.{unboxed};
ghost use Rattle.c_types_layout.specs.Types.{type_of};
ghost use Rattle.c_types_operator.specs.Gives.{Gives};
ghost use Rattle.c_types_scope.specs.States.{nothing, state_of, Runs};
ghost use Rattle.c_types_spec.specs.Units as rule;
ghost use Rattle.c_types.specs.Reached.{IsReached};
ghost use Rattle.c_types.specs.Typed.{IsChecked, bodies_of, body_in, body_of, typed_of};

use crate::functions::{declared_function, defined_function};
use crate::typed::{Body, Typed};
use attempt::{Refusal, attempt};
use c_syntax::expression::Declarator;
use c_syntax::unit::{ExternalDeclaration, Global as Declared, TranslationUnit};
use c_types_core::fault::TypeFault;
use c_types_declaration::declare::{object, typedef};
use c_types_expression::expression::{declarator, specifiers};
use c_types_layout::types::CType;
use c_types_scope::state::State;
use indexmap::IndexMap;
use std::alloc::Global;

/// An object, or a typedef name.
#[tactic(auto, unfolding(c_types_spec::specs::Units::declared_object), using(c_types_expression::proofs::Parts::parts))]
fn declared_object<'a>(
    alloc: Global,
    given: &Declarator<'a>,
    base: &CType,
    is_typedef: bool,
    state: &mut State<'a>,
) -> Result<(), Refusal<TypeFault>>
    ensures { Runs nothing result state.new (rule.declared_object (declarator_of given.now) (type_of
        base.now) is_typedef (state_of state.old)) }
{
    let of = attempt!(declarator(alloc, given, base, state));
    if is_typedef {
        typedef(given.name, of, state)
    } else {
        object(alloc, given.name, of, state)
    }
}

/// What one declarator declares.
#[tactic(auto, unfolding(c_types_spec::specs::Units::global))]
fn global<'a>(
    alloc: Global,
    given: &Declared<'a>,
    base: &CType,
    is_typedef: bool,
    state: &mut State<'a>,
) -> Result<(), Refusal<TypeFault>>
    ensures { Runs nothing result state.new (rule.global (global_of given.now) (type_of base.now)
        is_typedef (state_of state.old)) }
{
    match given {
        Declared::Object(given) => declared_object(alloc, given, base, is_typedef, state),
        Declared::Function(given) => declared_function(alloc, given, base, state),
    }
}

/// What the declarators of a declaration declare.
#[tactic(auto, unfolding(c_types_spec::specs::Units::globals), using(crate::proofs::Lists::lists))]
fn globals<'a>(
    alloc: Global,
    list: &[Box<Declared<'a>>],
    base: &CType,
    is_typedef: bool,
    state: &mut State<'a>,
) -> Result<(), Refusal<TypeFault>>
    ensures { Runs nothing result state.new
        (rule.globals (map global_of (unboxed list.now)) (type_of
        base.now) is_typedef (state_of state.old)) }
{
    for item in list {
        attempt!(global(alloc, item, base, is_typedef, state));
    }
    Ok(())
}

/// One more body, of another name.
fn push_body<'a>(
    bodies: &mut IndexMap<&'a [u8], Body<'a>>,
    body: Box<Body<'a>>,
) -> Result<(), Refusal<TypeFault>>
    requires { body_in (bodies_of bodies.old.entries) (body_of body.value).name ≡ None }
    ensures { Gives (λ _. bodies_of bodies.new.entries) result (Ok (bodies_of bodies.old.entries
        ++ body_of body.entry.value ∷ [])) }
{
    let body = Box::into_inner(body);
    match bodies.insert(body.name, body) {
        Ok(None) => Ok(()),
        Ok(Some(_)) => unreachable!(),
        Err(_) => Err(Refusal::NoMemory),
    }
}

/// An external declaration, after the bodies so far.
#[tactic(auto, unfolding(c_types_spec::specs::Units::external_declaration), using(c_types_expression::proofs::Parts::parts))]
fn external_declaration<'a>(
    alloc: Global,
    given: &ExternalDeclaration<'a>,
    bodies: &mut IndexMap<&'a [u8], Body<'a>>,
    state: &mut State<'a>,
) -> Result<(), Refusal<TypeFault>>
    requires { IsReached (bodies_of bodies.old.entries) (state_of state.old) }
    ensures { Runs (λ _. bodies_of bodies.new.entries) result state.new (rule.external_declaration
        (external_declaration_of given.now) (bodies_of bodies.old.entries) (state_of state.old)) }
{
    match given {
        ExternalDeclaration::Empty => Ok(()),
        ExternalDeclaration::Declaration(words, list) => {
            let base = attempt!(specifiers(alloc, words, state));
            let is_typedef = words.storage.is_typedef;
            let made = globals(alloc, list.as_slice(), &base, is_typedef, state);
            drop(base);
            made
        }
        ExternalDeclaration::Definition(words, given, list, close) => {
            let base = attempt!(specifiers(alloc, words, state));
            let defined = defined_function(alloc, given, &base, list.as_slice(), *close, state);
            drop(base);
            let made = attempt!(defined);
            push_body(bodies, made)
        }
    }
}

/// External declarations, after the bodies so far.
#[tactic(auto, unfolding(c_types_spec::specs::Units::external_declarations), using(crate::proofs::Lists::lists))]
fn external_declarations<'a>(
    alloc: Global,
    list: &[Box<ExternalDeclaration<'a>>],
    bodies: &mut IndexMap<&'a [u8], Body<'a>>,
    state: &mut State<'a>,
) -> Result<(), Refusal<TypeFault>>
    requires { IsReached (bodies_of bodies.old.entries) (state_of state.old) }
    ensures { Runs (λ _. bodies_of bodies.new.entries) result state.new (rule.external_declarations
        (map external_declaration_of (unboxed list.now)) (bodies_of bodies.old.entries) (state_of
        state.old)) }
{
    for item in list {
        attempt!(external_declaration(alloc, item, bodies, state));
    }
    Ok(())
}

/// What has been read of a unit as its typed core.
#[tactic(auto, unfolding(c_types_scope::specs::States::state_of))]
fn typed<'a>(bodies: IndexMap<&'a [u8], Body<'a>>, state: State<'a>) -> Typed<'a>
    ensures { typed_of result ≡ rule.typed_core (
      bodies_of bodies.entry.entries,
      state_of
          state.entry,
    ) }
{
    let State { names, structs, .. } = state;
    Typed {
        names: names.into_file(),
        structs,
        bodies,
    }
}

/// The typed core of a unit, or its first fault.
#[tactic(auto, unfolding(c_types_spec::specs::Units::typed))]
pub fn check<'a>(alloc: Global, unit: &TranslationUnit<'a>) -> Result<Typed<'a>, Refusal<TypeFault>>
    ensures { IsChecked result (rule.typed (unit_of unit.now)) }
{
    let mut state = State::new(alloc);
    let mut bodies = IndexMap::new(alloc);
    match external_declarations(alloc, unit.items.as_slice(), &mut bodies, &mut state) {
        Ok(()) => Ok(typed(bodies, state)),
        Err(Refusal::NoMemory) => {
            drop(state);
            Err(Refusal::NoMemory)
        }
        Err(Refusal::Fault(TypeFault::At(kind, offset))) => {
            drop(state);
            Err(Refusal::Fault(TypeFault::At(kind, offset)))
        }
    }
}
