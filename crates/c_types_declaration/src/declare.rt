//! Declared names (6.7): what is asked of them, and what they mean.

ghost use Rattle.std.specs.Prelude.{◌≡◌, Ok, map, nat_lt, option_map};
ghost use Rattle.c_token_spec.specs.Words.{entry_of};
ghost use Rattle.c_syntax.specs.Names.{name_of};
ghost use Rattle.c_types_spec.specs.Declarations as rule;
ghost use Rattle.c_types_spec.specs.Names as names;
ghost use Rattle.c_types_spec.specs.Types as types;
ghost use Rattle.c_types_layout.specs.Types.{type_of};
ghost use Rattle.c_types_operator.specs.Gives.{Gives};
ghost use Rattle.c_types_scope.specs.Meanings.{signature_of};
ghost use Rattle.c_types_scope.specs.States.{state_of, nothing, Runs};
ghost use Rattle.c_types_declaration.specs.Objects as specs;

use crate::faults::first_fault;
use crate::sizes::{
    adjusted, is_array, is_incomplete, is_struct, is_void, lacks_element, too_large,
};
use crate::tags::is_declared;
use attempt::{Refusal, attempt};
use c_syntax::expression::Name;
use c_types_core::fault::TypeFault;
use c_types_layout::types::{CType, Outer, same_type};
use c_types_operator::attempt_or_drop;
use c_types_operator::operand::{part_or_memory, type_or_memory};
use c_types_scope::meaning::{Meaning, Signature};
use c_types_scope::state::State;
use c_types_spec::{ARGUMENT_WORDS, LeftOut, POINTER_WIDTH, TypeFaultKind};
use std::alloc::Global;

// ---- locals and parameters

/// A local or a parameter of a type, in scope by its name, and its number.
#[tactic(auto, unfolding(c_types_spec::specs::Declarations::local))]
fn local_declared<'a>(
    alloc: Global,
    name: Option<Name<'a>>,
    of: &CType,
    state: &mut State<'a>,
) -> Result<usize, Refusal<TypeFault>>
    ensures { Runs (λ n. n) result state.new (rule.local_declared (option_map name_of name.entry)
        (type_of of.now) (state_of state.old)) }
{
    let copy = attempt!(type_or_memory(of.copy(alloc)));
    let number = attempt!(state.new_local(copy));
    if let Some(name) = name {
        let again = attempt!(type_or_memory(of.copy(alloc)));
        attempt!(state.declare(name.spelling, Meaning::Local(number, again)));
    }
    Ok(number)
}

/// What is refused of a local.
fn local_faults(
    name: Name<'_>,
    of: &CType,
    is_static: bool,
    state: &State<'_>,
) -> Result<(), Refusal<TypeFault>>
    ensures { Gives nothing result (names.faults_at name.entry.offset (rule.local_faults (name_of
        name.entry) (type_of of.now) is_static (state_of state.now))) }
{
    let is_large = attempt!(too_large(state.structs(), of));
    first_fault(
        &[
            (is_declared(state, name), TypeFaultKind::Twice),
            (is_large, TypeFaultKind::Mismatch),
            (
                is_incomplete(state.structs(), of),
                TypeFaultKind::Incomplete,
            ),
            (of.is_wide(), TypeFaultKind::LeftOut(LeftOut::Word64)),
            (is_struct(of), TypeFaultKind::LeftOut(LeftOut::Struct)),
            (is_array(of), TypeFaultKind::LeftOut(LeftOut::Array)),
            (is_static, TypeFaultKind::LeftOut(LeftOut::StaticLocal)),
        ],
        name.offset,
    )
}

/// A local, and its number.
#[tactic(auto, unfolding(c_types_spec::specs::Declarations::local))]
pub fn local<'a>(
    alloc: Global,
    name: Name<'a>,
    of: &CType,
    is_static: bool,
    state: &mut State<'a>,
) -> Result<usize, Refusal<TypeFault>>
    ensures { Runs (λ n. n) result state.new (rule.local (name_of name.entry) (type_of of.now)
        is_static (state_of state.old)) }
{
    attempt!(local_faults(name, of, is_static, state));
    local_declared(alloc, Some(name), of, state)
}

/// The name of a parameter is declared already.
fn is_declared_parameter(state: &State<'_>, name: Option<Name<'_>>) -> bool
    ensures { result ≡ rule.is_declared_parameter (state_of state.now) (option_map name_of
        name.entry) }
{
    match name {
        Some(name) => is_declared(state, name),
        None => false,
    }
}

/// The offset of a name, or of the specifiers where there is none.
fn name_offset(name: Option<Name<'_>>, offset: usize) -> usize
    ensures { result ≡ rule.name_offset (option_map name_of name.entry) offset }
{
    match name {
        Some(name) => name.offset,
        None => offset,
    }
}

/// What is refused of a parameter, before its type is adjusted.
fn parameter_faults(
    name: Option<Name<'_>>,
    of: &CType,
    has_body: bool,
    offset: usize,
    state: &State<'_>,
) -> Result<(), Refusal<TypeFault>>
    ensures { Gives nothing result (names.faults_at (rule.name_offset (option_map name_of
        name.entry) offset) (rule.parameter_faults (option_map name_of name.entry) (type_of of.now)
        has_body (state_of state.now))) }
{
    let is_large = attempt!(too_large(state.structs(), of));
    let lacks = attempt!(lacks_element(state.structs(), of));
    first_fault(
        &[
            (is_declared_parameter(state, name), TypeFaultKind::Twice),
            (
                is_large || (has_body && name.is_none()),
                TypeFaultKind::Mismatch,
            ),
            (lacks || is_void(of), TypeFaultKind::Incomplete),
            (of.is_wide(), TypeFaultKind::LeftOut(LeftOut::Word64)),
            (is_struct(of), TypeFaultKind::LeftOut(LeftOut::Struct)),
        ],
        name_offset(name, offset),
    )
}

/// A parameter, and its type.
#[tactic(auto, unfolding(c_types_spec::specs::Declarations::parameter))]
pub fn parameter<'a>(
    alloc: Global,
    name: Option<Name<'a>>,
    of: CType,
    has_body: bool,
    offset: usize,
    state: &mut State<'a>,
) -> Result<CType, Refusal<TypeFault>>
    ensures { Runs type_of result state.new (rule.parameter (option_map name_of name.entry) (type_of
        of) has_body offset (state_of state.old)) }
{
    attempt_or_drop!(parameter_faults(name, &of, has_body, offset, state); of);
    let of = attempt!(adjusted(of));
    attempt_or_drop!(local_declared(alloc, name, &of, state); of);
    Ok(of)
}

// ---- the file scope

/// A typedef name or an enumeration constant, which is declared once.
fn is_once(meaning: Option<Option<&Meaning>>) -> bool
    ensures { result ≡ rule.is_once (specs.seen_in meaning.entry) }
{
    match meaning {
        Some(Some(Meaning::Typedef(_))) => true,
        Some(Some(Meaning::Enumerator(_))) => true,
        _ => false,
    }
}

/// What is refused of a typedef name.
fn typedef_faults(name: Name<'_>, of: &CType, state: &State<'_>) -> Result<(), Refusal<TypeFault>>
    ensures { Gives nothing result (names.faults_at name.entry.offset (rule.typedef_faults (name_of
        name.entry) (type_of of.now) (state_of state.now))) }
{
    let is_there = state.meaning_in_file(name.spelling).is_some();
    let is_large = attempt!(too_large(state.structs(), of));
    let lacks = attempt!(lacks_element(state.structs(), of));
    first_fault(
        &[
            (is_there, TypeFaultKind::Twice),
            (is_large, TypeFaultKind::Mismatch),
            (lacks, TypeFaultKind::Incomplete),
        ],
        name.offset,
    )
}

/// A typedef name.
#[tactic(auto, unfolding(c_types_spec::specs::Declarations::typedef))]
pub fn typedef<'a>(
    name: Name<'a>,
    of: CType,
    state: &mut State<'a>,
) -> Result<(), Refusal<TypeFault>>
    ensures { Runs nothing result state.new (rule.typedef (name_of name.entry) (type_of of)
        (state_of state.old)) }
{
    attempt_or_drop!(typedef_faults(name, &of, state); of);
    state.declare_in_file(name.spelling, Meaning::Typedef(of))
}

/// An array of a length, where the elements of two arrays are of one type.
fn with_length(
    old: &CType,
    of: &CType,
    length: Option<u64>,
) -> Result<Option<CType>, Refusal<TypeFault>>
    ensures { Gives (λ t. option_map type_of t) result (Ok (specs.with_length length (type_of
        old.now) (type_of of.now))) }
{
    let old = attempt!(part_or_memory(old.element()));
    let of = attempt_or_drop!(part_or_memory(of.element()); old);
    match (old, of) {
        (Some(a), Some(b)) => {
            let is_same = same_type(&a, &b);
            drop(b);
            if is_same {
                Ok(Some(attempt!(type_or_memory(a.array(length)))))
            } else {
                drop(a);
                Ok(None)
            }
        }
        _ => Ok(None),
    }
}

/// The type of an object after one more declaration, or none where the types differ.
#[tactic(auto, using(crate::proofs::Outers::by_outer))]
fn composite(alloc: Global, old: &CType, of: &CType) -> Result<Option<CType>, Refusal<TypeFault>>
    ensures { Gives (λ t. option_map type_of t) result
        (Ok (rule.composite (type_of old.now) (type_of
        of.now))) }
{
    match (old.outer(), of.outer()) {
        (Outer::Array(None), Outer::Array(length)) => with_length(old, of, length),
        (Outer::Array(Some(length)), Outer::Array(None)) => { with_length(old, of, Some(length)) }
        _ => {
            if same_type(old, of) {
                Ok(Some(attempt!(type_or_memory(old.copy(alloc)))))
            } else {
                Ok(None)
            }
        }
    }
}

/// The type of an object of the file scope after one more declaration, or none.
fn object_type(
    alloc: Global,
    meaning: Option<Option<&Meaning>>,
    of: &CType,
) -> Result<Option<CType>, Refusal<TypeFault>>
    ensures { Gives (λ t. option_map type_of t) result (Ok (rule.object_type (specs.seen_in
        meaning.entry) (type_of of.now))) }
{
    match meaning {
        None => Ok(Some(attempt!(type_or_memory(of.copy(alloc))))),
        Some(Some(Meaning::Object(old))) => composite(alloc, old, of),
        _ => Ok(None),
    }
}

/// What is refused of an object, which has a type after this declaration or none.
fn object_faults(
    name: Name<'_>,
    of: &CType,
    differs: bool,
    state: &State<'_>,
) -> Result<(), Refusal<TypeFault>>
    ensures { Gives nothing result (names.faults_at name.entry.offset (specs.object_faults (name_of
        name.entry) (type_of of.now) differs (state_of state.now))) }
{
    let once = is_once(state.meaning_in_file(name.spelling));
    let is_large = attempt!(too_large(state.structs(), of));
    let lacks = attempt!(lacks_element(state.structs(), of));
    first_fault(
        &[
            (once, TypeFaultKind::Twice),
            (is_large || differs, TypeFaultKind::Mismatch),
            (lacks || is_void(of), TypeFaultKind::Incomplete),
            (of.is_wide(), TypeFaultKind::LeftOut(LeftOut::Word64)),
        ],
        name.offset,
    )
}

/// An object of the file scope.
#[tactic(auto, unfolding(c_types_spec::specs::Declarations::object))]
pub fn object<'a>(
    alloc: Global,
    name: Name<'a>,
    of: CType,
    state: &mut State<'a>,
) -> Result<(), Refusal<TypeFault>>
    ensures { Runs nothing result state.new (rule.object (name_of name.entry) (type_of of)
        (state_of state.old)) }
{
    let meaning = state.meaning_in_file(name.spelling);
    let made = attempt_or_drop!(object_type(alloc, meaning, &of); of);
    attempt_or_drop!(object_faults(name, &of, made.is_none(), state); made, of);
    let of = made.unwrap_or(of);
    state.declare_in_file(name.spelling, Meaning::Object(of))
}

// ---- functions

/// As many types, each equal to the other's.
#[tactic(auto, using(crate::proofs::Signatures::one_more))]
fn same_types(a: &[CType], b: &[CType]) -> bool
    ensures { result ≡ rule.same_types (map type_of a.now) (map type_of b.now) }
{
    if a.len() != b.len() {
        return false;
    }
    for i in 0..a.len() {
        if !same_type(&a[i], &b[i]) {
            return false;
        }
    }
    true
}

/// The signatures are equal.
fn same_signature(a: &Signature, b: &Signature) -> bool
    ensures { result ≡ rule.same_signature (signature_of a.now) (signature_of b.now) }
{
    same_types(a.parameters.as_slice(), b.parameters.as_slice())
        && same_type(&a.returned, &b.returned)
}

/// A declaration of a function before this one has another type, or is of no function.
fn differs(meaning: Option<Option<&Meaning>>, signature: &Signature) -> bool
    ensures { result ≡ rule.differs (specs.seen_in meaning.entry) (signature_of signature.now) }
{
    match meaning {
        None => false,
        Some(Some(Meaning::Function(old, _))) => !same_signature(old, signature),
        _ => true,
    }
}

/// The function has had its body.
fn had_body(meaning: Option<Option<&Meaning>>) -> bool
    ensures { result ≡ rule.had_body (specs.seen_in meaning.entry) }
{
    match meaning {
        Some(Some(Meaning::Function(_, has_body))) => *has_body,
        _ => false,
    }
}

/// How many words an argument of a type has.
fn words(of: &CType) -> usize
    ensures { result ≡ specs.words (type_of of.now) }
{
    match of.scalar() {
        Some(scalar) => ((scalar.width as u64 + (POINTER_WIDTH as u64 - 1))
            / POINTER_WIDTH as u64) as usize,
        None => 0,
    }
}

/// Arguments of these types have more words than a call passes.
#[tactic(auto, using(crate::proofs::Signatures::more_words))]
fn has_too_many_words(types: &[CType]) -> bool
    ensures { result ≡ nat_lt ARGUMENT_WORDS (rule.words_of (map type_of types.now)) }
{
    let mut left = ARGUMENT_WORDS;
    for of in types {
        match left.checked_sub(words(of)) {
            Some(less) => left = less,
            None => return true,
        }
    }
    false
}

/// What is refused of a function.
fn function_faults(
    name: Name<'_>,
    signature: &Signature,
    has_body: bool,
    state: &State<'_>,
) -> Result<(), Refusal<TypeFault>>
    ensures { Gives nothing result (names.faults_at name.entry.offset (rule.function_faults (name_of
        name.entry) (signature_of signature.now) has_body (state_of state.now))) }
{
    let meaning = state.meaning_in_file(name.spelling);
    let again = is_once(meaning) || (has_body && had_body(meaning));
    let other = differs(meaning, signature) || is_array(&signature.returned);
    let is_long = has_too_many_words(signature.parameters.as_slice());
    first_fault(
        &[
            (again, TypeFaultKind::Twice),
            (other, TypeFaultKind::Mismatch),
            (is_long, TypeFaultKind::TooManyWords),
            (
                signature.returned.is_wide(),
                TypeFaultKind::LeftOut(LeftOut::Word64),
            ),
            (
                is_struct(&signature.returned),
                TypeFaultKind::LeftOut(LeftOut::Struct),
            ),
        ],
        name.offset,
    )
}

/// A function.
#[tactic(auto, unfolding(c_types_spec::specs::Declarations::function))]
pub fn function<'a>(
    name: Name<'a>,
    signature: Box<Signature>,
    has_body: bool,
    state: &mut State<'a>,
) -> Result<(), Refusal<TypeFault>>
    ensures { Runs nothing result state.new (rule.function (name_of name.entry) (signature_of
        signature.value) has_body (state_of state.old)) }
{
    attempt!(function_faults(name, &signature, has_body, state));
    let had = had_body(state.meaning_in_file(name.spelling));
    state.declare_in_file(name.spelling, Meaning::Function(signature, has_body || had))
}
