//! The variables that symbols spell, where these are in scope.

ghost use Rattle.std.specs.Prelude.{◌≡◌, ◌-◌, ◌&&◌, ◌||◌, map, nat_le, nat_lt, slice_get};
ghost use Rattle.std.specs.Option.{option_map};
ghost use Rattle.proof_tree.specs.Scope.{body_of, setting_of};
ghost use Rattle.cert_check_spec.specs.Terms as terms;
ghost use Rattle.cert_check_terms.specs.Variables as spec;

use cert_text_spec::Symbol;
use proof_tree::{Body, Setting};
use term_core_spec::{Family, Sort, Variable, Width};

/// How many machine registers there are.
const REGISTERS: usize = 32;

/// The register of the first argument word.
const FIRST_ARGUMENT: usize = 10;

// A variable of a sort.
fn variable(family: Family, index: usize, instance: usize, sort: Sort) -> Variable
    ensures { result ≡ terms.variable family index instance sort }
{
    Variable {
        family,
        index,
        instance,
        sort,
    }
}

// Whether there is a register of this number, which isn't always 0.
fn is_register(number: usize) -> bool
    ensures { result ≡ (nat_le 1 number && nat_lt number 32) }
{
    1 <= number && number < REGISTERS
}

// Whether no argument word is in the register.
fn is_free(argument_words: usize, number: usize) -> bool
    ensures { result ≡ (nat_lt number 10 || nat_le argument_words (number - 10)) }
{
    number < FIRST_ARGUMENT || argument_words <= number - FIRST_ARGUMENT
}

fn register(number: usize) -> Option<Variable>
    ensures { result ≡ spec.register_at number }
{
    if is_register(number) {
        Some(variable(Family::Register, number, 0, Sort::Word(Width::W32)))
    } else {
        None
    }
}

fn entry(argument_words: usize, number: usize) -> Option<Variable>
    ensures { result ≡ spec.entry_at argument_words number }
{
    if is_register(number) && is_free(argument_words, number) {
        Some(variable(Family::Entry, number, 0, Sort::Word(Width::W32)))
    } else {
        None
    }
}

// The sort of a number.
fn sort_at(sorts: &[Sort], number: usize) -> Option<Sort>
    ensures { result ≡ slice_get sorts.now number }
{
    sorts.get(number).copied()
}

fn parameter(parameters: &[Sort], number: usize) -> Option<Variable>
    ensures { result ≡ spec.parameter_at parameters.now number }
{
    match sort_at(parameters, number) {
        Some(sort) => Some(variable(Family::Parameter, number, 0, sort)),
        None => None,
    }
}

// The memory of a family.
fn memory(family: Family) -> Option<Variable>
    ensures { result ≡ Some (terms.memory family) }
{
    Some(variable(family, 0, 0, Sort::Memory))
}

/// The variable of one symbol.
pub(crate) fn own_variable(setting: &Setting, symbol: Symbol) -> Option<Variable>
    ensures { result ≡ spec.own_variable (setting_of setting.now) symbol }
{
    match symbol {
        Symbol::Register(number) => register(number as usize),
        Symbol::Entry(number) => entry(setting.argument_words, number as usize),
        Symbol::Parameter(number) => parameter(setting.parameters.as_slice(), number as usize),
        Symbol::SourceMemory => memory(Family::SourceMemory),
        Symbol::ZoneMemory => memory(Family::ZoneMemory),
        Symbol::BinaryMemory => memory(Family::BinaryMemory),
        _ => None,
    }
}

// The body that these calls lead to.
fn body_with<'a>(calls: &[u32], bodies: &'a [Body]) -> Option<&'a Body>
    ensures { option_map (λ b. body_of b.now) result ≡ spec.body_with calls.now (map body_of
        bodies.now) }
{
    for body in bodies {
        if body.path.as_slice() == calls {
            return Some(body);
        }
    }
    None
}

// The same, where the path leads through it.
fn body_on<'a>(path: &[u32], calls: &[u32], bodies: &'a [Body]) -> Option<&'a Body>
    ensures { option_map (λ b. body_of b.now) result ≡ spec.body_on path.now calls.now (map body_of
        bodies.now) }
{
    if path.starts_with(calls) {
        body_with(calls, bodies)
    } else {
        None
    }
}

// A local of a body.
fn local_of(number: usize, body: &Body) -> Option<Variable>
    ensures { result ≡ spec.local_of number (body_of body.now) }
{
    match sort_at(body.locals.as_slice(), number) {
        Some(sort) => Some(variable(Family::Local, number, body.instance, sort)),
        None => None,
    }
}

// Whether a local of a body is set.
fn is_set_of(number: usize, body: &Body) -> Option<Variable>
    ensures { result ≡ spec.is_set_of number (body_of body.now) }
{
    if number < body.locals.len() {
        Some(variable(Family::IsSet, number, body.instance, Sort::Truth))
    } else {
        None
    }
}

/// The local of a number, after the numbers of the calls that lead to its body.
pub(crate) fn local(
    setting: &Setting,
    path: &[u32],
    calls: &[u32],
    number: usize,
) -> Option<Variable>
    ensures { result ≡ spec.local_at (setting_of setting.now) path.now calls.now number }
{
    match body_on(path, calls, setting.bodies.as_slice()) {
        Some(body) => local_of(number, body),
        None => None,
    }
}

/// Whether that local is set.
pub(crate) fn is_set(
    setting: &Setting,
    path: &[u32],
    calls: &[u32],
    number: usize,
) -> Option<Variable>
    ensures { result ≡ spec.is_set_at (setting_of setting.now) path.now calls.now number }
{
    match body_on(path, calls, setting.bodies.as_slice()) {
        Some(body) => is_set_of(number, body),
        None => None,
    }
}
