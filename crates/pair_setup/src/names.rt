//! The names of listed functions: bodies, symbols and globals.

ghost use Rattle.std.specs.Prelude.{◌≡◌, ◌↔◌, ℕ, [], drop, length, ◌≤◌, min, unwrap_or};
ghost use Rattle.std.specs.Prelude.{get_or, Contains, false, true, IfErr, IfOk, IsTrue, OnOk, Some};
ghost use Rattle.std.specs.Prelude.{MatchOption};
ghost use Rattle.elf_read_spec.specs.Image.{function_named};
ghost use Rattle.elf_read_spec.specs.declared.SymbolValues.TheVariants.{Absent};
ghost use Rattle.c_types_spec.specs.HasType.{IsTypedUnit};
ghost use Rattle.c_types.specs.Typed.{typed_of};
ghost use Rattle.pair_setup_calls.specs.Names.{IsNumber, names_of, texts_of};
ghost use Rattle.pair_setup_calls.specs.Graph.{Grows, graph_of};
ghost use Rattle.pair_setup.specs.Surveys.{IsSurvey};
ghost use Rattle.pair_setup.specs.Names.{AreFine, ArePassed, IsDeclaredAt, IsLacking, IsLeast};
ghost use Rattle.pair_setup.specs.Names.{IsMarked, IsNameError, IsOf, IsPassed, IsUsedMarked};
ghost use Rattle.pair_setup.specs.Names.{LacksBodyAt, NamesMarked, NoFunction, refusal_of};
ghost use Rattle.pair_setup.specs.Answers.{IsFirstNameError};

use crate::outcome::{Named, PairFault};
use crate::survey::Survey;
use attempt::{Refusal, attempt};
use c_types::typed::Typed;
use elf_read::{Image, SymbolValues};
use indexmap::IndexSet;
use pair_setup_calls::{body_at, extend, number};
use pair_setup_spec::PairKind;
use std::alloc::{AllocError, Global};

/// The number of a function that is declared.
pub(crate) fn function_number(unit: &Typed<'_>, name: &[u8]) -> Option<usize>
    ensures { MatchOption result (NoFunction (typed_of unit.now) name.now)
        (IsDeclaredAt (typed_of unit.now) (names_of unit.now) name.now) }
{
    match unit.function(name) {
        Some(_) => number(unit, name),
        None => None,
    }
}

/// The lesser of a number and one before it.
fn lesser(first: Option<usize>, number: usize) -> usize
    ensures { result ≡ min (unwrap_or first number) number }
{
    match first {
        Some(first) => first.min(number),
        None => number,
    }
}

/// The least of some numbers.
fn first_of(numbers: &[usize]) -> Option<usize>
    ensures { IsLeast (Contains numbers.now) result }
{
    let mut first = None;
    for number in numbers {
        first = Some(lesser(first, *number));
    }
    first
}

/// Adds a number.
fn add(found: &mut Vec<usize>, number: usize) -> Result<(), AllocError>
    ensures { OnOk result (Grows (λ t. t ≡ number) found.old.items found.new.items) }
{
    found.push(number)?;
    Ok(())
}

/// Adds a number, if it is of a name without a body.
fn add_lacking(found: &mut Vec<usize>, unit: &Typed<'_>, number: usize) -> Result<(), AllocError>
    ensures { OnOk result (Grows (λ t. (t ≡ number)
        × LacksBodyAt (typed_of unit.now) (names_of unit.now) t) found.old.items found.new.items) }
{
    match body_at(unit, number) {
        Some(_) => Ok(()),
        None => add(found, number),
    }
}

/// Adds those of some numbers that are of names without a body.
fn add_all_lacking(
    found: &mut Vec<usize>,
    unit: &Typed<'_>,
    numbers: &[usize],
) -> Result<(), AllocError>
    ensures { OnOk result (Grows (IsLacking (typed_of unit.now) (names_of unit.now) numbers.now)
        found.old.items found.new.items) }
{
    for number in numbers {
        attempt!(add_lacking(found, unit, *number));
    }
    Ok(())
}

/// The least of some numbers that are of names without a body.
fn first_lacking(
    alloc: Global,
    unit: &Typed<'_>,
    numbers: &[usize],
) -> Result<Option<usize>, AllocError>
    ensures { IfOk result (IsLeast (IsLacking (typed_of unit.now) (names_of unit.now)
        numbers.now)) }
{
    let mut found = Vec::new(alloc);
    attempt!(add_all_lacking(&mut found, unit, numbers));
    Ok(first_of(found.as_slice()))
}

/// Whether a number is marked.
fn is_marked(marks: &[bool], number: usize) -> bool
    ensures { result ≡ get_or marks.now number false }
{
    if number < marks.len() {
        marks[number]
    } else {
        false
    }
}

/// Adds a number, if it is marked.
fn add_marked(found: &mut Vec<usize>, marks: &[bool], number: usize) -> Result<(), AllocError>
    ensures { OnOk result (Grows (λ t. (t ≡ number) × IsMarked marks.now t) found.old.items
        found.new.items) }
{
    if is_marked(marks, number) {
        add(found, number)
    } else {
        Ok(())
    }
}

/// Adds the number of a name, if it is marked.
fn add_of_name(
    found: &mut Vec<usize>,
    unit: &Typed<'_>,
    marks: &[bool],
    name: &[u8],
) -> Result<(), AllocError>
    ensures { OnOk result (Grows (λ t. IsNumber (names_of unit.now) t name.now
        × IsMarked marks.now t) found.old.items found.new.items) }
{
    match number(unit, name) {
        Some(number) => add_marked(found, marks, number),
        None => Ok(()),
    }
}

/// Adds the numbers of names that are marked.
fn add_of_names(
    found: &mut Vec<usize>,
    unit: &Typed<'_>,
    marks: &[bool],
    names: &[&[u8]],
) -> Result<(), AllocError>
    ensures { OnOk result (Grows (IsOf (λ name t. IsNumber (names_of unit.now) t name
        × IsMarked marks.now t) (texts_of names.now)) found.old.items found.new.items) }
{
    for name in names {
        attempt!(add_of_name(found, unit, marks, name));
    }
    Ok(())
}

/// Adds the numbers of the globals that the body of a number names and that are marked.
fn add_of_body(
    found: &mut Vec<usize>,
    unit: &Typed<'_>,
    marks: &[bool],
    number: usize,
) -> Result<(), AllocError>
    ensures { OnOk result (Grows (NamesMarked (typed_of unit.now) (names_of unit.now) marks.now
        number) found.old.items found.new.items) }
{
    match body_at(unit, number) {
        Some(body) => add_of_names(found, unit, marks, body.mentions.as_slice()),
        None => Ok(()),
    }
}

/// Adds those that the bodies of some numbers name.
fn add_of_bodies(
    found: &mut Vec<usize>,
    unit: &Typed<'_>,
    marks: &[bool],
    numbers: &[usize],
) -> Result<(), AllocError>
    ensures { OnOk result (Grows (IsUsedMarked (typed_of unit.now) (names_of unit.now) marks.now
        numbers.now) found.old.items found.new.items) }
{
    for number in numbers {
        attempt!(add_of_body(found, unit, marks, *number));
    }
    Ok(())
}

/// The least number of a global that the bodies of some numbers name and that is marked.
fn first_marked(
    alloc: Global,
    unit: &Typed<'_>,
    marks: &[bool],
    numbers: &[usize],
) -> Result<Option<usize>, AllocError>
    ensures { IfOk result (IsLeast (IsUsedMarked (typed_of unit.now) (names_of unit.now) marks.now
        numbers.now)) }
{
    let mut found = Vec::new(alloc);
    attempt!(add_of_bodies(&mut found, unit, marks, numbers));
    Ok(first_of(found.as_slice()))
}

/// Whether there is no FUNC symbol of a name.
fn is_absent(image: &Image<'_>, name: &[u8]) -> bool
    ensures { IsTrue result ↔ (function_named image.now name.now ≡ Absent) }
{
    match image.function(name) {
        SymbolValues::Absent => true,
        SymbolValues::One(_) | SymbolValues::Two(_, _) => false,
    }
}

/// The fault of the names of the function at an index of the list, if one of these is there.
fn refusal(
    lacking: Option<usize>,
    absent: bool,
    global: Option<usize>,
    index: usize,
) -> Result<(), Refusal<PairFault>>
    ensures { result ≡ refusal_of lacking absent global index }
{
    if let Some(number) = lacking {
        return Err(Refusal::Fault(PairFault::Refused(PairKind::NoSource, Named::Declared(number))));
    }
    if absent {
        return Err(Refusal::Fault(PairFault::Refused(PairKind::NoSymbol, Named::Listed(index))));
    }
    match global {
        Some(number) => Err(Refusal::Fault(PairFault::Refused(
            PairKind::ObjectSize,
            Named::Declared(number),
        ))),
        None => Ok(()),
    }
}

/// The numbers of a set from an index on.
fn added(seen: &IndexSet<usize>, from: usize) -> &[usize]
    requires { from ≤ length seen.now.keys }
    ensures { result.now ≡ drop from seen.now.keys }
{
    &seen.as_slice()[from..]
}

/// Nothing, where the names of a listed function, of this number, have no fault. What it reaches is
/// added to the numbers that were looked at; with those nothing is wrong.
fn check_declared(
    alloc: Global,
    image: &Image<'_>,
    unit: &Typed<'_>,
    survey: &Survey,
    seen: &mut IndexSet<usize>,
    name: &[u8],
    index: usize,
    start: usize,
) -> Result<(), Refusal<PairFault>>
    requires typed { IsTypedUnit (typed_of unit.now) }
    requires survey { IsSurvey image.now (typed_of unit.now) (names_of unit.now) survey.now }
    requires fine { AreFine (typed_of unit.now) (names_of unit.now)
        (graph_of survey.now.graph.items) survey.now.misplaced.items seen.old.keys }
    requires declared { IsDeclaredAt (typed_of unit.now) (names_of unit.now) name.now start }
    ensures passed { OnOk result (IsPassed image.now (typed_of unit.now) (names_of unit.now)
        (graph_of survey.now.graph.items) survey.now.misplaced.items name.now seen.old.keys
        seen.new.keys) }
    ensures fault { IfErr result (IsNameError image.now (typed_of unit.now) (names_of unit.now)
        name.now index) }
{
    let before = seen.len();
    attempt!(
        extend(seen, survey.graph.as_slice(), start),
        Refusal::NoMemory
    );
    let numbers = added(seen, before);
    let lacking = attempt!(first_lacking(alloc, unit, numbers), Refusal::NoMemory);
    let marks = survey.misplaced.as_slice();
    let global = attempt!(first_marked(alloc, unit, marks, numbers), Refusal::NoMemory);
    refusal(lacking, is_absent(image, name), global, index)
}

/// The same of any listed function.
fn check_name(
    alloc: Global,
    image: &Image<'_>,
    unit: &Typed<'_>,
    survey: &Survey,
    seen: &mut IndexSet<usize>,
    name: &[u8],
    index: usize,
) -> Result<(), Refusal<PairFault>>
    requires typed { IsTypedUnit (typed_of unit.now) }
    requires survey { IsSurvey image.now (typed_of unit.now) (names_of unit.now) survey.now }
    requires fine { AreFine (typed_of unit.now) (names_of unit.now)
        (graph_of survey.now.graph.items) survey.now.misplaced.items seen.old.keys }
    ensures passed { OnOk result (IsPassed image.now (typed_of unit.now) (names_of unit.now)
        (graph_of survey.now.graph.items) survey.now.misplaced.items name.now seen.old.keys
        seen.new.keys) }
    ensures fault { IfErr result (IsNameError image.now (typed_of unit.now) (names_of unit.now)
        name.now index) }
{
    match function_number(unit, name) {
        Some(start) => { check_declared(alloc, image, unit, survey, seen, name, index, start) }
        None => Err(Refusal::Fault(PairFault::Refused(PairKind::NoSource, Named::Listed(index)))),
    }
}

/// Nothing, where the names of no listed function have a fault; or else the fault of the first that
/// has one. The numbers of all that is reached in the source are added.
pub(crate) fn check_names(
    alloc: Global,
    image: &Image<'_>,
    unit: &Typed<'_>,
    survey: &Survey,
    seen: &mut IndexSet<usize>,
    list: &[&[u8]],
) -> Result<(), Refusal<PairFault>>
    requires typed { IsTypedUnit (typed_of unit.now) }
    requires survey { IsSurvey image.now (typed_of unit.now) (names_of unit.now) survey.now }
    requires none { seen.old.keys ≡ [] }
    ensures passed { OnOk result (ArePassed image.now (typed_of unit.now) (names_of unit.now)
        (graph_of survey.now.graph.items) survey.now.misplaced.items (texts_of list.now)
        seen.new.keys) }
    ensures fault { IfErr result (IsFirstNameError image.now (typed_of unit.now) (names_of unit.now)
        (texts_of list.now)) }
{
    for i in 0..list.len() {
        attempt!(check_name(alloc, image, unit, survey, seen, list[i], i));
    }
    Ok(())
}
