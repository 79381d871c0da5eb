//! The graph of calls of a unit.

ghost use Rattle.std.specs.Prelude.{◌≡◌, IfOk, OnOk, []};
ghost use Rattle.pair_setup_calls.specs.Graph.{Grows, graph_of};
ghost use Rattle.c_types_core.specs.Actions.{action_of};
ghost use Rattle.c_types.specs.Typed.{typed_of};
ghost use Rattle.pair_setup_spec.specs.SourceReach.{calls_in};
ghost use Rattle.pair_setup_calls.specs.Names.{AreApart, AreCalled, HasNumberAmong, IsCallGraph};
ghost use Rattle.pair_setup_calls.specs.Names.{IsNumber, names_of, texts_of};

use crate::calling::calls_of;
use crate::numbers::{body_at, number};
use attempt::attempt;
use c_types::typed::{Body, Typed};
use std::alloc::{AllocError, Global};

/// Adds the number of a name, if it has one.
fn add_number(numbers: &mut Vec<usize>, unit: &Typed<'_>, name: &[u8]) -> Result<(), AllocError>
    ensures { OnOk result (Grows (λ i. IsNumber (names_of unit.now) i name.now) numbers.old.items
        numbers.new.items) }
{
    if let Some(number) = number(unit, name) {
        numbers.push(number)?;
    }
    Ok(())
}

/// Adds the numbers of some names; a name without one is left out.
fn add_numbers(
    numbers: &mut Vec<usize>,
    unit: &Typed<'_>,
    names: &[&[u8]],
) -> Result<(), AllocError>
    ensures { OnOk result (Grows (HasNumberAmong (names_of unit.now) (texts_of names.now))
        numbers.old.items numbers.new.items) }
{
    for name in names {
        attempt!(add_number(numbers, unit, name));
    }
    Ok(())
}

/// The numbers of the functions that a body calls.
fn numbers_of_body(
    alloc: Global,
    unit: &Typed<'_>,
    body: &Body<'_>,
) -> Result<Vec<usize>, AllocError>
    ensures { IfOk result (λ numbers. Grows (HasNumberAmong (names_of unit.now)
        (calls_in (action_of body.now.action.value))) [] numbers.items) }
{
    let names = attempt!(calls_of(alloc, &body.action));
    let mut numbers = Vec::new(alloc);
    attempt!(add_numbers(&mut numbers, unit, names.as_slice()));
    Ok(numbers)
}

/// The numbers of the functions that the body of a number calls; none where it has no body.
fn called_numbers(alloc: Global, unit: &Typed<'_>, caller: usize) -> Result<Vec<usize>, AllocError>
    ensures { IfOk result (λ numbers. AreCalled (typed_of unit.now) (names_of unit.now) caller
        numbers.items) }
{
    match body_at(unit, caller) {
        Some(body) => numbers_of_body(alloc, unit, body),
        None => Ok(Vec::new(alloc)),
    }
}

/// Adds what the functions of a unit call, one after the other.
fn add_all(alloc: Global, graph: &mut Vec<Vec<usize>>, unit: &Typed<'_>) -> Result<(), AllocError>
    requires { graph.old.items ≡ [] }
    ensures graph { OnOk result (IsCallGraph (typed_of unit.now) (names_of unit.now)
        (graph_of graph.new.items)) }
    ensures apart { OnOk result (AreApart (names_of unit.now)) }
{
    for caller in 0..unit.names.len() {
        let numbers = attempt!(called_numbers(alloc, unit, caller));
        graph.push(numbers)?;
    }
    Ok(())
}

/// For each name of the file scope the functions that its body calls, by numbers. Each name has one
/// number.
pub fn call_graph(alloc: Global, unit: &Typed<'_>) -> Result<Vec<Vec<usize>>, AllocError>
    ensures graph { IfOk result (λ graph. IsCallGraph (typed_of unit.now) (names_of unit.now)
        (graph_of graph.items)) }
    ensures apart { OnOk result (AreApart (names_of unit.now)) }
{
    let mut graph = Vec::new(alloc);
    attempt!(add_all(alloc, &mut graph, unit));
    Ok(graph)
}
