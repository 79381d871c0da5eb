//! Nodes that are written over a bank, and the tests of guards before them.

ghost use Rattle.std.specs.Prelude.{[], ◌∷◌, OnOk};
ghost use Rattle.graph_core_spec.specs.declared.Next.TheVariants as goes;
ghost use Rattle.graph_core_spec.specs.Graph as flow;
ghost use Rattle.c_types_spec.specs.Core as core;
ghost use Rattle.c_types_core.specs.Expressions.{core_of};
ghost use Rattle.c_graph_spec.specs.State as state;
ghost use Rattle.c_graph_spec.specs.Values.{no_object, terms};
ghost use Rattle.c_graph_spec.specs.Layout as spec;
ghost use Rattle.c_graph_layout.specs.Lists.{cores_of};
ghost use Rattle.c_graph_terms.specs.Tests.{Evaluates};
ghost use Rattle.c_graph_terms.specs.Accesses.{Stores};
ghost use Rattle.c_graph.specs.Bound.{Drafts, Passes};
ghost use Rattle.c_graph.specs.Frames.{setting_in};

use crate::bindings::{bind, bind_local, outputs};
use crate::frame::{Frame, source_number};
use attempt::attempt;
use c_graph_terms::{MEMORY, Scene, ValueIds, evaluate, no_object, result_of, store};
use c_types_core::constants::type_of;
use c_types_core::expression::Core;
use c_types_spec::Scalar;
use graph_core::{SharedBinding, SharedNode};
use graph_core_spec::Next;
use std::alloc::AllocError;
use term_bank::{Bank, TermId};

/// The terms of an expression that is in no assignment to an object; the tests of its guards are
/// added.
pub(crate) fn value(
    frame: &Frame<'_, '_>,
    bank: &mut Bank,
    tests: &mut Vec<TermId>,
    x: &Core<'_>,
) -> Result<ValueIds, AllocError>
    ensures { Evaluates bank.old bank.new tests.old.items tests.new.items result
        (terms (setting_in frame.now).place.globals no_object (core_of x.now))
        (spec.tests_in (setting_in frame.now) (core_of x.now)) }
{
    let target = attempt!(no_object(bank));
    let scene = Scene {
        alloc: frame.alloc,
        globals: frame.place.globals,
        target,
    };
    evaluate(x, &scene, bank, tests)
}

/// A value for a local.
pub(crate) fn set_node(
    frame: &Frame<'_, '_>,
    bank: &mut Bank,
    tests: &mut Vec<TermId>,
    number: usize,
    x: &Core<'_>,
    to: Next,
) -> Result<SharedNode, AllocError>
    ensures { Drafts bank.old bank.new tests.old.items tests.new.items result
        (spec.tests_in (setting_in frame.now) (core_of x.now))
        (flow.Basic (spec.set_local number (core.type_of (core_of x.now))
        (spec.value_in (setting_in frame.now) (core_of x.now))) to) }
{
    let value = attempt!(value(frame, bank, tests, x));
    let mut bindings = Vec::new(frame.alloc);
    attempt!(bind_local(bank, &mut bindings, number, type_of(x), value.word));
    Ok(SharedNode::Basic { bindings, next: to })
}

/// A value for the object so many bytes past an address.
pub(crate) fn store_node(
    frame: &Frame<'_, '_>,
    bank: &mut Bank,
    tests: &mut Vec<TermId>,
    of: Scalar,
    address: &Core<'_>,
    displacement: usize,
    x: &Core<'_>,
    to: Next,
) -> Result<SharedNode, AllocError>
    ensures { Drafts bank.old bank.new tests.old.items tests.new.items result
        (spec.store_tests (setting_in frame.now) of (core_of address.now) displacement
        (core_of x.now))
        (flow.Basic (spec.binding state.memory (spec.memory_stored (setting_in frame.now) of
        (core_of address.now) displacement (core_of x.now)) ∷ []) to) }
{
    let memory = attempt!(stored(frame, bank, tests, of, address, displacement, x));
    let mut bindings = Vec::new(frame.alloc);
    attempt!(bind(&mut bindings, MEMORY, memory));
    Ok(SharedNode::Basic { bindings, next: to })
}

/// The memory after a value is stored in the object so many bytes past an address.
fn stored(
    frame: &Frame<'_, '_>,
    bank: &mut Bank,
    tests: &mut Vec<TermId>,
    of: Scalar,
    address: &Core<'_>,
    displacement: usize,
    x: &Core<'_>,
) -> Result<TermId, AllocError>
    ensures { Stores bank.old bank.new tests.old.items tests.new.items result
        (spec.memory_stored (setting_in frame.now) of (core_of address.now) displacement
        (core_of x.now))
        (spec.store_tests (setting_in frame.now) of (core_of address.now) displacement
        (core_of x.now)) }
{
    let target = attempt!(no_object(bank));
    let scene = Scene {
        alloc: frame.alloc,
        globals: frame.place.globals,
        target,
    };
    store(
        address,
        x,
        &scene,
        bank,
        tests,
        frame.place.fixed,
        of,
        displacement,
    )
}

/// The end of a call, with a value.
pub(crate) fn return_node(
    frame: &Frame<'_, '_>,
    bank: &mut Bank,
    tests: &mut Vec<TermId>,
    x: &Core<'_>,
) -> Result<SharedNode, AllocError>
    ensures { Drafts bank.old bank.new tests.old.items tests.new.items result
        (spec.tests_in (setting_in frame.now) (core_of x.now))
        (flow.Basic (spec.binding (state.result (core.type_of (core_of x.now)))
        (spec.value_in (setting_in frame.now) (core_of x.now)) ∷ []) goes.Ret) }
{
    let value = attempt!(value(frame, bank, tests, x));
    let mut bindings = Vec::new(frame.alloc);
    attempt!(bind(&mut bindings, result_of(type_of(x)), value.word));
    Ok(SharedNode::Basic {
        bindings,
        next: Next::Ret,
    })
}

/// A test.
pub(crate) fn test_node(
    frame: &Frame<'_, '_>,
    bank: &mut Bank,
    tests: &mut Vec<TermId>,
    x: &Core<'_>,
    on_true: Next,
    on_false: Next,
) -> Result<SharedNode, AllocError>
    ensures { Drafts bank.old bank.new tests.old.items tests.new.items result
        (spec.tests_in (setting_in frame.now) (core_of x.now))
        (flow.Cond (spec.truth_in (setting_in frame.now) (core_of x.now)) on_true on_false) }
{
    let value = attempt!(value(frame, bank, tests, x));
    Ok(SharedNode::Cond {
        test: value.truth,
        on_true,
        on_false,
    })
}

/// Binds a parameter to an argument; the tests of its guards are added.
fn pass_one(
    frame: &Frame<'_, '_>,
    bank: &mut Bank,
    tests: &mut Vec<TermId>,
    inputs: &mut Vec<SharedBinding>,
    number: usize,
    x: &Core<'_>,
) -> Result<(), AllocError>
    ensures { OnOk result (Passes bank.old bank.new tests.old.items tests.new.items
        inputs.old.items inputs.new.items (spec.tests_in (setting_in frame.now) (core_of x.now))
        (spec.set_local number (core.type_of (core_of x.now))
        (spec.value_in (setting_in frame.now) (core_of x.now)))) }
{
    let value = attempt!(value(frame, bank, tests, x));
    bind_local(bank, inputs, number, type_of(x), value.word)
}

/// Binds the parameters of a callee to the arguments; the tests of their guards are added.
fn pass(
    frame: &Frame<'_, '_>,
    bank: &mut Bank,
    tests: &mut Vec<TermId>,
    inputs: &mut Vec<SharedBinding>,
    arguments: &[Box<Core<'_>>],
) -> Result<(), AllocError>
    ensures { OnOk result (Passes bank.old bank.new tests.old.items tests.new.items
        inputs.old.items inputs.new.items
        (spec.argument_tests (setting_in frame.now) (cores_of arguments.now))
        (spec.inputs (setting_in frame.now) 0 (cores_of arguments.now))) }
{
    for number in 0..arguments.len() {
        let x = &arguments[number];
        attempt!(pass_one(frame, bank, tests, inputs, number, x));
    }
    Ok(())
}

/// A call.
pub(crate) fn call_node(
    frame: &Frame<'_, '_>,
    bank: &mut Bank,
    tests: &mut Vec<TermId>,
    function: &[u8],
    arguments: &[Box<Core<'_>>],
    into: Option<usize>,
    landing: usize,
) -> Result<SharedNode, AllocError>
    ensures { Drafts bank.old bank.new tests.old.items tests.new.items result
        (spec.argument_tests (setting_in frame.now) (cores_of arguments.now))
        (flow.Call ((setting_in frame.now).graph_number function.now)
        (spec.inputs (setting_in frame.now) 0 (cores_of arguments.now))
        (spec.outputs (setting_in frame.now) function.now into) landing) }
{
    let mut inputs = Vec::new(frame.alloc);
    attempt!(pass(frame, bank, tests, &mut inputs, arguments));
    let outputs = attempt!(outputs(frame, bank, function, into));
    Ok(SharedNode::Call {
        callee: source_number(frame.unit, function),
        inputs,
        outputs,
        landing,
    })
}
