//! The nodes of statements without other statements in them.

ghost use Rattle.std.specs.Prelude.{◌+◌, ◌-◌, ◌<◌, [], ◌∷◌, ◌++◌, ℕ, false};
ghost use Rattle.term_core_spec.specs.Term as tree;
ghost use Rattle.graph_core_spec.specs.Graph as flow;
ghost use Rattle.graph_core_spec.specs.declared.Next as next;
ghost use Rattle.graph_core_spec.specs.declared.Next.TheVariants as goes;
ghost use Rattle.c_types_spec.specs.Core as core;
ghost use Rattle.c_types_core.specs.Expressions.{core_of};
ghost use Rattle.c_types_core.specs.Actions.{core_in};
ghost use Rattle.c_graph_spec.specs.State as state;
ghost use Rattle.c_graph_spec.specs.Layout as spec;
ghost use Rattle.c_graph_layout.specs.Lists.{cores_of};
ghost use Rattle.c_graph.specs.Emitted.{Emits};
ghost use Rattle.c_graph.specs.Frames.{setting_in};

use crate::drafts::{call_node, return_node, set_node, store_node, test_node, value};
use crate::emission::{emit, emit_tests, empty};
use crate::frame::Frame;
use crate::imports::add_node;
use crate::places::LoopPlaces;
use attempt::attempt;
use c_graph_layout::argument_count;
use c_graph_terms::is_set;
use c_types_core::counts::sum;
use c_types_core::expression::Core;
use c_types_spec::Scalar;
use graph_core::{Graph, SharedBinding, SharedNode};
use graph_core_spec::Next;
use std::alloc::{AllocError, Global};
use term_bank::{Bank, TermNode};
use term_core_spec::Atom;

/// A value that is dropped: the tests of its guards.
pub(crate) fn evaluated(
    frame: &Frame<'_, '_>,
    graph: &mut Graph,
    x: &Core<'_>,
    at: usize,
    to: Next,
) -> Result<(), AllocError>
    ensures { Emits graph.old graph.new result
        (spec.chain (spec.tests_in (setting_in frame.now) (core_of x.now)) at to) }
{
    let mut bank = Bank::new(frame.alloc);
    let mut tests = Vec::new(frame.alloc);
    attempt!(value(frame, &mut bank, &mut tests, x));
    emit_tests(frame.alloc, graph, &bank, tests.as_slice(), at, to)
}

/// A value for a local.
pub(crate) fn set(
    frame: &Frame<'_, '_>,
    graph: &mut Graph,
    number: usize,
    x: &Core<'_>,
    at: usize,
    to: Next,
) -> Result<(), AllocError>
    ensures { Emits graph.old graph.new result
        (spec.guarded (spec.tests_in (setting_in frame.now) (core_of x.now)) at
        (flow.Basic (spec.set_local number (core.type_of (core_of x.now))
        (spec.value_in (setting_in frame.now) (core_of x.now))) to)) }
{
    let mut bank = Bank::new(frame.alloc);
    let mut tests = Vec::new(frame.alloc);
    let node = attempt!(set_node(frame, &mut bank, &mut tests, number, x, to));
    emit(frame.alloc, graph, &bank, tests.as_slice(), &node, at)
}

/// A value for the object so many bytes past an address.
pub(crate) fn store_value(
    frame: &Frame<'_, '_>,
    graph: &mut Graph,
    of: Scalar,
    address: &Core<'_>,
    displacement: usize,
    x: &Core<'_>,
    at: usize,
    to: Next,
) -> Result<(), AllocError>
    ensures { Emits graph.old graph.new result
        (spec.guarded (spec.store_tests (setting_in frame.now) of (core_of address.now)
        displacement (core_of x.now)) at
        (flow.Basic (spec.binding state.memory (spec.memory_stored (setting_in frame.now) of
        (core_of address.now) displacement (core_of x.now)) ∷ []) to)) }
{
    let mut bank = Bank::new(frame.alloc);
    let mut tests = Vec::new(frame.alloc);
    let node = attempt!(store_node(
        frame,
        &mut bank,
        &mut tests,
        of,
        address,
        displacement,
        x,
        to
    ));
    emit(frame.alloc, graph, &bank, tests.as_slice(), &node, at)
}

/// A test.
pub(crate) fn test(
    frame: &Frame<'_, '_>,
    graph: &mut Graph,
    x: &Core<'_>,
    at: usize,
    on_true: Next,
    on_false: Next,
) -> Result<(), AllocError>
    ensures { Emits graph.old graph.new result
        (spec.guarded (spec.tests_in (setting_in frame.now) (core_of x.now)) at
        (flow.Cond (spec.truth_in (setting_in frame.now) (core_of x.now)) on_true on_false)) }
{
    let mut bank = Bank::new(frame.alloc);
    let mut tests = Vec::new(frame.alloc);
    let node = attempt!(test_node(frame, &mut bank, &mut tests, x, on_true, on_false));
    emit(frame.alloc, graph, &bank, tests.as_slice(), &node, at)
}

/// The end of a call, with a value.
fn returned(
    frame: &Frame<'_, '_>,
    graph: &mut Graph,
    x: &Core<'_>,
    at: usize,
) -> Result<(), AllocError>
    ensures { Emits graph.old graph.new result
        (spec.guarded (spec.tests_in (setting_in frame.now) (core_of x.now)) at
        (flow.Basic (spec.binding (state.result (core.type_of (core_of x.now)))
        (spec.value_in (setting_in frame.now) (core_of x.now)) ∷ []) goes.Ret)) }
{
    let mut bank = Bank::new(frame.alloc);
    let mut tests = Vec::new(frame.alloc);
    let node = attempt!(return_node(frame, &mut bank, &mut tests, x));
    emit(frame.alloc, graph, &bank, tests.as_slice(), &node, at)
}

/// The end of a call.
#[tactic(auto, unfolding(c_graph_spec::specs::Layout::nodes))]
pub(crate) fn give_back(
    frame: &Frame<'_, '_>,
    graph: &mut Graph,
    value: &Option<Box<Core<'_>>>,
    at: usize,
) -> Result<(), AllocError>
    ensures { (to : next.Next) (exits : spec.Exits) → Emits graph.old graph.new result
        (spec.nodes (setting_in frame.now) (core.Return (core_in value.now)) at to exits) }
{
    match value {
        Some(x) => returned(frame, graph, x, at),
        None => Ok(()),
    }
}

/// A declaration without initial value.
pub(crate) fn unset(
    alloc: Global,
    graph: &mut Graph,
    number: usize,
    to: Next,
) -> Result<(), AllocError>
    ensures { Emits graph.old graph.new result
        (flow.Basic (spec.binding (state.is_set number) (tree.truth false) ∷ []) to ∷ []) }
{
    let term = attempt!(graph.add_term(TermNode::Leaf(Atom::Truth(false))));
    let mut bindings = Vec::new(alloc);
    bindings.push(SharedBinding {
        variable: is_set(number),
        term,
    })?;
    add_node(graph, SharedNode::Basic { bindings, next: to })
}

/// The end of a function that owes a value.
pub(crate) fn missing_return(graph: &mut Graph) -> Result<(), AllocError>
    ensures { Emits graph.old graph.new result
        (flow.Cond (tree.truth false) goes.Err goes.Err ∷ []) }
{
    let test = attempt!(graph.add_term(TermNode::Leaf(Atom::Truth(false))));
    add_node(
        graph,
        SharedNode::Cond {
            test,
            on_true: Next::Err,
            on_false: Next::Err,
        },
    )
}

/// A call, without its landing node.
fn call_alone(
    frame: &Frame<'_, '_>,
    graph: &mut Graph,
    function: &[u8],
    arguments: &[Box<Core<'_>>],
    into: Option<usize>,
    at: usize,
    landing: usize,
) -> Result<(), AllocError>
    ensures { Emits graph.old graph.new result
        (spec.guarded (spec.argument_tests (setting_in frame.now) (cores_of arguments.now)) at
        (flow.Call ((setting_in frame.now).graph_number function.now)
        (spec.inputs (setting_in frame.now) 0 (cores_of arguments.now))
        (spec.outputs (setting_in frame.now) function.now into) landing)) }
{
    let mut bank = Bank::new(frame.alloc);
    let mut tests = Vec::new(frame.alloc);
    let node = attempt!(call_node(
        frame, &mut bank, &mut tests, function, arguments, into, landing
    ));
    emit(frame.alloc, graph, &bank, tests.as_slice(), &node, at)
}

/// A call, and its landing node.
pub(crate) fn call(
    frame: &Frame<'_, '_>,
    graph: &mut Graph,
    function: &[u8],
    arguments: &[Box<Core<'_>>],
    into: Option<usize>,
    at: usize,
    to: Next,
) -> Result<(), AllocError>
    ensures { (number : ℕ) (exits : spec.Exits) → Emits graph.old graph.new result
        (spec.nodes (setting_in frame.now) (core.Call number function.now
        (cores_of arguments.now) into) at to exits) }
{
    let tests = attempt!(argument_count(arguments));
    let call = attempt!(sum(at, tests));
    let landing = attempt!(sum(call, 1));
    attempt!(call_alone(frame, graph, function, arguments, into, at, landing));
    empty(frame.alloc, graph, to)
}

/// The test of a `while` or `for`: an empty node, the tests of guards, the test, and an empty node
/// at the body.
pub(crate) fn loop_test(
    frame: &Frame<'_, '_>,
    graph: &mut Graph,
    x: &Core<'_>,
    at: usize,
    places: LoopPlaces,
    to: Next,
) -> Result<(), AllocError>
    requires { 2 < places.starts.first - at }
    ensures { Emits graph.old graph.new result
        (flow.Basic [] (goes.At (at + 1)) ∷ (spec.guarded
        (spec.tests_in (setting_in frame.now) (core_of x.now)) (at + 1)
        (flow.Cond (spec.truth_in (setting_in frame.now) (core_of x.now))
        (goes.At (places.starts.first - 1)) to) ++ (flow.Basic [] places.body ∷ []))) }
{
    let inside = Next::At(places.starts.first - 1);
    attempt!(empty(frame.alloc, graph, Next::At(at + 1)));
    attempt!(test(frame, graph, x, at + 1, inside, to));
    empty(frame.alloc, graph, places.body)
}
