//! The graph of a function, and those of a unit.

ghost use Rattle.std.specs.Prelude.{◌≡◌, ◌++◌, IfOk, OnOk, map, option_map};
ghost use Rattle.c_graph_spec.specs.Layout.{Setting};
ghost use Rattle.c_graph_spec.specs.SourceGraph as spec;
ghost use Rattle.c_graph_terms.specs.Scenes.{place_of};
ghost use Rattle.c_types.specs.Typed.{body_in, body_of, typed_of};
ghost use Rattle.c_graph.specs.Emitted.{Emits};
ghost use Rattle.c_graph.specs.Frames.{setting_in};
ghost use Rattle.graph_core.specs.Graphs.{graph_of};
ghost use Rattle.c_types_core.specs.Actions.{action_of};
ghost use Rattle.c_graph.specs.Seen.{body_nodes, graph_with, made_for, made_of, points_in};

use crate::emission::empty;
use crate::frame::Frame;
use crate::points::{Point, add_points};
use crate::statement::nodes;
use attempt::attempt;
use c_graph_layout::{Exits, entry};
use c_run_value::setting::Place;
use c_types::typed::{Body, Typed};
use c_types_core::action::Action;
use graph_core::Graph;
use graph_core_spec::Next;
use std::alloc::{AllocError, Global};

/// The graph of a C function, and its points.
#[derive(Drop)]
pub struct SourceGraph {
    /// The graph.
    pub graph: Graph,
    /// The nodes of its loops and calls.
    pub points: Vec<Point>,
}

/// Adds the nodes of a body: the landing node at which a run begins, and then what the function
/// does.
fn add_body(frame: &Frame<'_, '_>, graph: &mut Graph, action: &Action<'_>) -> Result<(), AllocError>
    ensures { Emits graph.old graph.new result
        (body_nodes (setting_in frame.now) (action_of action.now)) }
{
    let exits = Exits {
        breaks: Next::Ret,
        continues: Next::Ret,
    };
    let begin = attempt!(entry(action, 1, Next::Ret, exits));
    attempt!(empty(frame.alloc, graph, begin));
    nodes(action, frame, graph, 1, Next::Ret, exits)
}

/// The graph of a body.
fn body_graph(frame: &Frame<'_, '_>, action: &Action<'_>) -> Result<Graph, AllocError>
    ensures { IfOk result (λ made. graph_of made
        ≡ graph_with (body_nodes (setting_in frame.now) (action_of action.now))) }
{
    let mut graph = Graph::new(frame.alloc);
    attempt!(add_body(frame, &mut graph, action));
    Ok(graph)
}

/// The points of a body.
fn body_points(alloc: Global, action: &Action<'_>) -> Result<Vec<Point>, AllocError>
    ensures { (f : Setting) → IfOk result (λ made. points_in made.items
        ≡ spec.points f (action_of action.now) 1) }
{
    let mut points = Vec::new(alloc);
    attempt!(add_points(action, &mut points, 1));
    Ok(points)
}

/// The graph and the points of a body of a unit.
fn translated<'a, 'u>(
    alloc: Global,
    unit: &'a Typed<'u>,
    place: &'a Place<'a, 'a>,
    body: &'a Body<'u>,
) -> Result<SourceGraph, AllocError>
    ensures { IfOk result (λ made. made_of made
        ≡ made_for (typed_of unit.now) (place_of place.now) (body_of body.now)) }
{
    let frame = Frame {
        alloc,
        place,
        unit,
        locals: body.locals.as_slice(),
    };
    let points = attempt!(body_points(alloc, &body.action));
    let graph = attempt!(body_graph(&frame, &body.action));
    Ok(SourceGraph { graph, points })
}

/// The graph of a function of a unit, and its points; none exactly where the function has no body.
pub fn translate<'a>(
    alloc: Global,
    unit: &'a Typed<'_>,
    name: &[u8],
    place: &'a Place<'a, 'a>,
) -> Result<Option<SourceGraph>, AllocError>
    ensures { IfOk result (λ found. option_map made_of found
        ≡ option_map (made_for (typed_of unit.now) (place_of place.now))
        (body_in (typed_of unit.now).bodies name.now)) }
{
    match unit.body(name) {
        Some(body) => {
            let made = attempt!(translated(alloc, unit, place, body));
            Ok(Some(made))
        }
        None => Ok(None),
    }
}

/// Adds the graphs of all bodies of a unit, in order.
fn add_graphs<'a>(
    alloc: Global,
    found: &mut Vec<SourceGraph>,
    unit: &'a Typed<'_>,
    place: &'a Place<'a, 'a>,
) -> Result<(), AllocError>
    ensures { OnOk result (map made_of found.new.items ≡ map made_of found.old.items
        ++ map (made_for (typed_of unit.now) (place_of place.now)) (typed_of unit.now).bodies) }
{
    for i in 0..unit.bodies.len() {
        let (_, body) = unit.bodies.get_index(i).unwrap();
        let made = attempt!(translated(alloc, unit, place, body));
        found.push(made)?;
    }
    Ok(())
}

/// The graphs of all bodies of a unit, in order, and their points.
pub fn graphs<'a>(
    alloc: Global,
    unit: &'a Typed<'_>,
    place: &'a Place<'a, 'a>,
) -> Result<Vec<SourceGraph>, AllocError>
    ensures graphs { IfOk result (λ made. map (λ g. graph_of g.graph) made.items
        ≡ spec.graphs_of (typed_of unit.now) (place_of place.now)) }
    ensures points { IfOk result (λ made. map (λ g. points_in g.points.items) made.items
        ≡ map (spec.points_of (typed_of unit.now) (place_of place.now))
        (typed_of unit.now).bodies) }
{
    let mut found = Vec::new(alloc);
    attempt!(add_graphs(alloc, &mut found, unit, place));
    Ok(found)
}
