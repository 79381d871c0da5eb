//! The graphs of the source.

ghost use Rattle.std.specs.Prelude.{◌≡◌, ◌++◌, ◌∷◌, [], IfOk, OnOk, map};
ghost use Rattle.memory_spec.specs.Viewed.{runs_of};
ghost use Rattle.graph_core.specs.Graphs.{graph_of, graphs_of};
ghost use Rattle.c_types.specs.Typed.{typed_of};
ghost use Rattle.c_run_value.specs.Settings.{address_in};
ghost use Rattle.validity_spec.specs.Claim.{globals_of};
ghost use Rattle.c_graph.specs.Seen.{point_of, points_in};
ghost use Rattle.cert_check_frames.specs.Entries.{listed_places};
ghost use Rattle.cert_check_frames.specs.Listed.{place_of, places_in};
ghost use Rattle.cert_run.specs.Sources.{AreSources};

use crate::globals::placed_globals;
use attempt::attempt;
use c_graph::{Point, SourceGraph, graphs};
use c_run_value::setting::{Global as Placed, Place};
use c_types::typed::Typed;
use cert_check_frames::PlaceNode;
use elf_read::Image;
use graph_core::Graph;
use memory_spec::Run;
use std::alloc::{AllocError, Global};

/// Graphs of the source, and the nodes of their places.
#[derive(Drop)]
pub(crate) struct Sources {
    /// The graphs of bodies.
    pub graphs: Vec<Graph>,
    /// The nodes of the places of each.
    pub places: Vec<Vec<PlaceNode>>,
}

/// The node of a place.
fn place_node(point: &Point) -> PlaceNode
    ensures { place_of result ≡ point_of point.now }
{
    PlaceNode {
        place: point.place,
        node: point.node,
    }
}

/// The nodes of points.
fn places_of(alloc: Global, points: &[Point]) -> Result<Vec<PlaceNode>, AllocError>
    ensures { IfOk result (λ made. places_in made.items ≡ points_in points.now) }
{
    let mut made = Vec::new(alloc);
    for index in 0..points.len() {
        attempt!(made.push(place_node(&points[index])), AllocError);
    }
    Ok(made)
}

/// Adds a graph, and the nodes of its places.
fn add_graph(
    alloc: Global,
    graphs: &mut Vec<Graph>,
    places: &mut Vec<Vec<PlaceNode>>,
    made: SourceGraph,
) -> Result<(), AllocError>
    ensures graphs { OnOk result (graphs.new.items ≡ graphs.old.items ++ made.graph ∷ []) }
    ensures places { OnOk result (map listed_places places.new.items
        ≡ map listed_places places.old.items ++ points_in made.points.items ∷ []) }
{
    let found = attempt!(places_of(alloc, made.points.as_slice()));
    attempt!(places.push(found), AllocError);
    attempt!(graphs.push(made.graph), AllocError);
    Ok(())
}

/// Adds graphs, and the nodes of their places.
fn add_graphs(
    alloc: Global,
    graphs: &mut Vec<Graph>,
    places: &mut Vec<Vec<PlaceNode>>,
    made: Vec<SourceGraph>,
) -> Result<(), AllocError>
    ensures graphs { OnOk result (graphs_of graphs.new.items ≡ graphs_of graphs.old.items
        ++ map (λ g. graph_of g.graph) made.items) }
    ensures places { OnOk result (map listed_places places.new.items
        ≡ map listed_places places.old.items ++ map (λ g. points_in g.points.items) made.items) }
{
    for one in made {
        attempt!(add_graph(alloc, graphs, places, one));
    }
    Ok(())
}

/// Graphs, and the nodes of their places.
fn with_places(alloc: Global, made: Vec<SourceGraph>) -> Result<Sources, AllocError>
    ensures graphs { IfOk result (λ all. graphs_of all.graphs.items ≡ map (λ g. graph_of g.graph)
        made.items) }
    ensures places { IfOk result (λ all. map listed_places all.places.items
        ≡ map (λ g. points_in g.points.items) made.items) }
{
    let mut graphs = Vec::new(alloc);
    let mut places = Vec::new(alloc);
    attempt!(add_graphs(alloc, &mut graphs, &mut places, made));
    Ok(Sources { graphs, places })
}

/// The graphs of all bodies of a unit, in order, with the nodes of their places, where globals and
/// fixed bytes are these.
fn graphs_at<'a>(
    alloc: Global,
    unit: &'a Typed<'_>,
    globals: &'a [Placed<'a>],
    fixed: &'a [Run],
) -> Result<Sources, AllocError>
    ensures { IfOk result (AreSources (typed_of unit.now)
        (record { globals = address_in globals.now; runs = runs_of fixed.now })) }
{
    let place = Place { globals, fixed };
    let made = attempt!(graphs(alloc, unit, &place));
    with_places(alloc, made)
}

/// The graphs of all bodies of a unit, in order, with the nodes of their places, where globals and
/// fixed bytes are as in an executable.
pub(crate) fn source_graphs(
    alloc: Global,
    image: &Image<'_>,
    unit: &Typed<'_>,
    runs: &[Run],
) -> Result<Sources, AllocError>
    ensures { IfOk result (AreSources (typed_of unit.now)
        (record { globals = globals_of image.now; runs = runs_of runs.now })) }
{
    let globals = attempt!(placed_globals(alloc, image));
    graphs_at(alloc, unit, globals.as_slice(), runs)
}
