//! The nodes of points.

ghost use Rattle.std.specs.Prelude.{◌≡◌, ◌↔◌, IsTrue, nat_eq};
ghost use Rattle.std.specs.Map.{lookup};
ghost use Rattle.proof_tree.specs.Frames.{side_of};
ghost use Rattle.proof_tree.specs.Proofs.{binary_point_of, source_point_of};
ghost use Rattle.cert_check_lines_spec.specs.Members.{same_place};
ghost use Rattle.cert_check_frames.specs.Listed.{firsts_at, places_in};
ghost use Rattle.cert_check_jobs.specs.Points.{Finds, IsBinaryAt, IsCallThere, IsSourceAt};
ghost use Rattle.cert_check_jobs.specs.Points as spec;

use cert_check_frames::{Listed, PlaceNode};
use graph_core::{GraphRun, SharedNode};
use proof_tree::{BinaryPoint, SourcePoint};
use proof_tree_spec::Place;

// Whether a node is a call.
fn is_call_node(node: &SharedNode) -> bool
    ensures { result ≡ spec.is_call node.now }
{
    matches!(node, SharedNode::Call { .. })
}

// Whether a node of the outermost graph of a run is a call.
fn is_call(run: &GraphRun<'_>, node: usize) -> bool
    ensures { IsTrue result ↔ IsCallThere (side_of run.now) node }
{
    match run.graphs.get(run.outermost) {
        None => false,
        Some(graph) => match graph.nodes().get(node) {
            None => false,
            Some(found) => is_call_node(found),
        },
    }
}

// The node, if there is one that is no call.
fn unless_call(run: &GraphRun<'_>, node: Option<usize>) -> Option<usize>
    ensures { spec.IsUnlessCall (side_of run.now) node result }
{
    match node {
        Some(node) => { if is_call(run, node) { None } else { Some(node) } }
        None => None,
    }
}

// The first node of the instruction at an address.
fn first_node(function: &Listed<'_>, address: u32) -> Option<usize>
    ensures { result ≡ lookup (nat_eq address) (firsts_at function.now) }
{
    match function.firsts {
        Some(firsts) => firsts.get(&address).copied(),
        None => None,
    }
}

// Whether two places are one.
fn is_same(a: Place, b: Place) -> bool
    ensures { result ≡ same_place a b }
{
    match a {
        Place::Test(m) => match b {
            Place::Test(n) => m == n,
            Place::Body(_) | Place::Call(_) => false,
        },
        Place::Body(m) => match b {
            Place::Body(n) => m == n,
            Place::Test(_) | Place::Call(_) => false,
        },
        Place::Call(m) => match b {
            Place::Call(n) => m == n,
            Place::Test(_) | Place::Body(_) => false,
        },
    }
}

// The node of a place.
fn place_node(places: &[PlaceNode], place: Place) -> Option<usize>
    ensures { result ≡ lookup (same_place place) (places_in places.now) }
{
    for index in 0..places.len() {
        if is_same(place, places[index].place) {
            return Some(places[index].node);
        }
    }
    None
}

/// The first node of the instruction at a point of the code, if there is one and it is no call.
/// Nothing is inlined.
pub fn binary_node(function: &Listed<'_>, point: &BinaryPoint) -> Option<usize>
    ensures { Finds (IsBinaryAt function.now (binary_point_of point.now)) result }
{
    if !point.path.is_empty() {
        return None;
    }
    unless_call(&function.binary, first_node(function, point.address))
}

/// The node of a point of the source, if there is one and it is no call.
pub fn source_node(function: &Listed<'_>, point: &SourcePoint) -> Option<usize>
    ensures { Finds (IsSourceAt function.now (source_point_of point.now)) result }
{
    if !point.path.is_empty() {
        return None;
    }
    unless_call(&function.source, place_node(function.places, point.place))
}
