//! The graphs of functions, their points and their sizes, as text.

use crate::given::{Given, read};
use crate::nodes::put_graph;
use c_graph::{Point, SourceGraph, graphs, translate};
use c_run_value::setting::Place;
use c_types::typed::Typed;
use proof_tree_spec as points;
use row_io::Out;
use std::alloc::{AllocError, Global};

fn put_point(point: Point, out: &mut Out) {
    let (letter, number) = match point.place {
        points::Place::Test(number) => ("t", number),
        points::Place::Body(number) => ("b", number),
        points::Place::Call(number) => ("k", number),
    };
    out.put(letter);
    out.show(&number);
    out.put("=");
    out.show(&point.node);
    out.put(" ");
}

/// The graph of a function, or its points.
fn put_function(asked: &str, found: &SourceGraph, out: &mut Out) {
    match asked {
        "points" => {
            for point in &found.points {
                put_point(*point, out);
            }
        }
        "guards" => put_graph(&found.graph, true, out),
        _ => put_graph(&found.graph, false, out),
    }
}

fn put_sizes(list: &[SourceGraph], out: &mut Out) {
    for found in list {
        out.show(&found.graph.len());
        out.put(" ");
    }
}

/// The answer of a unit where its globals and the fixed bytes are given.
fn put_placed(
    alloc: Global,
    asked: &str,
    typed: &Typed<'_>,
    given: &Given<'_>,
    out: &mut Out,
) -> Result<(), AllocError> {
    let function = given.function;
    let globals = given.globals.as_slice();
    let fixed = given.fixed.as_slice();
    let place = Place { globals, fixed };
    if asked == "sizes" {
        let list = graphs(alloc, typed, &place)?;
        put_sizes(list.as_slice(), out);
    } else {
        match translate(alloc, typed, function, &place)? {
            Some(found) => put_function(asked, &found, out),
            None => out.put("no body"),
        }
    }
    Ok(())
}

/// What is asked of the graphs of a unit.
pub(crate) fn put_answer(alloc: Global, asked: &str, words: &str, unit: &Typed<'_>, out: &mut Out) {
    match read(alloc, words) {
        Ok(given) => {
            if put_placed(alloc, asked, unit, &given, out).is_err() {
                out.fail();
            }
        }
        Err(_) => out.fail(),
    }
}
