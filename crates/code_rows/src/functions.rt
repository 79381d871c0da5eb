//! What the functions of an executable reach: `code PART..` gives of the first function its
//! instructions, the entries of all that it reaches and its stack, or a fault in the place of each;
//! `graphs PART..` the graph of each function that it reaches, a line a node, and whether all are
//! valid; `within MAXIMUM PART..` how many nodes its graph has and which variables, where it has at
//! most so many nodes; `alone MAXIMUM PART..` the same, where no other function is listed. `row_io`
//! has the parts of an executable.

ghost use Rattle.std.specs.List.Sorted.{IsStrictlyIncreasing};
ghost use Rattle.std.specs.Option.{IsSome};
ghost use Rattle.elf_read_spec.specs.Image.{size_at};

use crate::number;
use crate::texts::{put_graph, put_variable};
use attempt::Refusal;
use decompile::{
    CodeFault, CodeGraph, GraphFault, code, decompile, decompile_within, reach, stack,
};
use elf_read::{Image, read};
use graph_core::{Graph, GraphRun, Walks, callee_runs_as_alone, run_goes_on, validate};
use row_io::{Out, put_executable, split};
use std::alloc::{AllocError, Global};

fn put_error(error: Refusal<CodeFault>, out: &mut Out) {
    match error {
        Refusal::Fault(fault) => {
            out.show(&fault.kind);
            out.put(" at ");
            out.hexadecimal(u64::from(fault.address));
        }
        Refusal::NoMemory => out.fail(),
    }
}

fn put_graph_error(error: Refusal<GraphFault>, out: &mut Out) {
    match error {
        Refusal::Fault(GraphFault::Code(fault)) => put_error(Refusal::Fault(fault), out),
        Refusal::Fault(GraphFault::Unlisted { address, callee }) => {
            out.put("unlisted ");
            out.hexadecimal(u64::from(callee));
            out.put(" at ");
            out.hexadecimal(u64::from(address));
        }
        Refusal::Fault(GraphFault::Large(count)) => {
            out.put("large ");
            out.show(&count);
        }
        Refusal::NoMemory => out.fail(),
    }
}

fn put_listing(listing: &[(u32, u32)], out: &mut Out) {
    for (address, word) in listing {
        out.hexadecimal(u64::from(*address));
        out.put(":");
        out.word(*word);
        out.put(" ");
    }
}

fn put_entries(entries: &[u32], out: &mut Out) {
    for entry in entries {
        out.hexadecimal(u64::from(*entry));
        out.put(" ");
    }
}

fn put_instructions(alloc: Global, image: &Image<'_>, entry: u32, out: &mut Out)
    requires { IsSome (size_at image.now entry) }
{
    match code(alloc, image, entry) {
        Err(error) => put_error(error, out),
        Ok(listing) => put_listing(listing.as_slice(), out),
    }
}

fn put_reach(alloc: Global, image: &Image<'_>, entry: u32, out: &mut Out)
    requires { IsSome (size_at image.now entry) }
{
    match reach(alloc, image, entry) {
        Err(error) => put_error(error, out),
        Ok(entries) => put_entries(entries.as_slice(), out),
    }
}

fn put_stack(alloc: Global, image: &Image<'_>, entry: u32, out: &mut Out)
    requires { IsSome (size_at image.now entry) }
{
    match stack(alloc, image, entry) {
        Err(error) => put_error(error, out),
        Ok(None) => out.put("cycle"),
        Ok(Some(depth)) => out.show(&depth),
    }
}

fn put_code(alloc: Global, image: &Image<'_>, entry: u32, out: &mut Out) {
    if image.size_at(entry).is_none() {
        return out.put("no function");
    }
    out.put("code ");
    put_instructions(alloc, image, entry, out);
    out.put("\nreach ");
    put_reach(alloc, image, entry, out);
    out.put("\nstack ");
    put_stack(alloc, image, entry, out);
}

/// The graph of a function, which is kept.
fn keep_graph(found: CodeGraph, graphs: &mut Vec<Graph>, out: &mut Out) {
    put_graph(&found, out);
    if graphs.push(found.graph).is_err() {
        out.fail();
    }
}

/// The graphs of the functions at these entries, one after the other.
fn put_graphs(
    alloc: Global,
    image: &Image<'_>,
    entries: &[u32],
    graphs: &mut Vec<Graph>,
    out: &mut Out,
)
    requires { IsStrictlyIncreasing entries.now }
{
    for entry in entries {
        if image.size_at(*entry).is_none() {
            continue;
        }
        match decompile(alloc, image, *entry, entries) {
            Err(error) => put_graph_error(error, out),
            Ok(found) => keep_graph(found, graphs, out),
        }
    }
}

fn are_valid(graphs: &[Graph]) -> bool {
    for graph in graphs {
        if !validate(graph) {
            return false;
        }
    }
    true
}

/// Whether graphs are valid, and how many nodes the first has: a walk.
fn put_run(graphs: &[Graph], out: &mut Out) {
    let run = GraphRun {
        graphs,
        outermost: 0,
    };
    run_goes_on(&run);
    callee_runs_as_alone(&run);
    out.put("valid ");
    out.show(&are_valid(graphs));
    out.put(" nodes ");
    out.show(&run.nodes());
}

/// The graphs of the functions at these entries, and the run over all of them.
fn put_all_graphs(alloc: Global, image: &Image<'_>, entries: &[u32], out: &mut Out)
    requires { IsStrictlyIncreasing entries.now }
{
    let mut graphs = Vec::new(alloc);
    put_graphs(alloc, image, entries, &mut graphs, out);
    put_run(graphs.as_slice(), out);
}

fn put_reached(alloc: Global, image: &Image<'_>, entry: u32, out: &mut Out) {
    if image.size_at(entry).is_none() {
        return out.put("no function");
    }
    match reach(alloc, image, entry) {
        Err(error) => put_error(error, out),
        Ok(entries) => put_all_graphs(alloc, image, entries.as_slice(), out),
    }
}

/// How many nodes a graph has, and its variables.
fn put_extent(alloc: Global, graph: &Graph, out: &mut Out) {
    out.put("nodes ");
    out.show(&graph.len());
    out.put("\nvariables");
    match graph.variables(alloc) {
        Err(_) => out.fail(),
        Ok(variables) => {
            for variable in &variables {
                put_variable(*variable, out);
            }
        }
    }
}

fn put_within(
    alloc: Global,
    image: &Image<'_>,
    entry: u32,
    entries: &[u32],
    maximum: usize,
    out: &mut Out,
)
    requires { IsStrictlyIncreasing entries.now }
{
    if image.size_at(entry).is_none() {
        return out.put("no function");
    }
    match decompile_within(alloc, image, entry, entries, maximum) {
        Err(error) => put_graph_error(error, out),
        Ok(found) => put_extent(alloc, &found.graph, out),
    }
}

fn put_reached_within(alloc: Global, image: &Image<'_>, entry: u32, maximum: usize, out: &mut Out) {
    if image.size_at(entry).is_none() {
        return out.put("no function");
    }
    match reach(alloc, image, entry) {
        Err(error) => put_error(error, out),
        Ok(entries) => put_within(alloc, image, entry, entries.as_slice(), maximum, out),
    }
}

/// The entry of the first function.
fn first_entry(image: &Image<'_>) -> u32 {
    match image.symbol(0) {
        Some(symbol) => symbol.value,
        None => 0,
    }
}

fn put_answer(alloc: Global, asked: &str, image: &Image<'_>, maximum: usize, out: &mut Out) {
    let entry = first_entry(image);
    match asked {
        "graphs" => put_reached(alloc, image, entry, out),
        "within" => put_reached_within(alloc, image, entry, maximum, out),
        "alone" => put_within(alloc, image, entry, &[entry], maximum, out),
        _ => put_code(alloc, image, entry, out),
    }
}

fn put_file(alloc: Global, asked: &str, bytes: &[u8], maximum: usize, out: &mut Out) {
    match read(alloc, bytes) {
        Ok(image) => put_answer(alloc, asked, &image, maximum, out),
        Err(_) => out.put("no executable"),
    }
}

/// The outcome of a row.
pub(crate) fn put_functions(
    alloc: Global,
    asked: &str,
    row: &str,
    out: &mut Out,
) -> Result<(), AllocError> {
    let (maximum, parts) = match asked {
        "within" | "alone" => split(row, ' '),
        _ => ("", row),
    };
    let mut file = Vec::new(alloc);
    put_executable(alloc, parts, &mut file)?;
    put_file(alloc, asked, file.as_slice(), number(maximum), out);
    Ok(())
}
