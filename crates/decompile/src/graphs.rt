//! The graph of a function.

ghost use Rattle.std.specs.Prelude.{◌≡◌, ◌≤◌, ◌-◌, ◌^◌, ℕ, length, map, IfOk, IfErr, IsSome, All};
ghost use Rattle.std.specs.Prelude.{Some};
ghost use Rattle.std.specs.List.Sorted.{IsStrictlyIncreasing};
ghost use Rattle.elf_read_spec.specs.Image.{size_at};
ghost use Rattle.graph_core.specs.Graphs.{graph_of};
ghost use Rattle.decompile.specs.Answer.{AreFirsts, IsFunctionGraph};
ghost use Rattle.decompile.specs.Callees.{IsListed};
ghost use Rattle.decompile.specs.Errors.{IsGraphError};
ghost use Rattle.decompile.specs.Items.{AreInstructions};

use crate::callees::check_callees;
use crate::error::{GraphFault, without_code};
use crate::function::Function;
use crate::items::{Item, instructions};
use crate::numbers::{Counting, count_nodes, first_nodes};
use crate::runs::runs;
use attempt::{Refusal, attempt};
use decompile_laws::layout::laid_are_code_graphs;
use decompile_laws::validity::code_graphs_are_valid;
use elf_read::Image;
use graph_core::{Graph, Node};
use graph_core_spec::Next;
use indexmap::IndexMap;
use std::alloc::{AllocError, Global};

/// The graph of a function, and where its instructions are in it.
#[derive(Drop)]
pub struct CodeGraph {
    /// The graph. A call's callee is an index in the list of entries.
    pub graph: Graph,
    /// The address of each instruction that the function reaches, ascending, and the number of its
    /// first node.
    pub firsts: IndexMap<u32, usize>,
}

impl Function<'_> {
    ghost use Rattle.std.specs.Prelude.{◌≡◌, map, IfOk, OnOk};
    ghost use Rattle.graph_core_spec.specs.Graph.{empty};
    ghost use Rattle.decompile_laws.specs.Layout.{laid};
    ghost use Rattle.graph_core.specs.Graphs.{graph_of as seen};
    ghost use Rattle.decompile.specs.Items.{item_of};
    ghost use Rattle.decompile.specs.Settings.{setting_of};

    /// Adds to a graph without nodes those of some instructions: a landing node at the entry, and
    /// the nodes of each in order.
    fn add_blocks(
        &self,
        alloc: Global,
        image: &Image<'_>,
        graph: &mut Graph,
        items: &[Item],
    ) -> Result<(), AllocError>
        requires { seen graph.old ≡ empty }
        ensures { OnOk result (seen graph.new
            ≡ laid (setting_of self.now) (map (item_of image.now) items.now)) }
    {
        let first = self.node(self.entry, 0)?;
        graph.add(Node::Basic {
            bindings: Vec::new(alloc),
            next: Next::At(first),
        })?;
        for item in items {
            self.add_block(alloc, image, graph, item)?;
        }
        Ok(())
    }

    /// The graph of some instructions.
    fn graph(&self, alloc: Global, image: &Image<'_>, items: &[Item]) -> Result<Graph, AllocError>
        ensures { IfOk result (λ graph. seen graph
            ≡ laid (setting_of self.now) (map (item_of image.now) items.now)) }
    {
        let mut graph = Graph::new(alloc);
        attempt!(self.add_blocks(alloc, image, &mut graph, items));
        Ok(graph)
    }
}

/// The instructions that the function at an entry reaches, where each function that it calls is
/// listed.
fn listed_instructions(
    alloc: Global,
    image: &Image<'_>,
    entry: u32,
    size: u32,
    entries: &[u32],
) -> Result<Vec<Item>, Refusal<GraphFault>>
    requires function { size_at image.now entry ≡ Some size }
    requires rising { IsStrictlyIncreasing entries.now }
    ensures found { IfOk result (λ items. AreInstructions image.now entry items.items
        × All (IsListed image.now entry size entries.now) items.items) }
    ensures fault { IfErr result (λ error. (maximum : ℕ)
        → IsGraphError image.now entry entries.now maximum error) }
{
    let items = match instructions(alloc, image, entry) {
        Ok(items) => items,
        Err(refusal) => return Err(without_code(refusal)),
    };
    check_callees(entry, size, items.as_slice(), entries)?;
    Ok(items)
}

/// The graph of the function at an entry, if it has at most so many nodes; they are counted before
/// anything of it is built. A call of another function names its graph by the index of its entry
/// among `entries`, which ascend and have each function that is called. The error is, in this
/// order, the first fault of the function's own, as that of [`code_reach::code`]; the first call
/// whose callee isn't listed; and a number of nodes above the maximum.
pub fn decompile_within(
    alloc: Global,
    image: &Image<'_>,
    entry: u32,
    entries: &[u32],
    maximum: usize,
) -> Result<CodeGraph, Refusal<GraphFault>>
    requires function { IsSome (size_at image.now entry) }
    requires rising { IsStrictlyIncreasing entries.now }
    ensures graph { IfOk result (λ found. IsFunctionGraph image.now entry entries.now
        (graph_of found.graph) found.firsts.entries) }
    ensures firsts { IfOk result (λ found. AreFirsts image.now entry found.firsts.entries) }
    ensures within { IfOk result (λ found. length (graph_of found.graph).nodes ≤ maximum) }
    ensures error { IfErr result (IsGraphError image.now entry entries.now maximum) }
{
    let size = image.size_at(entry).unwrap();
    let items = listed_instructions(alloc, image, entry, size, entries)?;
    let runs = runs(alloc, image)?;
    // laws, of which nothing runs
    laid_are_code_graphs();
    code_graphs_are_valid();
    let extents = runs.len();
    let by = Counting {
        entry,
        size,
        runs: extents,
    };
    count_nodes(by, items.as_slice(), maximum)?;
    let firsts = first_nodes(alloc, by, items.as_slice())?;
    let function = Function {
        entry,
        size,
        runs: runs.as_slice(),
        entries,
        firsts: &firsts,
    };
    let graph = function.graph(alloc, image, items.as_slice())?;
    Ok(CodeGraph { graph, firsts })
}

/// The graph of the function at an entry, whatever its size; as [`decompile_within`].
pub fn decompile(
    alloc: Global,
    image: &Image<'_>,
    entry: u32,
    entries: &[u32],
) -> Result<CodeGraph, Refusal<GraphFault>>
    requires function { IsSome (size_at image.now entry) }
    requires rising { IsStrictlyIncreasing entries.now }
    ensures graph { IfOk result (λ found. IsFunctionGraph image.now entry entries.now
        (graph_of found.graph) found.firsts.entries) }
    ensures firsts { IfOk result (λ found. AreFirsts image.now entry found.firsts.entries) }
    ensures error { IfErr result (IsGraphError image.now entry entries.now (2 ^ 64 - 1)) }
{
    let found = attempt!(decompile_within(alloc, image, entry, entries, usize::MAX));
    Ok(found)
}
