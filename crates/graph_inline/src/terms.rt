//! Terms of one graph, taken to another.

ghost use Rattle.std.specs.Prelude.{◌≡◌, ◌<◌, true, length, IfOk};
ghost use Rattle.term_bank.specs.Nodes.{Holds, tree_at};
ghost use Rattle.graph_core.specs.Graphs.{Grows};
ghost use Rattle.graph_inline.specs.Marks.{is_marked, AreClosed};
ghost use Rattle.graph_inline.specs.Taken.{named_term, AreTaken, AllTaken};

use crate::naming::name_node;
use attempt::attempt;
use graph_core::Graph;
use std::alloc::{AllocError, Global};
use term_bank::{Bank, TermId};

/// Takes a term, after its arguments, if it is marked.
fn take_term(
    graph: &mut Graph,
    from: &Bank,
    id: TermId,
    marks: &[bool],
    instance: Option<usize>,
    table: &[TermId],
) -> Result<TermId, AllocError>
    requires id { (id < length from.now) × (length table.now ≡ id) }
    requires count { length marks.now ≡ length from.now }
    requires closed { AreClosed 0 from.now marks.now }
    requires taken { AreTaken instance from.now graph.old.trees marks.now table.now }
    ensures taken { is_marked marks.now id ≡ true → IfOk result (λ index.
        Holds graph.new.trees index (named_term instance (tree_at from.now id))) }
    ensures grows { Grows graph.old graph.new }
{
    if !marks[id] {
        return Ok(0);
    }
    let node = name_node(instance, table, from.node(id));
    graph.add_term(node)
}

/// Takes the marked terms of a bank: where each of them is in the graph, whose nodes stay. Their
/// variables belong to the instance, if there is one. Out of memory, the graph may have some of the
/// terms.
pub(crate) fn take_marked(
    alloc: Global,
    graph: &mut Graph,
    from: &Bank,
    marks: &[bool],
    instance: Option<usize>,
) -> Result<Vec<TermId>, AllocError>
    requires count { length marks.now ≡ length from.now }
    requires closed { AreClosed 0 from.now marks.now }
    ensures taken { IfOk result (λ table.
        AreTaken instance from.now graph.new.trees marks.now table.items) }
    ensures count { IfOk result (λ table. length table.items ≡ length from.now) }
    ensures grows { Grows graph.old graph.new }
{
    let mut table = Vec::new(alloc);
    for id in 0..from.len() {
        let index = take_term(graph, from, id, marks, instance, table.as_slice())?;
        table.push(index)?;
    }
    Ok(table)
}

/// Takes all terms of a bank.
pub(crate) fn take_all(
    alloc: Global,
    graph: &mut Graph,
    from: &Bank,
    instance: Option<usize>,
) -> Result<Vec<TermId>, AllocError>
    ensures taken { IfOk result (λ table.
        AllTaken instance from.now graph.new.trees table.items) }
    ensures grows { Grows graph.old graph.new }
{
    let marks = vec![in alloc; true; from.len()]?;
    let table = attempt!(take_marked(alloc, graph, from, marks.as_slice(), instance));
    Ok(table)
}
