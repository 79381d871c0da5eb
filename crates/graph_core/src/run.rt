//! The run of a set of graphs, as a transition system.

ghost use Rattle.std.specs.Prelude.{◌≡◌, ◌<◌, ℕ, List, Option, false};
ghost use Rattle.term_core_spec.specs.declared.Variable.{Variable};
ghost use Rattle.graph_core_spec.specs.TransitionSystem.{after};
ghost use Rattle.graph_core_spec.specs.Graph.{node_count};
ghost use Rattle.graph_core_spec.specs.Fixed.{AlwaysHoldsFixed};
ghost use Rattle.graph_core_spec.specs.Sorts.{IsSorted};
ghost use Rattle.graph_core_spec.specs.Run as spec;
ghost use Rattle.graph_core_spec.proofs.Walks as proved;
ghost use Rattle.graph_core_spec.proofs.Sorts.{stays_sorted};
ghost use Rattle.graph_core.specs.Graphs.{graphs_of};

use crate::graph::Graph;
use crate::walks::Walks;

/// The run of one graph of a set, the outermost, which calls others of it (`graph_core_spec`,
/// `specs/Run.antt`).
#[derive(Clone, Copy)]
pub struct GraphRun<'a> {
    /// The set; a call names the callee by its index.
    pub graphs: &'a [Graph],
    /// The index of the outermost graph.
    pub outermost: usize,
}

impl<'a> Walks for GraphRun<'a> {
    ghost State = { spec.State };

    ghost system = { λ run. spec.system_of (graphs_of run.graphs.now) run.outermost };

    ghost leads = { λ run. spec.IsPath (graphs_of run.graphs.now) run.outermost };

    ghost lands = { λ run. spec.Lands (graphs_of run.graphs.now) run.outermost };

    ghost fine = { λ run. IsSorted (graphs_of run.graphs.now) };

    ghost count = { λ run. node_count (graphs_of run.graphs.now) run.outermost };

    ghost is_system = { λ run. proved.is_system (graphs_of run.graphs.now) run.outermost
        (IsSorted (graphs_of run.graphs.now)) (stays_sorted (graphs_of run.graphs.now)) };

    fn nodes(&self) -> usize {
        match self.graphs.get(self.outermost) {
            Some(graph) => graph.len(),
            None => 0,
        }
    }
}

/// Where the graphs are valid and each variable has a value of its sort, this is so after every
/// number of steps.
pub fn valid_run_keeps_sorts(run: &GraphRun<'_>)
    ensures { (s : spec.State) (k : ℕ) → IsSorted (graphs_of run.now.graphs.now) s
        → IsSorted (graphs_of run.now.graphs.now)
        (after (spec.system_of (graphs_of run.now.graphs.now) run.now.outermost) k s) }
{}

/// What a function does doesn't depend on who waits for it: until it returns, its run with more
/// functions waiting after it is its run alone, and where it returns the first of them continues.
pub fn callee_runs_as_alone(run: &GraphRun<'_>)
    ensures { (s : spec.State) (rest : List spec.Waiting) (k : ℕ)
        → ((j : ℕ) → j < k → spec.has_returned
        (after (spec.system_of (graphs_of run.now.graphs.now) run.now.outermost) j s) ≡ false)
        → after (spec.system_of (graphs_of run.now.graphs.now) run.now.outermost) k
        (spec.with_waiting rest s) ≡ spec.with_waiting rest
        (after (spec.system_of (graphs_of run.now.graphs.now) run.now.outermost) k s) }
{}

/// That the memory of a variable always holds fixed bytes is a property that steps keep, whatever
/// the graphs are.
pub fn steps_keep_fixed_bytes(run: &GraphRun<'_>)
    ensures { (fixed : ℕ → Option ℕ) (memory : Variable) (s : spec.State)
        → AlwaysHoldsFixed (graphs_of run.now.graphs.now) run.now.outermost fixed memory s
        → AlwaysHoldsFixed (graphs_of run.now.graphs.now) run.now.outermost fixed memory
        (spec.step (graphs_of run.now.graphs.now) s) }
{}
