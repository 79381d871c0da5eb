//! What loops are: each function's clause is one law, and its body is empty.

ghost use Rattle.std.specs.Prelude.{◌≡◌, ℕ, List, Contains};
ghost use Rattle.graph_core_spec.specs.Graph.{Graph};
ghost use Rattle.visit_walk_spec.specs.DepthFirst.{Leads, IsOnCycle};
ghost use Rattle.loop_find_spec.specs.Cycles.{IsCycle, Share};
ghost use Rattle.loop_find_spec.specs.Loops.{AreLoops, nodes_from};

/// A graph has one list of loops.
pub fn one_list()
    ensures { (g : Graph) (xs ys : List ℕ) → AreLoops g xs → AreLoops g ys → xs ≡ ys }
{}

/// Each cycle to which the entry leads has a loop's head on it.
pub fn each_cycle_has_a_head()
    ensures { (g : Graph) (heads over : List ℕ) (x : ℕ) → AreLoops g heads
        → Leads (nodes_from g) g.entry x → IsCycle (nodes_from g) x over → Share over heads }
{}

/// Each loop's head is on a cycle, and the entry leads to it.
pub fn each_head_is_on_a_cycle()
    ensures reached { (g : Graph) (heads : List ℕ) (x : ℕ) → AreLoops g heads
        → Contains heads x → Leads (nodes_from g) g.entry x }
    ensures cyclic { (g : Graph) (heads : List ℕ) (x : ℕ) → AreLoops g heads
        → Contains heads x → IsOnCycle (nodes_from g) x }
{}
