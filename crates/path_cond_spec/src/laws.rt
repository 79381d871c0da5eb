//! What holds of the conditions of a walk's visits: each function's clause is one law, and its body
//! is empty.

ghost use Rattle.std.specs.Prelude.{◌≡◌, ℕ, ◌<◌, true, [], Some, List, length, slice_get};
ghost use Rattle.term_core_spec.specs.Substitution.{State as Terms, values_of};
ghost use Rattle.term_core_spec.specs.Value.{Assignment, IsAssignment};
ghost use Rattle.graph_core_spec.specs.Graph.{Graph, Graphs, IsValid};
ghost use Rattle.graph_core_spec.specs.Run.{Running};
ghost use Rattle.visit_walk_spec.specs.Visits.{Walk, Visit, edges, marks};
ghost use Rattle.path_cond_spec.specs.Junctions.{Junction, junctions};
ghost use Rattle.path_cond_spec.specs.Conditions.{conditionals, conditional_at, conditional_of};
ghost use Rattle.path_cond_spec.specs.Passages.{AreLinked, IsExact, holds};
ghost use Rattle.path_cond_spec.specs.Runs.{GoesOn, IsListed, IsVisitedWhere, IsWalkOver};
ghost use Rattle.path_cond_spec.specs.Runs.{conditional, start_of, AreCounted, AreEnds};
ghost use Rattle.path_cond_spec.specs.Runs.{EndsAs, IsOneOf, Visits};

/// Along the edges between visits a run passes a visit exactly where the condition there is true,
/// and then its values are those of the state there.
pub fn conditions_are_those_of_passages()
    ensures { (g : Graph) (js : List Junction) (start : Terms) (a : Assignment) → IsValid g
        → AreLinked g js → IsAssignment (values_of a start) → (j : ℕ) → j < length js
        → IsExact g js start a j (conditional_at start (conditionals g js start) j) }
{}

/// A run of the graph comes to a visit, before the walk has ended, exactly where the condition of
/// the visit is true, and then it is in the state of the visit.
pub fn a_run_visits_where_the_condition_is_true()
    ensures { (graphs : Graphs) (outermost : ℕ) (g : Graph) (w : Walk) (visits : List Visit)
        (start : Terms) (a : Assignment) → IsWalkOver graphs outermost g w visits
        → IsAssignment (values_of a start) → (j : ℕ) (v : Visit) → slice_get visits j ≡ Some v
        → IsVisitedWhere graphs outermost w (start_of outermost w start a) a v
        (conditional g w visits start j) }
{}

/// As long as its walk hasn't ended, a run is at a visit of the list.
pub fn a_run_is_at_some_visit()
    ensures { (graphs : Graphs) (outermost : ℕ) (g : Graph) (w : Walk) (visits : List Visit)
        (start : Terms) (a : Assignment) → IsWalkOver graphs outermost g w visits
        → IsAssignment (values_of a start) → (k : ℕ)
        → GoesOn graphs outermost w (start_of outermost w start a) k
        → IsListed graphs outermost w visits (start_of outermost w start a) k }
{}

/// Where a run is at a visit, it has stopped exactly at a return and at a stop's visit, it has
/// failed exactly at an error's visit, and it has kept the bounds exactly where the visit is the
/// last arrival that no bound counts.
pub fn a_run_ends_as_its_visit()
    ensures { (graphs : Graphs) (outermost : ℕ) (g : Graph) (w : Walk) (visits : List Visit)
        (first : Assignment) → IsWalkOver graphs outermost g w visits → AreCounted (marks w)
        → (k : ℕ) (v : Visit) (values : Assignment)
        → Visits graphs outermost w (Running outermost w.start first []) k v values
        → EndsAs graphs outermost w (Running outermost w.start first []) k v }
{}

/// Of two visits at which the walk ends, one condition at most is true: a stop's is not true beside
/// another's, the error's, or that of a bounded arrival.
pub fn one_end_is_visited()
    ensures { (g : Graph) (w : Walk) (visits : List Visit) (start : Terms) (a : Assignment)
        (graphs : Graphs) (outermost : ℕ) → IsWalkOver graphs outermost g w visits
        → IsAssignment (values_of a start) → (i j : ℕ) (u v : Visit)
        → slice_get visits i ≡ Some u → slice_get visits j ≡ Some v
        → edges w u ≡ [] → edges w v ≡ []
        → holds a (conditional g w visits start i).condition ≡ true
        → holds a (conditional g w visits start j).condition ≡ true → i ≡ j }
{}

/// Several visits at which the walk ends as one: the condition is true exactly where that of one of
/// them is, and then the state is in effect its state.
pub fn ends_are_united()
    ensures { (graphs : Graphs) (outermost : ℕ) (g : Graph) (w : Walk) (visits : List Visit)
        (start : Terms) (a : Assignment) → IsWalkOver graphs outermost g w visits
        → IsAssignment (values_of a start) → (members : List ℕ) → AreEnds w visits members
        → IsOneOf a (conditional g w visits start) members
        (conditional_of start (conditionals g (junctions w visits) start) members) }
{}
