//! Graphs of small functions, node by node, counted by hand.

ghost use Rattle.std.specs.Prelude.{◌≡◌, ◌∷◌, []};
ghost use Rattle.term_core_spec.specs.Term.{Term, and_term};
ghost use Rattle.c_graph_spec.specs.Guards as guards;
ghost use Rattle.c_graph_laws.specs.Samples.{nodes, points, straight, straight_nodes};
ghost use Rattle.c_graph_laws.specs.Samples.{choice, choice_nodes, while_loop, while_nodes};
ghost use Rattle.c_graph_laws.specs.Samples.{while_points, for_loop, for_nodes, do_loop};
ghost use Rattle.c_graph_laws.specs.Samples.{do_nodes, do_points, switch_body, switch_nodes};
ghost use Rattle.c_graph_laws.specs.Samples.{conjunction, conjunction_nodes, store_body};
ghost use Rattle.c_graph_laws.specs.Samples.{store_nodes, call_body, call_nodes};

/// A sum whose overflow is tested, and a choice: the tests of an expression come before the node
/// that uses it.
pub fn straight_code_has_nodes()
    ensures { (nodes straight ≡ straight_nodes) × (nodes choice ≡ choice_nodes) }
{}

/// Each loop with `break` and `continue`, and the empty nodes at its test and at its body:
/// `continue` goes to the test of a `while` and of a `do`, and to the step of a `for`.
pub fn loops_have_nodes()
    ensures { (nodes while_loop ≡ while_nodes) × (nodes for_loop ≡ for_nodes)
        × (nodes do_loop ≡ do_nodes) × (points while_loop ≡ while_points)
        × (points do_loop ≡ do_points) }
{}

/// A `switch` tests its values in order; a group ends at the end of the `switch`, and where there
/// is no other value, the group with `default` is taken.
pub fn a_switch_has_nodes()
    ensures { nodes switch_body ≡ switch_nodes }
{}

/// The tests of the right operand of `&&` are under that of the left one.
pub fn an_arm_is_tested_where_it_is_taken()
    ensures { nodes conjunction ≡ conjunction_nodes }
{}

/// A store through a pointer tests the access, then the zone, then the fixed bytes.
pub fn a_store_is_tested()
    ensures { nodes store_body ≡ store_nodes }
{}

/// The test of the fixed bytes is a conjunction by halves, so it nests only as deep as the number
/// of runs can be halved.
pub fn a_conjunction_is_by_halves()
    ensures { (s t u v w : Term) → guards.conjunction (s ∷ t ∷ u ∷ v ∷ w ∷ [])
        ≡ and_term (and_term s t) (and_term u (and_term v w)) }
{}

/// A call binds the parameters, which are set, and the zone; its result is converted to the local
/// that it is put into.
pub fn a_call_has_nodes()
    ensures { nodes call_body ≡ call_nodes }
{}
