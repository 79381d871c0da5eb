//! Laws of the gates of a goal and of the models of its clauses (`bit_blast_spec`): each function's
//! clause is one law, and its body is empty.
//!
//! A gate names only variables that were made before it (`specs/Named.antt`), so the clauses of a
//! goal name only its variables, and its gates can be given their values one after the other. For
//! each assignment there are values of the variables under which all gates of a goal's terms have
//! their values, the claims of divisions included, and each term's bits are those of its value.
//! Where a well-sorted goal is false under an assignment, its clauses have a model, whatever its
//! memories are; so where they have none, the goal is true under each assignment. That each model
//! has an assignment, where all loads are from memory variables, is in `assignments`.

ghost use Rattle.std.specs.Prelude.{◌≡◌, true, false, [], Some};
ghost use Rattle.clause_check_spec.specs.Clause.{Valuation, are_of, satisfies};
ghost use Rattle.term_core_spec.specs.declared.Sort.TheVariants as sort;
ghost use Rattle.term_core_spec.specs.Term.{Term};
ghost use Rattle.term_core_spec.specs.Sort.{sort_of};
ghost use Rattle.term_core_spec.specs.Value.{Truth, Assignment, IsAssignment, value};
ghost use Rattle.bit_blast_spec.specs.Goal.{visit, goal_gates, cnf_of};
ghost use Rattle.bit_blast_laws.specs.Meaning.{AllHold};
ghost use Rattle.bit_blast_laws.specs.Shows.{AllShow};
ghost use Rattle.bit_blast_laws.specs.Reads.{Reads};
ghost use Rattle.bit_blast_laws.specs.Named.{GatesName};

/// Each gate names only variables that were made before it.
pub fn gates_name_earlier_variables()
    ensures { (goal : Term) → GatesName 0 (goal_gates goal 0).gates }
{}

/// The clauses name only variables from 1 to the number of the last.
pub fn clauses_are_of_their_variables()
    ensures { (goal : Term) → are_of (cnf_of goal).variables (cnf_of goal).clauses ≡ true }
{}

/// For each assignment there are values under which all gates of the goal's terms have their
/// values, claims included.
pub fn terms_settle_for_each_assignment()
    ensures { (assignment : Assignment) (goal : Term) → IsAssignment assignment
        → sort_of goal ≡ Some sort.Truth
        → (values : Valuation) × (values 1 ≡ true) × AllHold values 1 (visit goal [] 1).gates
        × AllShow values assignment (visit goal [] 1).out }
{}

/// Where a goal is false under an assignment, its clauses have a model with the assignment's bits.
pub fn false_goals_have_models()
    ensures { (assignment : Assignment) (goal : Term) → IsAssignment assignment
        → sort_of goal ≡ Some sort.Truth
        → value assignment goal ≡ Truth false
        → (values : Valuation) × (satisfies values (cnf_of goal).clauses ≡ true)
        × Reads assignment values 0 (goal_gates goal 0).gates }
{}

/// Where the clauses of a goal have no model, it is true under each assignment.
pub fn goals_without_models_are_true()
    ensures { (goal : Term) → sort_of goal ≡ Some sort.Truth
        → ((values : Valuation) → satisfies values (cnf_of goal).clauses ≡ false)
        → (assignment : Assignment) → IsAssignment assignment → value assignment goal ≡ Truth true }
{}
