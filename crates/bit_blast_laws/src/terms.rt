//! Laws of the clauses of a goal (`bit_blast_spec`): each function's clause is one law, and its
//! body is empty.
//!
//! A model whose bits of the goal's variables and loads are those of an assignment
//! (`specs/Reads.antt`) gives each of its terms the bits of its value (`specs/Shows.antt`), and the
//! goal is false under the assignment. That each assignment under which the goal is false has such
//! a model is in `models`, that each model has such an assignment in `assignments`.

ghost use Rattle.std.specs.Prelude.{◌≡◌, true, false, [], Some};
ghost use Rattle.clause_check_spec.specs.Clause.{Valuation, satisfies};
ghost use Rattle.term_core_spec.specs.declared.Sort.TheVariants as sort;
ghost use Rattle.term_core_spec.specs.Term.{Term};
ghost use Rattle.term_core_spec.specs.Sort.{sort_of};
ghost use Rattle.term_core_spec.specs.Value.{Truth, Assignment, IsAssignment, value};
ghost use Rattle.bit_blast_spec.specs.Goal.{visit, goal_gates, cnf_of};
ghost use Rattle.bit_blast_laws.specs.Shows.{AllShow};
ghost use Rattle.bit_blast_laws.specs.Reads.{Reads};

/// In a model each term's bits are those of its value under an assignment that has the model's
/// bits.
pub fn terms_have_their_bits()
    ensures { (values : Valuation) (assignment : Assignment) (goal : Term) → IsAssignment assignment
        → sort_of goal ≡ Some sort.Truth
        → satisfies values (cnf_of goal).clauses ≡ true
        → Reads assignment values 0 (goal_gates goal 0).gates
        → AllShow values assignment (visit goal [] 1).out }
{}

/// The goal is false under an assignment that has the bits of a model.
pub fn models_falsify_the_goal()
    ensures { (values : Valuation) (assignment : Assignment) (goal : Term) → IsAssignment assignment
        → sort_of goal ≡ Some sort.Truth
        → satisfies values (cnf_of goal).clauses ≡ true
        → Reads assignment values 0 (goal_gates goal 0).gates
        → value assignment goal ≡ Truth false }
{}
