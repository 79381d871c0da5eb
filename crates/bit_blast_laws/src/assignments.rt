//! Laws of reconstructing an assignment from a model: each function's clause is one law, and its
//! body is empty.
//!
//! A model of the clauses of a well-sorted goal whose loads are all from memory variables is
//! reconstructed as an assignment (`specs/Back.antt`), and the goal is false under it. Of goals
//! with a load from a memory that is stored to, laid over or chosen nothing is stated here.

ghost use Rattle.std.specs.Prelude.{◌≡◌, true, false, [], Some};
ghost use Rattle.clause_check_spec.specs.Clause.{Valuation, satisfies};
ghost use Rattle.term_core_spec.specs.declared.Sort.TheVariants as sort;
ghost use Rattle.term_core_spec.specs.Term.{Term};
ghost use Rattle.term_core_spec.specs.Sort.{sort_of};
ghost use Rattle.term_core_spec.specs.Value.{Truth, Assignment, IsAssignment, value};
ghost use Rattle.bit_blast_spec.specs.Goal.{visit, goal_gates, cnf_of};
ghost use Rattle.bit_blast_laws.specs.Reads.{Reads};
ghost use Rattle.bit_blast_laws.specs.Back.{TableLoadsFromVariables, read_back};

/// A model has an assignment whose bits it has: the one that is reconstructed.
pub fn models_are_reconstructed()
    ensures { (values : Valuation) (goal : Term) → sort_of goal ≡ Some sort.Truth
        → TableLoadsFromVariables (visit goal [] 1).out
        → satisfies values (cnf_of goal).clauses ≡ true
        → IsAssignment (read_back values (visit goal [] 1).out)
        × Reads (read_back values (visit goal [] 1).out) values 0 (goal_gates goal 0).gates }
{}

/// Where the clauses have a model, the goal is false under some assignment.
pub fn goals_with_models_are_false()
    ensures { (values : Valuation) (goal : Term) → sort_of goal ≡ Some sort.Truth
        → TableLoadsFromVariables (visit goal [] 1).out
        → satisfies values (cnf_of goal).clauses ≡ true
        → (assignment : Assignment) × IsAssignment assignment
        × (value assignment goal ≡ Truth false) }
{}
