//! Laws of goals and of their normal forms (`term_norm_spec`): each function's clause is one law,
//! and its body is empty.
//!
//! Each load in the normal form of a well-sorted term has a variable as its memory: none that is
//! stored to, laid over or chosen. So the laws of `mem_terms_spec` hold of normal forms, and a
//! model of the clauses of a normal form is reconstructed as an assignment that makes the normal
//! form false. The clauses know only those fixed bytes whose addresses were constants;
//! `specs/Held.antt` lays all of them over the memories of the source. Where each load of a fixed
//! address gives the fixed byte already, the goal itself is then false; where one doesn't, the goal
//! can be true under each assignment that holds the fixed bytes.

ghost use Rattle.std.specs.Prelude.{◌≡◌, true, false, List, [], Some};
ghost use Rattle.clause_check_spec.specs.Clause.{Valuation, satisfies};
ghost use Rattle.term_core_spec.specs.declared.Sort.{Sort};
ghost use Rattle.term_core_spec.specs.declared.Sort.TheVariants as sort;
ghost use Rattle.term_core_spec.specs.Term.{Term};
ghost use Rattle.term_core_spec.specs.Sort.{sort_of};
ghost use Rattle.term_core_spec.specs.Value.{Truth, Assignment, IsAssignment, value};
ghost use Rattle.memory_spec.specs.Runs.{Run, AreBytes};
ghost use Rattle.term_norm_spec.specs.Fixed.{HoldsFixed};
ghost use Rattle.term_norm_spec.specs.Normal.{normal};
ghost use Rattle.mem_terms_spec.specs.Assignments.{LoadsFromVariables};
ghost use Rattle.bit_blast_spec.specs.Goal.{visit, cnf_of};
ghost use Rattle.bit_blast_laws.specs.Back.{TableLoadsFromVariables, read_back};
ghost use Rattle.bit_blast_laws.specs.Held.{held, ReadsFixed};

/// The normal form of a well-sorted term loads from variables alone, as the laws of flat terms ask.
pub fn normal_forms_load_from_variables()
    ensures { (runs : List Run) → AreBytes runs → (t : Term) (s : Sort) → sort_of t ≡ Some s
        → LoadsFromVariables (normal runs t) }
{}

/// Each load in the table of a goal's normal form is from a variable.
pub fn normal_goals_load_from_variables()
    ensures { (runs : List Run) → AreBytes runs → (goal : Term) → sort_of goal ≡ Some sort.Truth
        → TableLoadsFromVariables (visit (normal runs goal) [] 1).out }
{}

/// Where the clauses of a goal's normal form have a model, it is false under some assignment.
pub fn normal_goals_with_models_are_false()
    ensures { (runs : List Run) → AreBytes runs → (values : Valuation) (goal : Term)
        → sort_of goal ≡ Some sort.Truth
        → satisfies values (cnf_of (normal runs goal)).clauses ≡ true
        → (assignment : Assignment) × IsAssignment assignment
        × (value assignment (normal runs goal) ≡ Truth false) }
{}

/// With the fixed bytes over them, the memories of the source hold these.
pub fn fixed_bytes_are_laid_over_memories()
    ensures { (runs : List Run) → AreBytes runs → (assignment : Assignment)
        → IsAssignment assignment
        → IsAssignment (held runs assignment) × HoldsFixed runs (held runs assignment) }
{}

/// Where the clauses of a goal's normal form have a model in which each load of a fixed address
/// reads the fixed byte, the goal is false under the assignment that is reconstructed, with the
/// fixed bytes over its memories.
pub fn reconstructed_models_falsify_the_goal()
    ensures { (runs : List Run) → AreBytes runs → (values : Valuation) (goal : Term)
        → sort_of goal ≡ Some sort.Truth
        → satisfies values (cnf_of (normal runs goal)).clauses ≡ true
        → ReadsFixed runs (read_back values (visit (normal runs goal) [] 1).out) (normal runs goal)
        → value (held runs (read_back values (visit (normal runs goal) [] 1).out)) goal
        ≡ Truth false }
{}
