//! What closing a goal shows. The body is empty: its clause is the law.

ghost use Rattle.std.specs.Prelude.{◌≡◌, true, List, Some};
ghost use Rattle.memory_spec.specs.Runs.{Run, AreBytes};
ghost use Rattle.term_core_spec.specs.declared.Sort.TheVariants as sort;
ghost use Rattle.term_core_spec.specs.Term.{Term};
ghost use Rattle.term_core_spec.specs.Sort.{sort_of};
ghost use Rattle.term_core_spec.specs.Value.{Truth, Assignment, IsAssignment, value};
ghost use Rattle.term_norm_spec.specs.Fixed.{HoldsFixed};
ghost use Rattle.clause_check_spec.specs.Log.{Step};
ghost use Rattle.discharge_spec.specs.Closing.{closing, Closes};

/// A goal that a log closes is true wherever the memories of the source hold the fixed bytes.
pub fn closed_goals_are_true()
    ensures { (runs : List Run) → AreBytes runs → (goal : Term) (log : List Step)
        → sort_of goal ≡ Some sort.Truth → closing runs goal log ≡ Closes
        → (a : Assignment) → IsAssignment a → HoldsFixed runs a → value a goal ≡ Truth true }
{}
