// What holds of the normal form: each function's clause is one law, and its body is empty.

ghost use Rattle.std.specs.Prelude.{◌≡◌, List, Some, Bool, true};
ghost use Rattle.term_core_spec.specs.declared.Sort.{Sort};
ghost use Rattle.term_core_spec.specs.declared.Variable.{Variable};
ghost use Rattle.term_core_spec.specs.Term.{Term, Occurs};
ghost use Rattle.term_core_spec.specs.Sort.{sort_of};
ghost use Rattle.term_core_spec.specs.Value.{Assignment, IsAssignment, value};
ghost use Rattle.term_core_spec.specs.Same.{same_term};
ghost use Rattle.memory_spec.specs.Runs.{Run, AreBytes};
ghost use Rattle.term_norm_spec.specs.Fixed.{HoldsFixed};
ghost use Rattle.term_norm_spec.specs.Normal.{normal};

/// The normal form of a well-sorted term is of its sort.
pub fn normal_form_has_the_sort()
    ensures { (runs : List Run) → AreBytes runs → (t : Term) (s : Sort) → sort_of t ≡ Some s
        → sort_of (normal runs t) ≡ Some s }
{}

/// The normal form of a well-sorted term has its value, wherever the memories of the source hold
/// the fixed bytes.
pub fn normal_form_has_the_value()
    ensures { (runs : List Run) → AreBytes runs → (t : Term) (s : Sort) → sort_of t ≡ Some s
        → (a : Assignment) → IsAssignment a → HoldsFixed runs a
        → value a (normal runs t) ≡ value a t }
{}

/// A variable of the normal form occurs in the term.
pub fn normal_form_has_no_new_variable()
    ensures { (runs : List Run) (t : Term) (v : Variable) → Occurs v (normal runs t) → Occurs v t }
{}

/// Two terms are found the same exactly where they are equal.
pub fn same_terms_are_equal()
    ensures equal { (s t : Term) → same_term s t ≡ true → s ≡ t }
    ensures same { (t : Term) → same_term t t ≡ true }
{}
