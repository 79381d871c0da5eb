// What holds of terms and their values: each function's clause is one law, and its body is empty.

ghost use Rattle.std.specs.Prelude.{◌≡◌, ℕ, Some, List};
ghost use Rattle.std.specs.List.{IsDistinct};
ghost use Rattle.term_core_spec.specs.declared.Sort.{Sort};
ghost use Rattle.term_core_spec.specs.declared.Variable.{Variable};
ghost use Rattle.term_core_spec.specs.Term.{Term, Occurs, open_term};
ghost use Rattle.term_core_spec.specs.Sort.{sort_of};
ghost use Rattle.term_core_spec.specs.Same.{same_term};
ghost use Rattle.term_core_spec.specs.Value.{Assignment, IsAssignment, IsOfSort, value};
ghost use Rattle.term_core_spec.specs.Substitution.{State, substituted, values_of, renamed};
ghost use Rattle.term_core_spec.specs.Substitution.{at_instance};
ghost use Rattle.term_core_spec.specs.Subterms.{subterms, IsIn, IsClosed};

/// The value of a well-sorted term is of its sort.
pub fn values_are_of_their_sort()
    ensures { (a : Assignment) → IsAssignment a → (t : Term) (s : Sort) → sort_of t ≡ Some s
        → IsOfSort s (value a t) }
{}

/// The value of a term depends only on the variables that occur in it.
pub fn values_depend_on_the_variables_that_occur()
    ensures { (a b : Assignment) (t : Term) → ((v : Variable) → Occurs v t → a v ≡ b v)
        → value a t ≡ value b t }
{}

/// Terms put in for variables: the value is that of the term where each variable has the value of
/// its term, and the sort that of the term where each variable's term has the variable's sort.
pub fn substituted_terms_have_the_values()
    ensures value { (a : Assignment) (state : State) (t : Term)
        → value a (substituted state t) ≡ value (values_of a state) t }
    ensures sort { (state : State) (t : Term)
        → ((v : Variable) → Occurs v t → sort_of (state v) ≡ Some v.sort)
        → sort_of (substituted state t) ≡ sort_of t }
    ensures assignment { (a : Assignment) (state : State) → IsAssignment a
        → ((v : Variable) → sort_of (state v) ≡ Some v.sort) → IsAssignment (values_of a state) }
{}

/// Nothing is captured: a variable of the result occurs in the term of a variable that occurs.
pub fn substituted_terms_have_the_variables()
    ensures { (state : State) (t : Term) (w : Variable) → Occurs w (substituted state t)
        → (v : Variable) × Occurs v t × Occurs w (state v) }
{}

/// To rename variables is to put variables in for them.
pub fn renamed_terms_are_substituted()
    ensures substituted { (name : Variable → Variable) (t : Term)
        → renamed name t ≡ substituted (λ v. open_term (name v)) t }
    ensures value { (a : Assignment) (name : Variable → Variable) (t : Term)
        → value a (renamed name t) ≡ value (λ v. a (name v)) t }
{}

/// A term renamed to an instance has its sort, and all its variables belong to the instance.
pub fn renamed_terms_belong_to_their_instance()
    ensures sort { (instance : ℕ) (t : Term)
        → sort_of (renamed (at_instance instance) t) ≡ sort_of t }
    ensures variables { (instance : ℕ) (t : Term) (w : Variable)
        → Occurs w (renamed (at_instance instance) t) → w.instance ≡ instance }
{}

/// The distinct subterms of a term are the least list with the term and, of each term, the
/// arguments; no two are the same.
pub fn subterms_are_the_least_closed_list()
    ensures itself { (t : Term) → IsIn t (subterms t) }
    ensures closed { (t : Term) → IsClosed (subterms t) }
    ensures least { (t : Term) (terms : List Term) → IsClosed terms → IsIn t terms
        → (u : Term) → IsIn u (subterms t) → IsIn u terms }
    ensures distinct { (t : Term) → IsDistinct same_term (subterms t) }
{}
