// What holds of flat terms: each function's clause is one law, and its body is empty.

ghost use Rattle.std.specs.Prelude.{◌≡◌, ◌↔◌, true, false, Some};
ghost use Rattle.term_core_spec.specs.declared.Sort.TheVariants as sort;
ghost use Rattle.term_core_spec.specs.Term.{Term};
ghost use Rattle.term_core_spec.specs.Sort.{sort_of};
ghost use Rattle.term_core_spec.specs.Value.{Truth, Assignment, IsAssignment, value};
ghost use Rattle.mem_terms_spec.specs.Flat.{loads_of, flat_loads, flat_of};
ghost use Rattle.mem_terms_spec.specs.Assignments.{with_bytes, rebuilt, LoadsFromVariables};
ghost use Rattle.mem_terms_spec.specs.Assignments.{IsWithoutMemory};
ghost use Rattle.mem_terms_spec.specs.Assignments.{HasNoBytes, IsAlwaysTrue};

/// The flat term is a truth value, and neither a load nor a memory variable occurs in it.
pub fn flat_terms_have_no_memory()
    ensures sort { (t : Term) → sort_of t ≡ Some sort.Truth → LoadsFromVariables t
        → sort_of (flat_of t) ≡ Some sort.Truth }
    ensures memory { (t : Term) → sort_of t ≡ Some sort.Truth → LoadsFromVariables t
        → IsWithoutMemory (flat_of t) }
{}

/// Where the term is false, so is the flat term, each byte being what its load gives.
pub fn loaded_bytes_make_flat_terms_false()
    ensures assignment { (t : Term) → sort_of t ≡ Some sort.Truth → LoadsFromVariables t
        → (a : Assignment) → IsAssignment a → IsAssignment (with_bytes (loads_of t) a) }
    ensures value { (t : Term) → sort_of t ≡ Some sort.Truth → LoadsFromVariables t → HasNoBytes t
        → (a : Assignment) → IsAssignment a → value a t ≡ Truth false
        → value (with_bytes (loads_of t) a) (flat_of t) ≡ Truth false }
{}

/// Where the flat term is false, so is the term, each memory giving the bytes that its loads have.
pub fn rebuilt_memories_make_terms_false()
    ensures assignment { (t : Term) → sort_of t ≡ Some sort.Truth → LoadsFromVariables t
        → (a : Assignment) → IsAssignment a → IsAssignment (rebuilt (flat_loads t) a) }
    ensures value { (t : Term) → sort_of t ≡ Some sort.Truth → LoadsFromVariables t
        → (a : Assignment) → IsAssignment a → value a (flat_of t) ≡ Truth false
        → value (rebuilt (flat_loads t) a) t ≡ Truth false }
{}

/// A term is true under every assignment exactly where its flat term is.
pub fn flat_terms_are_equally_valid()
    ensures { (t : Term) → sort_of t ≡ Some sort.Truth → LoadsFromVariables t → HasNoBytes t
        → IsAlwaysTrue t ↔ IsAlwaysTrue (flat_of t) }
{}
