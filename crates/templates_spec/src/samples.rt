//! The lines of small functions, worked by hand: each function's clause is one fact, and its body
//! is empty.

ghost use Rattle.std.specs.Prelude.{◌≡◌, [], ◌∷◌, ◌++◌, ◌+◌, ◌*◌, length, map, pos, negsuc};
ghost use Rattle.term_core_spec.specs.declared.Width.TheVariants.{W32, W64};
ghost use Rattle.term_core_spec.specs.Term.{add, byte, equal, join_four, less, low, multiply};
ghost use Rattle.term_core_spec.specs.Term.{not_term, open_term, zero_extend};
ghost use Rattle.c_graph_spec.specs.State.{number};
ghost use Rattle.sim_rules_spec.specs.Calling.{at_entry};
ghost use Rattle.templates_spec.specs.Facts.{compared_of, depths_of};
ghost use Rattle.templates_spec.specs.Templates.{all_words, below_entry, distance, local_lines};
ghost use Rattle.templates_spec.specs.Templates.{order_lines, register, registers, slot, slots};
ghost use Rattle.templates_spec.specs.Templates.{sum_lines, template};
ghost use Rattle.templates_spec.specs.Samples.{bare, byte_local, counting, long_local, loops};
ghost use Rattle.templates_spec.specs.Samples.{parameter, saving, unsigned_local, wide};

/// Of a function without stack and locals, of which nothing is known at entry: two lines.
pub fn lines_of_a_bare_function()
    ensures { template bare ≡ equal (register 2) (below_entry 0)
        ∷ equal (register 8) (below_entry 0) ∷ [] }
{}

/// Both pointers at both depths; then each register, and the one word that is in the stack, as x1
/// was at entry. The other word is above the stack.
pub fn lines_of_a_function_that_saves()
    ensures words { slots saving ≡ 4 ∷ [] }
    ensures lines { template saving ≡ equal (register 2) (below_entry 0)
        ∷ equal (register 2) (below_entry 16) ∷ equal (register 8) (below_entry 0)
        ∷ equal (register 8) (below_entry 16)
        ∷ (map (λ r. equal (register r) (at_entry 1)) registers
        ++ equal (slot 4) (at_entry 1) ∷ []) }
{}

/// A place may have the value of the local, or a sum of the parameter or of the local itself with
/// the local, scaled; and each of the two that are compared may be at most the other.
pub fn lines_of_a_function_that_counts()
    ensures value { local_lines counting (register 10 ∷ [])
        ≡ equal (register 10) (open_term (unsigned_local 0).variable) ∷ [] }
    ensures sums { sum_lines counting (register 10 ∷ [])
        ≡ map (λ s. equal (register 10) (add (open_term parameter.variable)
        (multiply (number s) (open_term (unsigned_local 0).variable)))) (1 ∷ 2 ∷ 4 ∷ 8 ∷ [])
        ++ map (λ s. equal (register 10) (add (open_term (unsigned_local 0).variable)
        (multiply (number s) (open_term (unsigned_local 0).variable)))) (1 ∷ 2 ∷ 4 ∷ 8 ∷ []) }
    ensures order { order_lines counting
        ≡ not_term (less (open_term (unsigned_local 1).variable)
        (open_term (unsigned_local 0).variable))
        ∷ not_term (less (open_term (unsigned_local 0).variable)
        (open_term (unsigned_local 1).variable)) ∷ [] }
    ensures count { length (template counting) ≡ 2 + 30 + 30 * 2 * 4 + 2 }
{}

/// A byte is widened; a local of 64 bits is its low word and then its high one. Compared, both are
/// widened to 64 bits.
pub fn lines_of_a_function_with_a_wide_local()
    ensures values { all_words wide.locals
        ≡ zero_extend W32 (open_term (byte_local 0).variable)
        ∷ low W32 (open_term (long_local 1).variable)
        ∷ join_four (byte 4 (open_term (long_local 1).variable))
        (byte 5 (open_term (long_local 1).variable))
        (byte 6 (open_term (long_local 1).variable))
        (byte 7 (open_term (long_local 1).variable)) ∷ [] }
    ensures order { order_lines wide
        ≡ not_term (less (open_term (long_local 1).variable)
        (zero_extend W64 (open_term (byte_local 0).variable)))
        ∷ not_term (less (zero_extend W64 (open_term (byte_local 0).variable))
        (open_term (long_local 1).variable)) ∷ [] }
{}

/// Depths are 0 and the partial sums; a word saved at an offset of -4 from a frame pointer that is
/// where the stack pointer was is 4 below it.
pub fn depths_and_distances()
    ensures depths { depths_of (record { opening = 16; saved = [] }
        ∷ record { opening = 32; saved = [] } ∷ []) ≡ 0 ∷ 16 ∷ 48 ∷ [] }
    ensures above { distance 16 (pos 12) ≡ 4 }
    ensures below { distance 0 (negsuc 3) ≡ 4 }
{}

/// The test of the outer loop compares two locals, that of the inner one a local and a constant.
pub fn locals_that_tests_compare()
    ensures { compared_of loops ≡ (0, 1) ∷ [] }
{}
