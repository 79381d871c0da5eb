//! Examples worked by hand.

ghost use Rattle.std.specs.Prelude.{◌≡◌, ℕ, ℤ, List, [], ◌∷◌, Option, Some, None, pos, negsuc, Ok};
ghost use Rattle.std.specs.Prelude.{Err};
ghost use Rattle.memory_spec.specs.Memory.{Memory};
ghost use Rattle.c_types_spec.specs.declared.Arithmetic.TheVariants as arithmetic;
ghost use Rattle.c_types_spec.specs.declared.Direction.TheVariants.{Up, Down};
ghost use Rattle.c_types_spec.specs.declared.Order.TheVariants.{PointerFirst, IndexFirst};
ghost use Rattle.c_types_spec.specs.Types.{int, unsigned_int, word, scalar};
ghost use Rattle.c_types_spec.specs.Core.{Core, ReadLocal, GlobalAddress, Load, Operate, Move};
ghost use Rattle.c_types_spec.specs.Core.{Within, Aligned, Choose};
ghost use Rattle.c_run_spec.specs.declared.Guard.TheVariants as guard;
ghost use Rattle.c_run_spec.specs.Calls.{More, Broke, Back};
ghost use Rattle.c_run_laws.specs.Samples.{run, value_in, number, signed, one_by_zero, byte};
ghost use Rattle.c_run_laws.specs.Samples.{sums, counts, skips, never_ends, forgets, switches};
ghost use Rattle.c_run_laws.specs.Samples.{chain, divides, owes, stores, writes};

/// `4 + 3 + 2 + 1` takes six turns: one for the call, and one before each of five tests.
pub fn a_loop_sums()
    ensures { (memory : Memory) → (run (sums ∷ []) (pos 4) memory 6 ≡ Back (Some (pos 10)) memory)
        × (run (sums ∷ []) (pos 4) memory 5 ≡ More) }
{}

/// A `do` takes a turn before its body: three bodies and the call take four.
pub fn a_do_counts()
    ensures { (memory : Memory) → (run (counts ∷ []) (pos 3) memory 4 ≡ Back (Some (pos 3)) memory)
        × (run (counts ∷ []) (pos 3) memory 3 ≡ More) }
{}

/// `continue` goes to the step of a `for`, and `break` leaves it before its fifth test.
pub fn a_for_is_left()
    ensures { (memory : Memory) → (run (skips ∷ []) (pos 40) memory 5 ≡ Back (Some (pos 42)) memory)
        × (run (skips ∷ []) (pos 40) memory 4 ≡ More) }
{}

/// A loop without end takes every turn.
pub fn a_loop_never_ends()
    ensures { (memory : Memory) → run (never_ends ∷ []) (pos 0) memory 9 ≡ More }
{}

/// The group with the value is taken, wherever it is, else that with `default`.
pub fn a_switch_chooses()
    ensures { (memory : Memory)
        → (run (switches ∷ []) (pos 1) memory 1 ≡ Back (Some (pos 10)) memory)
        × (run (switches ∷ []) (pos 3) memory 1 ≡ Back (Some (pos 20)) memory)
        × (run (switches ∷ []) (pos 4) memory 1 ≡ Back (Some (pos 0)) memory) }
{}

/// Three calls take three turns; 601 as an `unsigned char` is 89.
pub fn calls_are_nested()
    ensures { (memory : Memory) → (run chain (pos 5) memory 3 ≡ Back (Some (pos 89)) memory)
        × (run chain (pos 5) memory 2 ≡ More) }
{}

/// The turn of a call is taken after its arguments are evaluated.
pub fn arguments_come_before_the_turn()
    ensures { (memory : Memory) → run (divides ∷ []) (pos 0) memory 1 ≡ Broke guard.Division 23 }
{}

/// Guard 1: a local without value, also where it had one the last time its declaration was reached.
pub fn an_unset_local_is_not_read()
    ensures { (memory : Memory)
        → (value_in memory (ReadLocal unsigned_int 1 8) ≡ Err (guard.UnsetLocal, 8))
        × (run (forgets ∷ []) (pos 0) memory 9 ≡ Broke guard.UnsetLocal 55) }
{}

/// Guard 2: 2147483647 + 1, and the negation of -2147483648; an unsigned sum wraps.
pub fn a_signed_sum_does_not_overflow()
    ensures { (memory : Memory)
        → (value_in memory (Operate arithmetic.Add int (signed (pos 2147483647)) (signed
        (pos 1)) 8) ≡ Err (guard.SignedOverflow, 8))
        × (value_in memory (Operate arithmetic.Subtract int (signed (pos 0))
        (signed (negsuc 2147483647)) 8) ≡
        Err (guard.SignedOverflow, 8))
        × (value_in memory (Operate arithmetic.Add unsigned_int (number 4294967295) (number 1) 8)
        ≡ Ok (pos 0)) }
{}

/// Guard 3: 1 / 0, and -2147483648 by -1; -7 / 2 is -3.
pub fn a_quotient_exists()
    ensures { (memory : Memory) → (value_in memory (one_by_zero 8) ≡ Err (guard.Division, 8))
        × (value_in memory (Operate arithmetic.Remainder int (signed (negsuc 2147483647))
        (signed (negsuc 0)) 8)
        ≡ Err (guard.Division, 8))
        × (value_in memory (Operate arithmetic.Divide int (signed (negsuc 6)) (signed (pos 2)) 8)
        ≡ Ok (negsuc 2)) }
{}

/// Guard 4: counts of 32 and of -1.
pub fn a_shift_count_is_below_the_width()
    ensures { (memory : Memory)
        → (value_in memory (Operate arithmetic.ShiftLeft int (signed (pos 1)) (signed (pos
        32)) 8) ≡ Err (guard.ShiftCount, 8))
        × (value_in memory (Operate arithmetic.ShiftRight int (signed (pos 1)) (signed (negsuc 0))
        8) ≡ Err
        (guard.ShiftCount, 8)) }
{}

/// Guard 5: an `unsigned` at 0, at 402 and past the addresses, and `->` on 0 and on 402; guard 6:
/// an `unsigned` at 100.
pub fn an_object_is_read()
    ensures { (memory : Memory)
        → (value_in memory (Load unsigned_int (number 0) 0 8) ≡ Err (guard.Access, 8))
        × (value_in memory (Load unsigned_int (GlobalAddress []) 2 8) ≡ Err (guard.Access, 8))
        × (value_in memory (Load byte (number 4294967295) 1 8) ≡ Err (guard.Access, 8))
        × (value_in memory (Aligned 4 (number 0) 8) ≡ Err (guard.Access, 8))
        × (value_in memory (Aligned 4 (number 402) 8) ≡ Err (guard.Access, 8))
        × (value_in memory (Load unsigned_int (number 100) 0 8) ≡ Err (guard.BarredZone, 8)) }
{}

/// Of a write guard 5 comes before guard 6, and that before guard 7; the read in `+=` comes first.
pub fn guards_of_a_write_have_an_order()
    ensures { (memory : Memory) → (run (writes ∷ []) (pos 154) memory 1 ≡ Broke guard.Access 40)
        × (run (writes ∷ []) (pos 152) memory 1 ≡ Broke guard.BarredZone 40)
        × (run (writes ∷ []) (pos 300) memory 1 ≡ Broke guard.FixedByte 40)
        × (run (stores ∷ []) (pos 152) memory 1 ≡ Broke guard.BarredZone 41)
        × (run (stores ∷ []) (pos 300) memory 1 ≡ Broke guard.FixedByte 40) }
{}

/// Guard 8: 4294967292 + 1 element of 4 bytes, and 4 - 2 of them.
pub fn a_pointer_stays_an_address()
    ensures { (memory : Memory)
        → (value_in memory (Move Up PointerFirst 4 (number 4294967292) (signed (pos 1)) 8)
        ≡ Err (guard.PointerRange, 8))
        × (value_in memory (Move Down PointerFirst 4 (number 4) (signed (pos 2)) 8)
        ≡ Err (guard.PointerRange, 8))
        × (value_in memory (Move Up PointerFirst 4 (number 400) (signed (negsuc 0)) 8)
        ≡ Ok (pos 396)) }
{}

/// Guard 9: the indices -1 and 3 of three elements.
pub fn an_index_is_below_its_bound()
    ensures { (memory : Memory)
        → (value_in memory (Within 3 (signed (negsuc 0)) 8) ≡ Err (guard.Index, 8))
        × (value_in memory (Within 3 (signed (pos 3)) 8) ≡ Err (guard.Index, 8))
        × (value_in memory (Within 3 (signed (pos 2)) 8) ≡ Ok (pos 2)) }
{}

/// Guard 10.
pub fn a_value_is_returned()
    ensures { (memory : Memory) → run (owes ∷ []) (pos 0) memory 1 ≡ Broke guard.MissingReturn 23 }
{}

/// The first guard that is broken counts, from left to right; the operand that isn't chosen breaks
/// none.
pub fn guards_are_broken_in_order()
    ensures { (memory : Memory)
        → (value_in memory (Operate arithmetic.Add unsigned_int (ReadLocal unsigned_int 1 5)
        (one_by_zero 7) 6) ≡ Err (guard.UnsetLocal, 5))
        × (value_in memory (Move Up IndexFirst 4 (one_by_zero 7) (ReadLocal int 1 5) 6)
        ≡ Err (guard.UnsetLocal, 5))
        × (value_in memory (Choose int (number 0) (one_by_zero 7) (signed (pos 3))) ≡ Ok (pos 3)) }
{}
