//! Laws of the gates and circuits of `bit_blast_spec`: each function's clause is one law, and its
//! body is empty.
//!
//! An assignment satisfies the clauses of gates exactly where each gate's variable has the value
//! that its arguments give it (`specs/Meaning.antt`). So where it satisfies a circuit's clauses,
//! the number of its bits is that of the operator (`term_core_spec`), whatever the number of
//! variables before the circuit.

ghost use Rattle.std.specs.Prelude.{◌≡◌, ◌==◌, ◌+◌, ◌*◌, ◌^◌, ◌↔◌, ℕ, true, nat_lt, if◌then◌else◌};
ghost use Rattle.std.specs.Prelude.{bit_and, bit_or, bit_xor, List, length};
ghost use Rattle.clause_check_spec.specs.declared.Literal.{Literal};
ghost use Rattle.clause_check_spec.specs.Clause.{Valuation, holds};
ghost use Rattle.term_core_spec.specs.declared.WordOperator.TheVariants as word;
ghost use Rattle.term_core_spec.specs.Value.{operation};
ghost use Rattle.bit_blast_spec.specs.Gates.{Gate};
ghost use Rattle.bit_blast_spec.specs.Circuits.{Bits, none, and_gate, or_gate, xor_gate, each_two};
ghost use Rattle.bit_blast_spec.specs.Circuits.{choose_bits, equal_bits, sum_bits, difference_bits};
ghost use Rattle.bit_blast_spec.specs.Circuits.{less_bit, product_bits, moved_up, moved_down};
ghost use Rattle.bit_blast_spec.specs.Circuits.{shift_bits, shift_signed_bits, division};
ghost use Rattle.bit_blast_laws.specs.Meaning.{Satisfies, AllHold, HasNumber, HasValue, number_of};

/// An assignment satisfies the clauses of gates exactly where each gate's variable has its value.
pub fn clauses_define_gates()
    ensures { (values : Valuation) (last : ℕ) (gates : List Gate)
        → Satisfies values last gates ↔ AllHold values last gates }
{}

/// A ripple-carry adder gives the sum modulo 2^width.
pub fn sums()
    ensures { (values : Valuation) (xs ys : Bits) (last : ℕ) → length xs ≡ length ys
        → values 1 ≡ true → HasNumber values last (sum_bits xs ys none)
        (operation word.Add (length xs) (number_of values xs) (number_of values ys)) }
{}

/// With the second word complemented and a first carry it gives the difference.
pub fn differences()
    ensures { (values : Valuation) (xs ys : Bits) (last : ℕ) → length xs ≡ length ys
        → values 1 ≡ true → HasNumber values last (difference_bits xs ys)
        (operation word.Subtract (length xs) (number_of values xs) (number_of values ys)) }
{}

/// Rows that are added give the product modulo 2^width.
pub fn products()
    ensures { (values : Valuation) (xs ys : Bits) (last : ℕ) → length ys ≡ length xs
        → values 1 ≡ true → HasNumber values last (product_bits xs ys)
        (operation word.Multiply (length xs) (number_of values xs) (number_of values ys)) }
{}

/// A word is less exactly where its difference has no carry; two are equal where no bits differ.
pub fn comparisons()
    ensures less { (values : Valuation) (xs ys : Bits) (last : ℕ) → length xs ≡ length ys
        → values 1 ≡ true → HasValue values last (less_bit xs ys)
        (nat_lt (number_of values xs) (number_of values ys)) }
    ensures equal { (values : Valuation) (xs ys : Bits) (last : ℕ) → length xs ≡ length ys
        → values 1 ≡ true → HasValue values last (equal_bits xs ys)
        (number_of values xs == number_of values ys) }
{}

/// Gates of each two bits give the operations on words bit by bit.
pub fn bitwise_operations()
    ensures both { (values : Valuation) (xs ys : Bits) (last : ℕ) → length xs ≡ length ys
        → HasNumber values last (each_two and_gate xs ys)
        (bit_and (number_of values xs) (number_of values ys)) }
    ensures either { (values : Valuation) (xs ys : Bits) (last : ℕ) → length xs ≡ length ys
        → HasNumber values last (each_two or_gate xs ys)
        (bit_or (number_of values xs) (number_of values ys)) }
    ensures differ { (values : Valuation) (xs ys : Bits) (last : ℕ) → length xs ≡ length ys
        → HasNumber values last (each_two xor_gate xs ys)
        (bit_xor (number_of values xs) (number_of values ys)) }
    ensures choice { (values : Valuation) (c : Literal) (xs ys : Bits) (last : ℕ)
        → length xs ≡ length ys → HasNumber values last (choose_bits c xs ys)
        (if holds values c then number_of values xs else number_of values ys) }
{}

/// Barrel shifters move by the count, and leave nothing, or signs alone, from the width on.
pub fn shifts()
    ensures up { (values : Valuation) (width k : ℕ) (xs counts : Bits) (last : ℕ) → values 1 ≡ true
        → width ≡ 2 ^ k → length xs ≡ width → HasNumber values last (shift_bits moved_up xs counts)
        (operation word.ShiftLeft width (number_of values xs) (number_of values counts)) }
    ensures down { (values : Valuation) (width k : ℕ) (xs counts : Bits) (last : ℕ)
        → values 1 ≡ true → width ≡ 2 ^ k → length xs ≡ width
        → HasNumber values last (shift_bits (moved_down none) xs counts)
        (operation word.ShiftRight width (number_of values xs) (number_of values counts)) }
    ensures signed { (values : Valuation) (width k : ℕ) (xs counts : Bits) (last : ℕ)
        → values 1 ≡ true → width ≡ 2 ^ k → length xs ≡ width
        → HasNumber values last (shift_signed_bits xs counts)
        (operation word.ShiftRightSigned width (number_of values xs) (number_of values counts)) }
{}

/// Only the quotient and the remainder satisfy the clauses of a division, by 0 too.
pub fn divisions()
    ensures quotient { (values : Valuation) (qs rs xs ys : Bits) (last : ℕ) → values 1 ≡ true
        → length qs ≡ length xs → length rs ≡ length xs → length ys ≡ length xs
        → Satisfies values last (division qs rs xs ys last).gates
        → number_of values qs ≡ operation word.Divide (length xs) (number_of values xs)
        (number_of values ys) }
    ensures remainder { (values : Valuation) (qs rs xs ys : Bits) (last : ℕ) → values 1 ≡ true
        → length qs ≡ length xs → length rs ≡ length xs → length ys ≡ length xs
        → Satisfies values last (division qs rs xs ys last).gates
        → number_of values rs ≡ operation word.Remainder (length xs) (number_of values xs)
        (number_of values ys) }
{}
