//! Examples worked by hand.

ghost use Rattle.std.specs.Prelude.{◌≡◌, ℕ, ℤ, true, List, [], ◌∷◌, Option, Some, None, pos};
ghost use Rattle.std.specs.Prelude.{negsuc};
ghost use Rattle.std.specs.Prelude.{Ok};
ghost use Rattle.c_syntax_spec.specs.declared.IntegerType.TheVariants as integer;
ghost use Rattle.c_syntax_spec.specs.declared.BinaryOperator.TheVariants as binary;
ghost use Rattle.c_syntax_spec.specs.declared.UnaryOperator.TheVariants as unary;
ghost use Rattle.c_types_spec.specs.declared.TypeFaultKind.TheVariants as fault;
ghost use Rattle.c_types_spec.specs.declared.LeftOut.TheVariants as left_out;
ghost use Rattle.c_types_spec.specs.Types.{CType, Integer, int, unsigned_int};
ghost use Rattle.c_types_spec.specs.Units.{typed};
ghost use Rattle.c_types_laws.specs.TypeSamples.{sum_unit, sum_typed, address_unit, fault_of};
ghost use Rattle.c_types_laws.specs.TypeSamples.{layout_of};
ghost use Rattle.c_types_laws.specs.TypeStatements.{loop_unit, loop_typed, call_unit, call_typed};
ghost use Rattle.c_types_laws.specs.TypeStatements.{member_unit, member_typed};
ghost use Rattle.c_types_laws.specs.TypeSamples.{char_int, int_char, array_short_char, nested};
ghost use Rattle.c_types_laws.specs.TypeSamples.{pointer_char, five, type_of, value_of, two, one};
ghost use Rattle.c_types_laws.specs.TypeSamples.{cast};
ghost use Rattle.c_types_laws.specs.TypeSamples.{int_number, unsigned_number, minus, wide_unit};
ghost use Rattle.c_types_laws.specs.TypeSamples.{unknown_unit, ended_unit, twice_unit, break_unit};
ghost use Rattle.c_types_laws.specs.TypeSamples.{value_unit, void_unit, words_unit};
ghost use Rattle.c_types_laws.specs.TypeSamples.{fallthrough_unit};
ghost use Rattle.c_types_laws.specs.TypeSamples.{hidden_unit, array_unit, static_unit};
ghost use Rattle.c_types_laws.specs.TypeSamples.{function_unit};
ghost use Rattle.c_types_laws.specs.TypeSamples.{difference_unit, struct_unit, place_unit};

/// The typed core of `unsigned f(unsigned a,unsigned b){return a+b;}`.
pub fn sum_is_typed()
    ensures { typed sum_unit ≡ Ok sum_typed }
{}

/// A loop; calls whose results go into a local, a global and a `return`; an element of an array in
/// a struct that a pointer points to, which `+=` assigns to.
pub fn statements_are_typed()
    ensures { (typed loop_unit ≡ Ok loop_typed) × (typed call_unit ≡ Ok call_typed)
        × (typed member_unit ≡ Ok member_typed) }
{}

/// Where the members of structs are, and sizes and alignments: each member is aligned, and so is
/// the end.
pub fn structs_are_laid_out()
    ensures { (layout_of char_int ≡ Some (0 ∷ 4 ∷ [], 8, 4))
        × (layout_of int_char ≡ Some (0 ∷ 4 ∷ [], 8, 4))
        × (layout_of array_short_char ≡ Some (0 ∷ 4 ∷ 6 ∷ [], 8, 2))
        × (layout_of nested ≡ Some (0 ∷ 2 ∷ [], 6, 2))
        × (layout_of pointer_char ≡ Some (0 ∷ 4 ∷ [], 8, 4))
        × (layout_of five ≡ Some (0 ∷ [], 5, 1)) }
{}

/// The promotions and the usual conversions: two narrow operands give an `int`, and of two types
/// of one width the unsigned one is taken; a shift has the type of its left operand.
pub fn operators_have_types()
    ensures { (type_of (two binary.Add (cast integer.UnsignedChar (int_number 1)) (cast
        integer.Short
        (int_number 2))) ≡ Some (Integer int))
        × (type_of (two binary.Multiply (minus 1) (unsigned_number 1)) ≡ Some (Integer
        unsigned_int))
        × (type_of (two binary.ShiftLeft (int_number 1) (unsigned_number 3)) ≡ Some (Integer int))
        × (type_of (two binary.Less (unsigned_number 1) (unsigned_number 2)) ≡ Some (Integer int)) }
{}

/// Values: `-1 < 1u` is 0, `(unsigned char)300` is 44, `-7 / 2` is -3, `-7 % 2` is -1, `-8 >> 1` is
/// -4, `1 << 31` is -2147483648, `~0u` is 4294967295.
pub fn constants_have_values()
    ensures { (value_of (two binary.Less (minus 1) (unsigned_number 1)) ≡ Some (pos 0))
        × (value_of (cast integer.UnsignedChar (int_number 300)) ≡ Some (pos 44))
        × (value_of (two binary.Divide (minus 7) (int_number 2)) ≡ Some (negsuc 2))
        × (value_of (two binary.Remainder (minus 7) (int_number 2)) ≡ Some (negsuc 0))
        × (value_of (two binary.ShiftRight (minus 8) (int_number 1)) ≡ Some (negsuc 3))
        × (value_of (two binary.ShiftLeft (int_number 1) (int_number 31)) ≡ Some (negsuc
        2147483647))
        × (value_of (one unary.Complement (unsigned_number 0)) ≡ Some (pos 4294967295)) }
{}

/// What breaks a guard is no constant, as `2147483647 + 1`, `1 / 0` and `1 << 32`; the operand of
/// `&&` that isn't evaluated breaks none.
pub fn broken_constants_have_no_value()
    ensures { (value_of (two binary.Add (int_number 2147483647) (int_number 1)) ≡ None)
        × (value_of (two binary.Divide (int_number 1) (int_number 0)) ≡ None)
        × (value_of (two binary.ShiftLeft (int_number 1) (int_number 32)) ≡ None)
        × (value_of (two binary.LogicalAnd (int_number 0) (two binary.Divide (int_number 1)
        (int_number
        0))) ≡ Some (pos 0)) }
{}

/// A name means its innermost declaration, up to the end of its block, and is declared once there.
pub fn names_have_scopes()
    ensures { (fault_of unknown_unit ≡ Some (fault.Unknown, 13))
        × (fault_of ended_unit ≡ Some (fault.Unknown, 21))
        × (fault_of twice_unit ≡ Some (fault.Twice, 23))
        × (fault_of hidden_unit ≡ Some (fault.Unknown, 63)) }
{}

/// A fault of each other kind, at its offset.
pub fn faults_have_places()
    ensures { (fault_of break_unit ≡ Some (fault.Mismatch, 13))
        × (fault_of value_unit ≡ Some (fault.NotLvalue, 14))
        × (fault_of address_unit ≡ Some (fault.AddressOfLocal, 27))
        × (fault_of void_unit ≡ Some (fault.Incomplete, 13))
        × (fault_of words_unit ≡ Some (fault.TooManyWords, 5))
        × (fault_of fallthrough_unit ≡ Some (fault.Fallthrough, 24)) }
{}

/// What is left out, at its offset.
pub fn parts_are_left_out()
    ensures { (fault_of wide_unit ≡ Some (fault.LeftOut left_out.Word64, 10))
        × (fault_of struct_unit ≡ Some (fault.LeftOut left_out.Struct, 34))
        × (fault_of array_unit ≡ Some (fault.LeftOut left_out.Array, 17))
        × (fault_of difference_unit ≡ Some (fault.LeftOut left_out.Difference, 21))
        × (fault_of function_unit ≡ Some (fault.LeftOut left_out.FunctionName, 13))
        × (fault_of place_unit ≡ Some (fault.LeftOut left_out.CallPlace, 34))
        × (fault_of static_unit ≡ Some (fault.LeftOut left_out.StaticLocal, 24)) }
{}
