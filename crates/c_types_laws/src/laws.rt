//! What holds of each typed core: each function's clause is one law, and its body is empty.

ghost use Rattle.std.specs.Prelude.{◌≡◌, ℕ, ◌+◌, true, false, List, length, Option, Some, Ok};
ghost use Rattle.std.specs.Prelude.{IsTrue, [], ◌∷◌, bytes_eq, codes, slice_get, None, pos};
ghost use Rattle.c_syntax_spec.specs.Unit.{TranslationUnit};
ghost use Rattle.c_types_spec.specs.declared.Scalar.{Scalar};
ghost use Rattle.c_types_spec.specs.declared.Jump.TheVariants.{Break};
ghost use Rattle.c_types_spec.specs.Types.{int, unsigned_int, word, scalar};
ghost use Rattle.c_types_spec.specs.Core.{Core, Constant, ReadLocal, GlobalAddress, Target};
ghost use Rattle.c_types_spec.specs.Core.{Set, Call, Leave, Return, Typed, type_of};
ghost use Rattle.c_token_spec.specs.Words.{entry_of};
ghost use Rattle.c_types_spec.specs.Names.{Meaning, Scope as Names, Scopes, in_scope, declared};
ghost use Rattle.c_types_spec.specs.Names.{opened, closed, closed_hidden};
ghost use Rattle.c_types_spec.specs.Units.{typed};
ghost use Rattle.c_types_spec.specs.HasType.{Scope, HasType, IsTyped, IsTypedUnit};
ghost use Rattle.c_types_spec.specs.HasType.{is_narrow, JumpsInside, Numbers};
ghost use Rattle.c_graph_spec.specs.Sizes.{UnitSizes};
ghost use Rattle.c_types_laws.specs.Blocks.{all_declared, in_two_blocks};
ghost use Rattle.c_types_laws.specs.Samples.{small};

/// The core of a unit is typed: each expression has a type of 8, 16 or 32 bits, each object gets a
/// value of its type, each call has the arguments that its function takes and puts its value into a
/// local, each name of a local, global or function is that of one; loops and calls are numbered
/// from 0 in the order of the text; jumps are inside loops and `switch`es, and each body ends by a
/// return or a guard. A function takes at most eight words of arguments.
pub fn cores_of_units_are_typed()
    ensures { (unit : TranslationUnit) (core : Typed) → typed unit ≡ Ok core → IsTypedUnit core }
{}

/// The sizes in the core of a unit are below the limit of sizes: how far an object that is read or
/// written is past its address, and the size of the objects that a pointer is moved by; and no
/// index is bounded by more than the limit.
pub fn cores_have_small_sizes()
    ensures { (unit : TranslationUnit) (core : Typed) → typed unit ≡ Ok core → UnitSizes core }
{}

/// An expression has one type at most, which is read off it, and has 8, 16 or 32 bits.
pub fn expressions_have_one_type()
    ensures one { (scope : Scope) (target : Option Scalar) (core : Core) (type : Scalar)
        → HasType scope target core type → type_of core ≡ type }
    ensures narrow { (scope : Scope) (target : Option Scalar) (core : Core) (type : Scalar)
        → HasType scope target core type → IsTrue (is_narrow type) }
{}

/// Loops or calls that are numbered from one number to below another are as many as there are
/// numbers, and each has the next one: so no two have the same.
pub fn numbers_are_in_order()
    ensures { (first end : ℕ) (list : List ℕ) → Numbers first end list → (first + length list ≡ end)
        × ((i n : ℕ) → slice_get list i ≡ Some n → n ≡ first + i) }
{}

/// A name means its last declaration in the innermost scope that declares it: a declaration gives
/// its name the meaning, and changes no other; a block begins with the names around it.
pub fn names_mean_their_innermost_declaration()
    ensures declared { (name : List ℕ) (meaning : Meaning) (scopes : Scopes Meaning)
        → in_scope (declared name meaning scopes) name ≡ Some meaning }
    ensures others { (name other : List ℕ) (meaning : Meaning) (scopes : Scopes Meaning)
        → bytes_eq name other ≡ false
        → in_scope (declared name meaning scopes) other ≡ in_scope scopes other }
    ensures begun { (scopes : Scopes Meaning) (name : List ℕ)
        → in_scope (opened scopes) name ≡ in_scope scopes name }
{}

/// A block ends with the scopes that it began with, whatever it declared. At the end of a group of
/// a `switch` the names that it declared are hidden, and all others mean what they meant before it.
pub fn names_end_with_their_block()
    ensures ended { (list : Names Meaning) (scopes : Scopes Meaning)
        → closed (all_declared list (opened scopes)) ≡ scopes }
    ensures hidden { (hidden meaning : Meaning) (file block outer : Names Meaning)
        (blocks : List (Names Meaning)) (name : List ℕ) → entry_of block name ≡ Some meaning
        → in_scope (closed_hidden hidden (in_two_blocks file block outer blocks)) name
        ≡ Some hidden }
    ensures others { (hidden : Meaning) (file block outer : Names Meaning)
        (blocks : List (Names Meaning)) (name : List ℕ) → entry_of block name ≡ None
        → in_scope (closed_hidden hidden (in_two_blocks file block outer blocks)) name
        ≡ in_scope (closed (in_two_blocks file block outer blocks)) name }
{}

/// Cores that are not typed: a local that is not there; a global that is not; the object of an
/// assignment, outside of one; a number of 64 bits; a local that is set to a value of another type;
/// a call with fewer arguments than parameters; a `return` without the value that the function
/// owes; `break` outside loops and `switch`es; and two loops of one number.
pub fn wrong_cores_are_not_typed()
    ensures values { (HasType small None (ReadLocal int 1 0) int → ⊥)
        × (HasType small None (GlobalAddress (codes "x")) word → ⊥)
        × (HasType small None (Target int 0) int → ⊥)
        × (HasType small None (Constant (scalar true 64) (pos 0)) (scalar true 64) → ⊥) }
    ensures statements { (IsTyped small (Set 0 (Constant unsigned_int (pos 0))) → ⊥)
        × (IsTyped small (Call 0 (codes "g") [] None) → ⊥)
        × (IsTyped small (Return None) → ⊥) }
    ensures places { (JumpsInside (Leave Break) false false → ⊥)
        × ((end : ℕ) → Numbers 0 end (0 ∷ 0 ∷ []) → ⊥) }
{}
