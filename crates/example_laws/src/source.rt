//! Worked facts of the C definitions: each function's clause is one fact, and its body is empty.
//!
//! They hold the definitions of C sources and of their runs against examples worked by hand.

ghost use Rattle.std.specs.Prelude.{◌≡◌, ℕ, Bool, List, [], ◌∷◌, Option, Some, pos, codes};
ghost use Rattle.memory_spec.specs.Memory.{Memory};
ghost use Rattle.memory_spec.specs.Zones.{Zone};
ghost use Rattle.c_run_spec.specs.Calls.{More, Back, c_run};
ghost use Rattle.c_parse_spec.specs.Initials.{DefinesIn, DefinesNothing};
ghost use Rattle.validity_spec.specs.Source.{IsC};
ghost use Rattle.example_laws.specs.Sum.{sum_unit, difference_unit, setting};

/// The text `unsigned f(unsigned a,unsigned b){return a+b;}` is a source, and this is its typed
/// core.
pub fn add_two_arguments_is_a_source()
    ensures { IsC (codes "unsigned f(unsigned a,unsigned b){return a+b;}") sum_unit }
{}

/// Called with 5 and 7, it gives 12 with one turn, and leaves the memory.
pub fn add_two_arguments_gives_their_sum()
    ensures { (memory : Memory) (globals : List ℕ → Option ℕ) (zone : Zone) (is_fixed : ℕ → Bool)
        → c_run (setting sum_unit globals zone is_fixed) (codes "f") (pos 5 ∷ pos 7 ∷ []) memory 1
        ≡ Back (Some (pos 12)) memory }
{}

/// With no turn it has not returned yet.
pub fn add_two_arguments_wants_a_turn()
    ensures { (memory : Memory) (globals : List ℕ → Option ℕ) (zone : Zone) (is_fixed : ℕ → Bool)
        → c_run (setting sum_unit globals zone is_fixed) (codes "f") (pos 5 ∷ pos 7 ∷ []) memory 0
        ≡ More }
{}

/// The sum is taken modulo 2^32.
pub fn add_two_arguments_wraps()
    ensures { (memory : Memory) (globals : List ℕ → Option ℕ) (zone : Zone) (is_fixed : ℕ → Bool)
        → c_run (setting sum_unit globals zone is_fixed) (codes "f")
        (pos 4294967295 ∷ pos 2 ∷ []) memory 1
        ≡ Back (Some (pos 1)) memory }
{}

/// So is the difference.
pub fn subtract_two_arguments_wraps()
    ensures { (memory : Memory) (globals : List ℕ → Option ℕ) (zone : Zone) (is_fixed : ℕ → Bool)
        → c_run (setting difference_unit globals zone is_fixed) (codes "f")
        (pos 5 ∷ pos 7 ∷ []) memory 3
        ≡ Back (Some (pos 4294967294)) memory }
{}

/// A struct is defined within the initial value of `x`: its `{` is at offset 21.
pub fn struct_within_an_initial_value()
    ensures { DefinesIn (codes "int x=sizeof(struct s{int a;});") 21 }
{}

/// An enum without a tag is defined within the braces of an initial value, at offset 21.
pub fn enum_within_braces_of_an_initial_value()
    ensures { DefinesIn (codes "int a[2]={sizeof(enum{A}),0};") 21 }
{}

/// A struct is defined in the second of two initial values, at offset 23.
pub fn struct_within_a_second_initial_value()
    ensures { DefinesIn (codes "int x=1,y=sizeof(struct{int a;});") 23 }
{}

/// No struct or enum is defined within an initial value: the first struct is before one, the tag in
/// the second value has no list, and the other struct is in the body of a function.
pub fn nothing_within_initial_values()
    ensures { DefinesNothing (codes
        "struct s{int a;}x={1};int y=sizeof(struct s*);int f(void){struct t{int b;}*p;return 0;}") }
{}
