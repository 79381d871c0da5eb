//! What holds of word steps: each function's clause is one law, and its body is empty.

ghost use Rattle.std.specs.List.{AllByRecursion};
ghost use Rattle.std.specs.Prelude.{◌≡◌, ℕ, ◌%◌, ◌^◌, true, List, Some};
ghost use Rattle.memory_spec.specs.Runs.{Run, AreBytes};
ghost use Rattle.term_core_spec.specs.Sort.{bits, sort_of};
ghost use Rattle.term_core_spec.specs.Term.{Term, Leaf};
ghost use Rattle.term_core_spec.specs.Value.{Assignment, IsAssignment, Truth as TruthValue};
ghost use Rattle.term_core_spec.specs.Value.{Number as NumberValue, value};
ghost use Rattle.term_core_spec.specs.declared.Atom.{Atom};
ghost use Rattle.term_core_spec.specs.declared.Sort.TheVariants.{Truth, Word};
ghost use Rattle.term_core_spec.specs.declared.Width.{Width};
ghost use Rattle.word_steps_spec.specs.Invariant.{Holds, IsValid};
ghost use Rattle.word_steps_spec.specs.Invariant.{Refutes, RefutesOne, HasOnlyOf};
ghost use Rattle.term_norm_spec.specs.Normal.{normal};
ghost use Rattle.word_steps_spec.specs.Lines.{Line, Block, MergeRule, DecisionRule, applied};
ghost use Rattle.word_steps_spec.specs.Lines.{goals_after, merges_by, decided_by};
ghost use Rattle.word_steps_spec.specs.Numbers.{State, start, are_alike};
ghost use Rattle.word_steps_spec.specs.Polynomial.{polynomial_value};
ghost use Rattle.word_steps_spec.specs.Ring.{polynomial};
ghost use Rattle.word_steps_spec.specs.Zones.{says_zone};

/// The invariant holds of the first state of a block.
pub fn first_state_has_the_invariant()
    ensures { (runs : List Run) (goal : Term) → sort_of goal ≡ Some Truth
        → Holds runs goal (start goal) }
{}

/// Each line that is allowed keeps the invariant.
pub fn lines_keep_the_invariant()
    ensures { (runs : List Run) → AreBytes runs → (goal : Term) (line : Line) (s t : State)
        → Holds runs goal s → applied runs s line ≡ Some t → Holds runs goal t }
{}

/// Where the goals that are left after a block are valid, its goal is.
pub fn blocks_are_sound()
    ensures { (runs : List Run) → AreBytes runs → (goal : Term) → sort_of goal ≡ Some Truth
        → (block : Block) (goals : List Term) → goals_after runs goal block ≡ Some goals
        → AllByRecursion (IsValid runs) goals → IsValid runs goal }
{}

/// What is left after a block are truth values, in normal form.
pub fn goals_left_are_normal()
    ensures sorts { (runs : List Run) → AreBytes runs → (goal : Term) → sort_of goal ≡ Some Truth
        → (block : Block) (goals : List Term) → goals_after runs goal block ≡ Some goals
        → AllByRecursion (λ t. sort_of t ≡ Some Truth) goals }
    ensures normal { (runs : List Run) → AreBytes runs → (goal : Term) → sort_of goal ≡ Some Truth
        → (block : Block) (goals : List Term) → goals_after runs goal block ≡ Some goals
        → AllByRecursion (λ t. normal runs t ≡ t) goals }
{}

/// It has no variable but those of the goal.
pub fn goals_left_have_no_new_variable()
    ensures { (runs : List Run) → AreBytes runs → (goal : Term) → sort_of goal ≡ Some Truth
        → (block : Block) (goals : List Term) → goals_after runs goal block ≡ Some goals
        → AllByRecursion (HasOnlyOf goal) goals }
{}

/// An assignment that makes the goal false makes one of those false that are left.
pub fn one_left_is_refuted()
    ensures { (runs : List Run) → AreBytes runs → (goal : Term) → sort_of goal ≡ Some Truth
        → (block : Block) (goals : List Term) → goals_after runs goal block ≡ Some goals
        → (a : Assignment) → Refutes runs goal a → RefutesOne runs goals a }
{}

/// Where the facts that a rule is given are true, what its test accepts has one value.
pub fn rules_are_sound()
    ensures merges { (rule : MergeRule) (facts : List Term) (x y : Term)
        → are_alike x y ≡ true → (a : Assignment) → IsAssignment a
        → AllByRecursion (λ t. value a t ≡ TruthValue true) facts
        → merges_by rule facts x y ≡ true → value a x ≡ value a y }
    ensures decisions { (rule : DecisionRule) (facts : List Term) (x : Term) (constant : Atom)
        → are_alike x (Leaf constant) ≡ true → (a : Assignment) → IsAssignment a
        → AllByRecursion (λ t. value a t ≡ TruthValue true) facts
        → decided_by rule facts x ≡ Some constant → value a x ≡ value a (Leaf constant) }
    ensures zones { (facts : List Term) (x : Term) → (a : Assignment) → IsAssignment a
        → AllByRecursion (λ t. value a t ≡ TruthValue true) facts
        → says_zone facts x ≡ true → value a x ≡ TruthValue true }
{}

/// The polynomial of a word has the word's value, modulo 2^width.
pub fn polynomials_have_the_value()
    ensures { (a : Assignment) → IsAssignment a → (t : Term) (w : Width)
        → sort_of t ≡ Some (Word w) → (n : ℕ) → value a t ≡ NumberValue w n
        → polynomial_value a (polynomial t) % 2 ^ bits w ≡ n }
{}
