// Terms with their normal forms, worked by hand: each function's clause is one rule at its sides,
// and its body is empty. The tables are in `specs/Examples.antt`.

ghost use Rattle.term_norm_spec.specs.Examples.{AreNormal, constants, doubled, absorbed, exclusive};
ghost use Rattle.term_norm_spec.specs.Examples.{gathered, equalities, orderings, choices, resized};
ghost use Rattle.term_norm_spec.specs.Examples.{loads, nested};

/// An operator whose arguments are all constants is its value.
pub fn constants_are_computed()
    ensures { AreNormal constants }
{}

/// Two negations, or two complements, are none.
pub fn negations_cancel()
    ensures { AreNormal doubled }
{}

/// Zero, one, equal and opposite arguments of conjunctions and disjunctions.
pub fn zero_and_one_are_absorbed()
    ensures { AreNormal absorbed }
{}

/// Equal arguments and zero of the exclusive or.
pub fn exclusive_or_of_equal_words_is_0()
    ensures { AreNormal exclusive }
{}

/// Constants in sums, differences and products are gathered on the right.
pub fn constants_are_gathered()
    ensures { AreNormal gathered }
{}

/// Equal terms, truth values, and one base with different constants.
pub fn equalities_are_decided()
    ensures { AreNormal equalities }
{}

/// No word is less than itself, or than 0.
pub fn nothing_is_less_than_0()
    ensures { AreNormal orderings }
{}

/// Choices by a constant or a negation, and with arms that say what is chosen.
pub fn choices_are_turned()
    ensures { AreNormal choices }
{}

/// Shifts by 0, extensions and cuts to the own width, and bytes of a word.
pub fn words_are_taken_apart()
    ensures { AreNormal resized }
{}

/// Loads of stores, overlays and choices, and fixed bytes.
pub fn loads_go_through_memory()
    ensures { AreNormal loads }
{}

/// A right side that is a new operator is brought into normal form in turn, and so are the
/// arguments.
pub fn rules_work_together()
    ensures { AreNormal nested }
{}
