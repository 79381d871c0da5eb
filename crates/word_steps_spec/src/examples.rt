// Blocks of word steps and pairs of terms, worked by hand: each function's clause says what is left
// of a goal, or which pairs a rule accepts, and its body is empty. They are in
// `specs/Examples.antt`.

ghost use Rattle.std.specs.Prelude.{true, false, [], ◌∷◌, Some, None};
ghost use Rattle.term_core_spec.specs.Term.{truth};
ghost use Rattle.term_core_spec.specs.declared.Atom.TheVariants.{Truth, Constant};
ghost use Rattle.term_core_spec.specs.declared.Width.TheVariants.{W32};
ghost use Rattle.word_steps_spec.specs.Lines.{Ring, Comm, Bits, BitsOf, LowOf, RangeOf};
ghost use Rattle.word_steps_spec.specs.Lines.{WithinOf, Quot, Lift, Fit, FitOf};
ghost use Rattle.word_steps_spec.specs.Examples.{goal, block, Leaves, Accepts, alike, unlike};
ghost use Rattle.word_steps_spec.specs.Examples.{ordered, unordered, Decides};
ghost use Rattle.word_steps_spec.specs.Examples.{of_one_list, of_two_lists};
ghost use Rattle.word_steps_spec.specs.Examples.{known_true, known_false, unknown};
ghost use Rattle.word_steps_spec.specs.Examples.{spelled, misspelled, choices, other_choices};
ghost use Rattle.word_steps_spec.specs.Examples.{DecidesWith, low_bits_differ, low_bits_agree};
ghost use Rattle.word_steps_spec.specs.Examples.{in_range, out_of_range, across_ranges};
ghost use Rattle.word_steps_spec.specs.Examples.{SaysZone, zones, no_zones};
ghost use Rattle.word_steps_spec.specs.Examples.{within_window, outside_window, across_window};
ghost use Rattle.word_steps_spec.specs.Examples.{AcceptsWith, quotients, other_quotients};
ghost use Rattle.word_steps_spec.specs.Examples.{signed_quotients, other_signed_quotients};
ghost use Rattle.word_steps_spec.specs.Examples.{signed_multiples, no_signed_multiples};
ghost use Rattle.word_steps_spec.specs.Examples.{lifted, not_lifted, fitting, not_fitting};
ghost use Rattle.word_steps_spec.specs.Examples.{fit_below, fit_apart, only_zero, fit_unknown};
ghost use Rattle.word_steps_spec.specs.Examples.{split_goal, split_block, case_goal};
ghost use Rattle.word_steps_spec.specs.Examples.{true_block, false_block};
ghost use Rattle.word_steps_spec.specs.Examples.{AreRefused, no_blocks};
ghost use Rattle.word_steps_spec.specs.Examples.{in_false_case, in_true_case};

/// Where x is 5, x + y - y is 5: nothing is left but `true`.
pub fn a_block_proves_a_goal()
    ensures { Leaves goal block (truth true ∷ []) }
{}

/// 2 x = 2 x + 1 is false, and the goal is taken apart by a truth value; a block closes each case.
pub fn a_block_takes_a_goal_apart()
    ensures cases { Leaves split_goal split_block (case_goal true ∷ case_goal false ∷ []) }
    ensures first { Leaves (case_goal true) true_block (truth true ∷ []) }
    ensures second { Leaves (case_goal false) false_block (truth true ∷ []) }
{}

/// Blocks with a line that isn't allowed, and facts of one case that are kept in the other.
pub fn blocks_are_refused()
    ensures lines { AreRefused goal no_blocks }
    ensures flag { AreRefused (case_goal false) (in_false_case ∷ []) }
    ensures opposite { AreRefused (case_goal true) (in_true_case ∷ []) }
{}

/// Words with one polynomial, and equalities with one difference.
pub fn words_have_one_polynomial()
    ensures { Accepts Ring true alike }
{}

/// Near misses.
pub fn words_have_two_polynomials()
    ensures { Accepts Ring false unlike }
{}

/// One operator over the same arguments in another order.
pub fn arguments_have_another_order()
    ensures { Accepts Comm true ordered }
{}

/// Near misses.
pub fn order_counts()
    ensures { Accepts Comm false unordered }
{}

/// Words of the same bits, and equalities of the same pairs of bits.
pub fn words_have_one_list_of_bits()
    ensures { Accepts Bits true of_one_list }
{}

/// Near misses.
pub fn words_have_two_lists_of_bits()
    ensures { Accepts Bits false of_two_lists }
{}

/// Other spellings of `ult`, and near misses.
pub fn orders_have_spellings()
    ensures accepted { Accepts Bits true spelled }
    ensures refused { Accepts Bits false misspelled }
{}

/// What bits or bounds decide, and what they don't.
pub fn bits_and_bounds_decide()
    ensures true_ones { Decides BitsOf known_true (Some (Truth true)) }
    ensures false_ones { Decides BitsOf known_false (Some (Truth false)) }
    ensures others { Decides BitsOf unknown None }
{}

/// Choices of one polynomial, and near misses.
pub fn choices_have_polynomials()
    ensures accepted { Accepts Ring true choices }
    ensures refused { Accepts Ring false other_choices }
{}

/// An `eq` of words whose low bits differ, and near misses.
pub fn low_bits_decide()
    ensures false_ones { DecidesWith LowOf low_bits_differ (Some (Truth false)) }
    ensures others { DecidesWith LowOf low_bits_agree None }
{}

/// What ranges decide, and near misses.
pub fn ranges_decide()
    ensures true_ones { DecidesWith RangeOf in_range (Some (Truth true)) }
    ensures false_ones { DecidesWith RangeOf out_of_range (Some (Truth false)) }
    ensures others { DecidesWith RangeOf across_ranges None }
{}

/// Ranges of differences by the order of sums that don't wrap, and near misses.
pub fn zones_are_found()
    ensures accepted { SaysZone true zones }
    ensures refused { SaysZone false no_zones }
{}

/// What the range of a difference decides of an order, and near misses.
pub fn windows_decide()
    ensures true_ones { DecidesWith WithinOf within_window (Some (Truth true)) }
    ensures false_ones { DecidesWith WithinOf outside_window (Some (Truth false)) }
    ensures others { DecidesWith WithinOf across_window None }
{}

/// What compilers write for division by a constant, and near misses.
pub fn quotients_are_recognised()
    ensures accepted { AcceptsWith Quot true quotients }
    ensures refused { AcceptsWith Quot false other_quotients }
{}

/// The same of words with a sign, and near misses.
pub fn signed_quotients_are_recognised()
    ensures accepted { AcceptsWith Quot true signed_quotients }
    ensures refused { AcceptsWith Quot false other_signed_quotients }
{}

/// Whether a number divides a word with a sign, and near misses.
pub fn signed_multiples_are_recognised()
    ensures accepted { AcceptsWith Quot true signed_multiples }
    ensures refused { AcceptsWith Quot false no_signed_multiples }
{}

/// Choices out of joins, arms and equalities, and near misses.
pub fn choices_are_lifted()
    ensures accepted { Accepts Lift true lifted }
    ensures refused { Accepts Lift false not_lifted }
{}

/// Words that fit the bits that are kept of them, and near misses.
pub fn words_fit()
    ensures accepted { AcceptsWith Fit true fitting }
    ensures refused { AcceptsWith Fit false not_fitting }
{}

/// What spans decide: orders, equalities and words; and what they don't.
pub fn spans_decide()
    ensures below { DecidesWith FitOf fit_below (Some (Truth true)) }
    ensures apart { DecidesWith FitOf fit_apart (Some (Truth false)) }
    ensures zero { DecidesWith FitOf only_zero (Some (Constant W32 0)) }
    ensures unknown { DecidesWith FitOf fit_unknown None }
{}
