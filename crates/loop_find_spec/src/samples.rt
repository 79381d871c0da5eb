//! Small graphs and functions, worked by hand: each function's clause is one fact, and its body is
//! empty.

ghost use Rattle.std.specs.Prelude.{◌≡◌, [], ◌∷◌};
ghost use Rattle.loop_find_spec.specs.declared.Inlining.TheVariants.{Never, Needed, Always};
ghost use Rattle.loop_find_spec.specs.Inlining.{Inlines};
ghost use Rattle.loop_find_spec.specs.Loops.{AreLoops};
ghost use Rattle.loop_find_spec.specs.Samples.{count, g_name, h_name, in_code};
ghost use Rattle.loop_find_spec.specs.Samples.{in_source, nested, returning, sets, sides_of_f};
ghost use Rattle.loop_find_spec.specs.Samples.{summing_code, summing_source, two_entries};
ghost use Rattle.loop_find_spec.specs.Samples.{without_calls, without_g};

/// A loop that a compiler turned, so that its test is at its end as well: its head is its body.
pub fn a_turned_loop_begins_at_its_body()
    ensures { AreLoops summing_code (3 ∷ []) }
{}

/// The same loop in the source begins at its test.
pub fn a_loop_of_the_source_begins_at_its_test()
    ensures { AreLoops summing_source (2 ∷ []) }
{}

/// A loop in a loop: both, in ascending order. A walk goes on after a call.
pub fn nested_loops_are_two()
    ensures { AreLoops nested (1 ∷ 2 ∷ []) }
{}

/// Two nodes that lead to each other: the loop begins at the one that the true branch enters.
pub fn the_true_branch_is_taken_first()
    ensures { AreLoops two_entries (1 ∷ []) }
{}

/// Without an edge that leads back there is no loop.
pub fn straight_code_has_no_loop()
    ensures { AreLoops returning [] }
{}

/// Loops 1 and 2 of the code, 3 and 4 of the source: none is left out, or one of each side, or all.
pub fn sets_of_two_loops_each()
    ensures none { sets 0 (1 ∷ 2 ∷ []) (3 ∷ 4 ∷ []) ≡ [] ∷ [] }
    ensures odd { sets 1 (1 ∷ 2 ∷ []) (3 ∷ 4 ∷ []) ≡ [] }
    ensures two { sets 2 (1 ∷ 2 ∷ []) (3 ∷ 4 ∷ [])
        ≡ (1 ∷ 3 ∷ []) ∷ (1 ∷ 4 ∷ []) ∷ (2 ∷ 3 ∷ []) ∷ (2 ∷ 4 ∷ []) ∷ [] }
    ensures all { sets 4 (1 ∷ 2 ∷ []) (3 ∷ 4 ∷ []) ≡ (1 ∷ 2 ∷ 3 ∷ 4 ∷ []) ∷ [] }
{}

/// Three loops of the code and one of the source: two of the code are left out, or all four.
pub fn sets_of_three_loops_and_one()
    ensures two { sets 2 (1 ∷ 2 ∷ 3 ∷ []) (4 ∷ [])
        ≡ (1 ∷ 2 ∷ []) ∷ (1 ∷ 3 ∷ []) ∷ (2 ∷ 3 ∷ []) ∷ [] }
    ensures four { sets 4 (1 ∷ 2 ∷ 3 ∷ []) (4 ∷ []) ≡ (1 ∷ 2 ∷ 3 ∷ 4 ∷ []) ∷ [] }
{}

/// For each set there are two points, nine pairs of counts and five bounds.
pub fn choices_of_a_set()
    ensures none { count 0 [] [] ≡ 90 }
    ensures one_left_out { count 1 (1 ∷ []) [] ≡ 90 }
    ensures one_each { count 2 (1 ∷ []) (2 ∷ []) ≡ 90 }
    ensures two_and_one { count 1 (1 ∷ 2 ∷ []) (3 ∷ []) ≡ 180 }
{}

/// No call is inlined.
pub fn calls_that_are_never_inlined()
    ensures { Inlines in_code in_source Never [] sides_of_f sides_of_f }
{}

/// `g` has no part, and is inlined; after that `h`, which has one, is called twice on both sides.
pub fn calls_without_a_part_are_inlined()
    ensures { Inlines in_code in_source Needed (h_name ∷ []) sides_of_f without_g }
{}

/// Every call, and those that come with it; and all of them, where no function has a part.
pub fn calls_in_calls_are_inlined()
    ensures all { Inlines in_code in_source Always (g_name ∷ h_name ∷ []) sides_of_f
        without_calls }
    ensures needed { Inlines in_code in_source Needed [] sides_of_f without_calls }
{}
