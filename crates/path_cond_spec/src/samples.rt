//! Conditions and states of two small graphs, worked by hand: each function's clause is such facts,
//! and its body is empty.

ghost use Rattle.std.specs.Prelude.{◌≡◌, true, false, [], ◌∷◌};
ghost use Rattle.term_core_spec.specs.declared.Width.TheVariants.{W32};
ghost use Rattle.term_core_spec.specs.Term.{truth, constant, open_term, or_term, choose};
ghost use Rattle.path_cond_spec.specs.Conditions.{conditional_of};
ghost use Rattle.path_cond_spec.specs.Samples.{conditions, diamond, diamond_visits, found};
ghost use Rattle.path_cond_spec.specs.Samples.{if_fails};
ghost use Rattle.path_cond_spec.specs.Samples.{if_holds, joined, joined_visits, word, word_at};

/// After a test with an assignment on each side: the edges in the order of their sources, and the
/// last value without test.
pub fn a_diamond_has_these_conditions()
    ensures conditions { conditions diamond diamond_visits ≡ truth true
        ∷ if_fails
        ∷ if_holds
        ∷ or_term if_fails if_holds
        ∷ or_term if_fails if_holds
        ∷ [] }
    ensures before { word_at diamond diamond_visits 1 ≡ open_term word }
    ensures merged { word_at diamond diamond_visits 4
        ≡ choose if_fails (constant W32 2) (constant W32 1) }
{}

/// Both branches of a test into one node are two edges, the true one first; what they have in
/// common stays.
pub fn joined_branches_have_these_conditions()
    ensures conditions { conditions joined joined_visits ≡ truth true
        ∷ or_term if_holds if_fails
        ∷ or_term if_holds if_fails
        ∷ [] }
    ensures word { word_at joined joined_visits 2 ≡ open_term word }
{}

/// Of no visit the condition is false and the state that of the start; of one visit they are its
/// own.
pub fn few_visits_as_one()
    ensures none { (conditional_of open_term (found diamond diamond_visits) []).condition
        ≡ truth false }
    ensures one { (conditional_of open_term (found diamond diamond_visits) (2 ∷ [])).condition
        ≡ if_holds }
    ensures two { (conditional_of open_term (found diamond diamond_visits) (1 ∷ 2 ∷ [])).condition
        ≡ or_term if_fails if_holds }
{}
