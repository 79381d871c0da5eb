//! Worked clauses of goals: each function's clause is one fact, and its body is empty.
//!
//! The goals over truth values (`specs/Truths.antt`) are worked by hand; the clauses of those over
//! words of 8 bits (`specs/Words.antt`) come from another program that was written from the tables
//! of gates.

ghost use Rattle.std.specs.Prelude.{◌≡◌, true, false};
ghost use Rattle.term_core_spec.specs.Term.{truth, not_term, and_term, equal, choose};
ghost use Rattle.bit_blast_spec.specs.Goal.{cnf_of};
ghost use Rattle.example_laws.specs.Goals.{p, q, r};
ghost use Rattle.example_laws.specs.Truths as truths;
ghost use Rattle.example_laws.specs.Words as words;

/// A known value makes no gate: it is truth, or its negation.
pub fn known_values()
    ensures truth { cnf_of (truth true) ≡ truths.truth_clauses }
    ensures falsehood { cnf_of (truth false) ≡ truths.falsehood_clauses }
{}

/// A variable has a number and no clause, and its negation is its literal negated.
pub fn a_variable_and_its_negation()
    ensures variable { cnf_of p ≡ truths.variable_clauses }
    ensures negated { cnf_of (not_term p) ≡ truths.negated_clauses }
    ensures either { cnf_of truths.excluded_middle ≡ truths.excluded_middle_clauses }
{}

/// One gate each.
pub fn single_gates()
    ensures both { cnf_of (and_term p q) ≡ truths.both_clauses }
    ensures alike { cnf_of (equal p q) ≡ truths.alike_clauses }
    ensures choice { cnf_of (choose p q r) ≡ truths.choice_clauses }
{}

/// A term that occurs twice is made once.
pub fn shared_terms()
    ensures { cnf_of truths.absorbed ≡ truths.absorbed_clauses }
{}

/// Comparisons of words.
pub fn comparisons()
    ensures less { cnf_of words.unsigned_less ≡ words.unsigned_less_clauses }
    ensures equal { cnf_of words.equal_words ≡ words.equal_words_clauses }
{}

/// Adders.
pub fn sums()
    ensures sum { cnf_of words.sum_with_three ≡ words.sum_with_three_clauses }
    ensures difference { cnf_of words.difference ≡ words.difference_clauses }
{}

/// Shifters.
pub fn shifts()
    ensures up { cnf_of words.shift_by_count ≡ words.shift_by_count_clauses }
    ensures signed { cnf_of words.signed_shift_by_one ≡ words.signed_shift_by_one_clauses }
{}

/// What makes no gates, and what ties two loads.
pub fn rearrangements_and_loads()
    ensures rearranged { cnf_of words.rearranged ≡ words.rearranged_clauses }
    ensures loads { cnf_of words.loads ≡ words.loads_clauses }
{}
