//! What holds of folded gates and of the clauses of them: each function's clauses are laws, or
//! examples worked by hand (`specs/FoldedExamples.antt`), and its body is empty.

ghost use Rattle.std.specs.Prelude.{◌≡◌, ◌&&◌, ◌||◌, if◌then◌else◌, true, List};
ghost use Rattle.clause_check_spec.specs.Clause.{Valuation, satisfies};
ghost use Rattle.bit_blast_spec.specs.Gates.{Gate, clauses_from};
ghost use Rattle.bit_blast_spec.specs.Folding.{Signal, fold_and, fold_xor, fold_mux};
ghost use Rattle.bit_blast_spec.specs.Folding.{fold_majority, fold_or, signal_value};
ghost use Rattle.bit_blast_spec.specs.Folding.{folded_value, sign};
ghost use Rattle.bit_blast_spec.specs.FoldedGoal.{folded, are_in_order};
ghost use Rattle.bit_blast_laws.specs.FoldedExamples.{twice, once, unlike, unlike_folded};
ghost use Rattle.bit_blast_laws.specs.FoldedExamples.{signs, signs_folded, carries, carries_folded};

/// A gate of signals, folded, has the gate's value under each assignment.
pub fn folded_gates_have_their_value()
    ensures and { (values : Valuation) (s t : Signal)
        → folded_value values (fold_and s t) ≡ (signal_value values s && signal_value values t) }
    ensures or { (values : Valuation) (s t : Signal)
        → folded_value values (fold_or s t) ≡ (signal_value values s || signal_value values t) }
    ensures xor { (values : Valuation) (s t : Signal)
        → folded_value values (fold_xor s t)
        ≡ sign (signal_value values s) (signal_value values t) }
    ensures mux { (values : Valuation) (c s t : Signal)
        → folded_value values (fold_mux c s t)
        ≡ (if signal_value values c then signal_value values s else signal_value values t) }
    ensures majority { (values : Valuation) (s t u : Signal)
        → folded_value values (fold_majority s t u)
        ≡ (if signal_value values s then signal_value values t || signal_value values u
        else signal_value values t && signal_value values u) }
{}

/// Where an assignment satisfies the clauses of some gates, there is one that satisfies those of
/// the folded gates: so a refutation of these refutes those.
pub fn models_are_kept()
    ensures { (gates : List Gate) → are_in_order 0 gates ≡ true → (values : Valuation)
        → satisfies values (clauses_from 0 gates) ≡ true
        → (model : Valuation) × (satisfies model (clauses_from 0 (folded gates)) ≡ true) }
{}

/// A gate that is found again, and near misses; signs, opposite arms, and constants.
pub fn gates_are_folded()
    ensures again { folded twice ≡ once }
    ensures apart { folded unlike ≡ unlike_folded }
    ensures signs { folded signs ≡ signs_folded }
    ensures constants { folded carries ≡ carries_folded }
{}
