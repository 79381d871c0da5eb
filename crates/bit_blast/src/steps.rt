//! A visit of a term (`bit_blast_spec`, `specs/Goal.antt`) by single steps, of which those that are
//! left are on a stack: a visit of a term, or the entry of a term whose arguments are there.
//!
//! `specs/Steps.antt` has the steps and what a stack of them gives.

ghost use Rattle.std.specs.Prelude.{◌≡◌, ◌++◌, ◌∷◌, [], ℕ, List};
ghost use Rattle.term_core_spec.specs.Term.{Term};
ghost use Rattle.bit_blast_spec.specs.Goal.{Table};
ghost use Rattle.bit_blast.specs.Steps.{Step, Visit, Finish, IsClosed, run, visits, arguments};

/// In a table that has the arguments of each of its terms, the visit of a term is the visits of its
/// arguments and then its entry.
pub fn a_visit_is_its_steps()
    ensures { (steps : List Step) (term : Term) (table : Table) (last : ℕ) → IsClosed table
        → run (steps ++ Visit term ∷ []) table last
        ≡ run (steps ++ Finish term ∷ visits (arguments term)) table last }
{}
