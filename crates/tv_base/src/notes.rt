/// What a run tells of a listed function while it works.
#[derive(Clone, Copy)]
pub enum Note<'a> {
    /// A proof of the function of this name is searched next, after those of so many of all.
    Begun {
        /// its name
        name: &'a [u8],
        /// how many functions are done
        done: usize,
        /// how many there are
        all: usize,
    },
    /// No call meets the premises of the function begun last: each breaks a guard of its source.
    Vacuous,
    /// What the search for a log of an obligation of the function begun last took.
    Searched {
        /// its number, from 0
        obligation: usize,
        /// the variables of its clauses; 0 where its normal form is a truth value
        variables: usize,
        /// the clauses that were learnt
        learnt: u64,
        /// how many times a literal became true
        assignments: u64,
    },
    /// All functions are done.
    Finished,
}

/// Where a run tells how it goes on. No clause speaks of it: a note has no answer, so that a fault
/// of one changes nothing.
pub trait Notes {
    /// Takes a note.
    fn note(&mut self, note: &Note<'_>);
}

/// Takes notes and keeps none.
#[derive(Clone, Copy)]
pub struct NoNotes;

impl Notes for NoNotes {
    fn note(&mut self, _: &Note<'_>) {}
}
