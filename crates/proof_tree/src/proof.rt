//! Points and proofs.

ghost use Rattle.std.specs.Prelude.{◌≤◌, ◌↔◌, IsTrue};
ghost use Rattle.term_core.specs.Trees.{term_of};
ghost use Rattle.proof_tree_spec.specs.Proofs as spec;
ghost use Rattle.proof_tree.specs.Proofs.{proof_of};

use proof_tree_spec::{Counts, Place};
use term_core::Term;

/// The first node of an instruction, in the code of the function or of an inlined call.
#[derive(Drop)]
pub struct BinaryPoint {
    /// The addresses of the calls that lead to the inlined call, outermost first.
    pub path: Vec<u32>,
    /// The address of the instruction.
    pub address: u32,
}

/// A place in the source of the function or of an inlined call.
#[derive(Drop)]
pub struct SourcePoint {
    /// The numbers of the calls that lead to the inlined call, outermost first.
    pub path: Vec<u32>,
    /// The place.
    pub place: Place,
}

/// A point of one side.
#[derive(Drop)]
pub enum Point {
    /// of the binary
    OnBinary(BinaryPoint),
    /// of the source
    OnSource(SourcePoint),
}

/// A point of each side.
#[derive(Drop)]
pub struct Points {
    /// Of the binary.
    pub binary: BinaryPoint,
    /// Of the source.
    pub source: SourcePoint,
}

/// A proof of a frame: the rule at its root, and proofs of the frames that it leaves.
#[derive(Drop)]
pub enum Proof {
    /// both sides' walks end; so many logs close what is left
    Leaf(u32),
    /// where the term holds, and where it doesn't
    Case(Box<Term>, Box<Proof>, Box<Proof>),
    /// so many arrivals at the point don't come
    Restrict(Box<Point>, usize, Box<Proof>),
    /// from the start to the cut, at its enter counts; from the cut on, at its step counts; the
    /// relation there
    Split(Box<Points>, Counts, Counts, Vec<Box<Term>>, Box<Proof>, Box<Proof>),
    /// from the start to the calls; from the landing nodes after them on; the relations before and
    /// after
    Call(Box<Points>, Counts, Vec<Box<Term>>, Vec<Box<Term>>, Box<Proof>, Box<Proof>),
    /// from the start with a hold at the cut; from the cut on, at its step counts; the relation
    /// there
    Hold(Box<Points>, Counts, Vec<Box<Term>>, Box<Proof>, Box<Proof>),
    /// the binary side alone comes to the hold at these points
    Wait(Box<Points>),
}

/// Whether a term nests at most so deep: it has at most so many operators on a path. It calls
/// itself at most `room` levels deep.
#[tactic(auto, unfolding(proof_tree_spec::specs::Proofs::term_nesting))]
pub fn term_nests_within(term: &Term, room: usize) -> bool
    ensures { IsTrue result ↔ (spec.term_nesting (term_of term.now) ≤ room) }
{
    if room == 0 {
        return matches!(term, Term::Leaf(_));
    }
    let room = room - 1;
    match term {
        Term::Leaf(_) => true,
        Term::Unary(_, a) => term_nests_within(a, room),
        Term::Binary(_, a, b) => term_nests_within(a, room) && term_nests_within(b, room),
        Term::Ternary(_, a, b, c) => {
            term_nests_within(a, room) && term_nests_within(b, room) && term_nests_within(c, room)
        }
        Term::Quaternary(_, a, b, c, d) => {
            term_nests_within(a, room)
                && term_nests_within(b, room)
                && term_nests_within(c, room)
                && term_nests_within(d, room)
        }
        Term::Octonary(a, b, c, d, e, f, g, h) => {
            term_nests_within(a, room)
                && term_nests_within(b, room)
                && term_nests_within(c, room)
                && term_nests_within(d, room)
                && term_nests_within(e, room)
                && term_nests_within(f, room)
                && term_nests_within(g, room)
                && term_nests_within(h, room)
        }
    }
}

/// Whether a proof nests at most so deep: it has at most so many nodes on a path, its last node
/// among them. It calls itself at most `room` levels deep.
#[tactic(auto, unfolding(proof_tree_spec::specs::Proofs::nesting))]
pub fn nests_within(proof: &Proof, room: usize) -> bool
    ensures { IsTrue result ↔ (spec.nesting (proof_of proof.now) ≤ room) }
{
    if room == 0 {
        return false;
    }
    let room = room - 1;
    match proof {
        Proof::Leaf(_) | Proof::Wait(_) => true,
        Proof::Restrict(_, _, rest) => nests_within(rest, room),
        Proof::Case(_, a, b) => nests_within(a, room) && nests_within(b, room),
        Proof::Split(_, _, _, _, a, b) => nests_within(a, room) && nests_within(b, room),
        Proof::Call(_, _, _, _, a, b) => nests_within(a, room) && nests_within(b, room),
        Proof::Hold(_, _, _, a, b) => nests_within(a, room) && nests_within(b, room),
    }
}
