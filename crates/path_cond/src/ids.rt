//! Ids of terms by number, in trees that share what they have in common.

ghost use Rattle.std.specs.Prelude.{◌≡◌, ℕ, ◌==◌, if◌then◌else◌, Some, IfOk};
ghost use Rattle.path_cond.specs.Ids.{id_at, of_parts};

use attempt::attempt;
use std::alloc::{AllocError, Global};
use std::rc::Rc;
use term_bank::TermId;

/// An id at some numbers, none at the others. A copy shares all, and a change makes one new node
/// for each bit of the number.
#[derive(Drop)]
pub enum Ids {
    /// at no number
    Empty,
    /// at 0; at the odd numbers, by their halves; and at the even ones from 2 on, by their halves
    /// less 1
    Node(Option<TermId>, Rc<Ids>, Rc<Ids>),
}

impl Ids {
    /// The id at a number.
    #[tactic(auto, unfolding(crate::specs::Ids::id_at))]
    pub fn get(&self, number: usize) -> Option<TermId>
        ensures { result ≡ id_at self.now number }
    {
        match self {
            Ids::Empty => None,
            Ids::Node(id, odd, even) => {
                if number == 0 {
                    return *id;
                }
                let half = number / 2;
                if number % 2 == 1 {
                    odd.get(half)
                } else {
                    even.get(half - 1)
                }
            }
        }
    }

    /// The same ids; what there is is shared.
    #[tactic(auto, unfolding(crate::specs::Ids::id_at))]
    pub fn share(&self) -> Result<Ids, AllocError>
        ensures { IfOk result (λ t. (n : ℕ) → id_at t n ≡ id_at self.now n) }
    {
        match self {
            Ids::Empty => Ok(Ids::Empty),
            Ids::Node(id, odd, even) => {
                let odd = attempt!(odd.clone());
                let even = attempt!(even.clone());
                Ok(Ids::Node(*id, odd, even))
            }
        }
    }

    // The id at 0, those at the odd numbers, and those at the other even ones, shared.
    #[tactic(auto, unfolding(crate::specs::Ids::id_at))]
    fn parts(&self, alloc: Global) -> Result<(Option<TermId>, Rc<Ids>, Rc<Ids>), AllocError>
        ensures { IfOk result (λ p. (n : ℕ)
            → id_at self.now n ≡ of_parts p.0 p.1.value p.2.value n) }
    {
        match self {
            Ids::Empty => {
                let odd = Rc::new(alloc, Ids::Empty)?;
                let even = attempt!(odd.clone());
                Ok((None, odd, even))
            }
            Ids::Node(id, odd, even) => {
                let odd = attempt!(odd.clone());
                let even = attempt!(even.clone());
                Ok((*id, odd, even))
            }
        }
    }

    /// The ids with one changed.
    pub fn with(&self, alloc: Global, number: usize, id: TermId) -> Result<Ids, AllocError>
        ensures { IfOk result (λ t. (n : ℕ)
            → id_at t n ≡ (if n == number then Some id else id_at self.now n)) }
    {
        let (first, odd, even) = self.parts(alloc)?;
        if number == 0 {
            return Ok(Ids::Node(Some(id), odd, even));
        }
        let half = number / 2;
        if number % 2 == 1 {
            let changed_odd = odd.with(alloc, half, id)?;
            with_odd(alloc, first, changed_odd, even)
        } else {
            let changed_even = even.with(alloc, half - 1, id)?;
            with_even(alloc, first, odd, changed_even)
        }
    }
}

// New ids at the odd numbers.
#[tactic(auto, unfolding(crate::specs::Ids::id_at))]
fn with_odd(
    alloc: Global,
    first: Option<TermId>,
    odd: Ids,
    even: Rc<Ids>,
) -> Result<Ids, AllocError>
    ensures { IfOk result (λ t. (n : ℕ) → id_at t n ≡ of_parts first odd even.value n) }
{
    let odd = Rc::new(alloc, odd)?;
    Ok(Ids::Node(first, odd, even))
}

// New ids at the even numbers from 2 on.
#[tactic(auto, unfolding(crate::specs::Ids::id_at))]
fn with_even(
    alloc: Global,
    first: Option<TermId>,
    odd: Rc<Ids>,
    even: Ids,
) -> Result<Ids, AllocError>
    ensures { IfOk result (λ t. (n : ℕ) → id_at t n ≡ of_parts first odd.value even n) }
{
    let even = Rc::new(alloc, even)?;
    Ok(Ids::Node(first, odd, even))
}
