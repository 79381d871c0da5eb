ghost use Rattle.std.specs.Prelude.{◌≡◌, ◌+◌, ◌-◌, ◌*◌, ◌^◌, ◌<◌, ◌≤◌, ◌++◌, ◌∷◌, []};
ghost use Rattle.std.specs.Prelude.{MatchResult, length, take};
ghost use Rattle.std.specs.Prelude.{true, false};
ghost use Rattle.std.specs.Prelude.{◌↔◌, slice_get, Some, IfSome, IfNone, IfOk, OnOk, IsTrue};
ghost use Rattle.clause_check_spec.specs.Clause.{is_of, negation as negated};
ghost use Rattle.sat_search_spec.specs.Trail.{IsAt, IsAbsent, IsRising, IsCut};

use attempt::attempt;
use cnf_core::{Literal, negation};
use sat_search_spec::Entry;
use std::alloc::{AllocError, Global};
use std::marker::Model;

/// How many codes the literals of so many variables take; out of memory exactly where no `usize`
/// holds it.
fn codes_of(variables: usize) -> Result<usize, AllocError>
    ensures { MatchResult result (λ codes. codes ≡ 2 * variables + 2)
        (λ _. 2 ^ 64 ≤ 2 * variables + 2) }
{
    if variables < usize::MAX / 2 {
        Ok(2 * variables + 2)
    } else {
        Err(AllocError)
    }
}

/// The literals that are true, in the order in which they became true.
#[derive(Drop)]
pub struct Trail {
    entries: Vec<Entry>,
    /// By variable, that of variable 1 first: the place of its entry.
    places: Vec<usize>,
    /// By the code of a literal: whether it is true.
    truths: Vec<bool>,
    level: usize,
}

impl Model for Trail {
    ghost use Rattle.std.specs.Prelude.{length};
    ghost use Rattle.sat_search_spec.specs.Trail.{Trailed};
    ghost use Rattle.sat_search_state.specs.Placed.{IsKept};

    ghost Value = { Trailed };

    ghost view = { λ t. record {
      variables = length t.places.items;
      entries = t.entries.items;
      level = t.level;
    } };

    ghost invariant = { λ t. IsKept t.entries.items t.places.items t.truths.items };
}

impl Trail {
    /// No literal of so many variables is true, at level 0.
    pub fn new(alloc: Global, variables: usize) -> Result<Trail, AllocError>
        ensures { IfOk result (λ t. t
            ≡ record { variables = variables; entries = []; level = 0 }) }
    {
        let first: usize = 0;
        let codes = attempt!(codes_of(variables));
        let places = attempt!(vec![in alloc; first; variables]);
        let truths = attempt!(vec![in alloc; false; codes]);
        Ok(Trail {
            entries: Vec::new(alloc),
            places,
            truths,
            level: 0,
        })
    }

    /// How many variables there are.
    pub fn variables(&self) -> usize
        ensures { result ≡ self.now.variables }
    {
        self.places.len()
    }

    /// How many literals are true.
    pub fn len(&self) -> usize
        ensures { result ≡ length self.now.entries }
    {
        self.entries.len()
    }

    /// Whether no literal is true.
    pub fn is_empty(&self) -> bool
        ensures { IsTrue result ↔ (length self.now.entries ≡ 0) }
    {
        self.entries.is_empty()
    }

    /// How many decisions there are.
    pub fn level(&self) -> usize
        ensures { result ≡ self.now.level }
    {
        self.level
    }

    /// The entry of a place.
    pub fn entry(&self, place: usize) -> Entry
        requires { place < length self.now.entries }
        ensures { slice_get self.now.entries place ≡ Some result }
    {
        self.entries[place]
    }

    /// The place at which the literal became true; none where it isn't true.
    pub fn place(&self, literal: Literal) -> Option<usize>
        requires { is_of self.now.variables literal ≡ true }
        ensures there { IfSome result (λ place. IsAt self.now.entries place literal) }
        ensures nowhere { IfNone result (IsAbsent self.now.entries literal) }
    {
        if self.truths[literal.code()] {
            Some(self.places[literal.variable() - 1])
        } else {
            None
        }
    }

    /// Makes a literal without value true, at the level of now. The reason is the number of a
    /// clause, or 0.
    pub fn push(&mut self, literal: Literal, reason: usize) -> Result<(), AllocError>
        requires of_variables { is_of self.old.variables literal ≡ true }
        requires not_true { IsAbsent self.old.entries literal }
        requires not_false { IsAbsent self.old.entries (negated literal) }
        ensures added { OnOk result (self.new ≡ record self.old {
          entries = self.old.entries
              ++ (record { literal = literal; reason = reason; level = self.old.level }) ∷ [];
        }) }
    {
        let place = self.entries.len();
        self.entries.push(Entry {
            literal,
            reason,
            level: self.level,
        })?;
        self.places[literal.variable() - 1] = place;
        self.truths[literal.code()] = true;
        Ok(())
    }

    /// One more level; out of memory exactly where no `usize` holds its number.
    pub fn open_level(&mut self) -> Result<(), AllocError>
        ensures { MatchResult result
            (λ _. self.new ≡ record self.old { level = self.old.level + 1 })
            (λ _. 2 ^ 64 ≤ self.old.level + 1) }
    {
        match self.level.checked_add(1) {
            Some(level) => {
                self.level = level;
                Ok(())
            }
            None => Err(AllocError),
        }
    }

    /// How many entries have at most this level.
    pub fn cut(&self, level: usize) -> usize
        requires { IsRising self.now.entries }
        ensures { IsCut self.now.entries level result }
    {
        let mut place = self.entries.len();
        while place > 0 && self.entries[place - 1].level > level {
            place -= 1;
        }
        place
    }

    /// The last entry goes.
    fn pop(&mut self)
        requires { 0 < length self.old.entries }
        ensures { self.new ≡ record self.old {
          entries = take (length self.old.entries - 1) self.old.entries;
        } }
    {
        let last = self.entries.len() - 1;
        let literal = self.entries[last].literal;
        self.truths[literal.code()] = false;
        self.entries.truncate(last);
    }

    /// Only the entries before a place stay, at this level.
    pub fn shorten(&mut self, place: usize, level: usize)
        ensures { self.new ≡ record {
          variables = self.old.variables;
          entries = take place self.old.entries;
          level = level;
        } }
    {
        while self.len() > place {
            self.pop();
        }
        self.level = level;
    }
}
