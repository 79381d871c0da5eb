//! The list of the visits of a walk, with the edges into each.

ghost use Rattle.std.specs.Prelude.{◌≡◌, ◌<◌, [], length, get_or};
ghost use Rattle.visit_walk_spec.specs.Visits.{ends_at_bound, ends_at_stop};
ghost use Rattle.visit_walk.specs.Tables.{stray};

use crate::counts::{counts_after, is_last_at};
use crate::table::{Table, counts_of, place_of};
use graph_core_spec::{Mark, Next};
use std::marker::Model;
use visit_walk_spec::Incoming;

/// The visits of a walk, in reversed post-order of the depth-first walk that takes the true branch
/// of a test first, and the edges into each. A visit is known by its position in this order.
#[derive(Drop)]
pub struct Visits {
    pub(crate) table: Table,
    pub(crate) order: Vec<usize>,
    pub(crate) incoming: Vec<Vec<Incoming>>,
}

impl Model for Visits {
    ghost use Rattle.visit_walk_spec.specs.Listing.{Listing};

    ghost Value = { Listing };

    ghost use Rattle.visit_walk.specs.Found.{listing_of, AreParts};

    ghost view = { λ v. listing_of v.table v.order.items v.incoming.items };

    ghost invariant = { λ v. AreParts v.table v.order.items v.incoming.items };
}

impl Visits {
    /// How many visits there are.
    pub fn len(&self) -> usize
        ensures { result ≡ length self.now.visits }
    {
        self.order.len()
    }

    /// The place of the visit at a position.
    pub fn place(&self, position: usize) -> Next
        requires { position < length self.now.visits }
        ensures { result ≡ (get_or self.now.visits position stray).place }
    {
        place_of(self.table.keys[self.order[position]])
    }

    /// How often the walk has arrived at the node of each stop and then of each bound, at the visit
    /// at a position.
    pub fn counts(&self, position: usize) -> &[usize]
        requires { position < length self.now.visits }
        ensures { result.now ≡ (get_or self.now.visits position stray).counts }
    {
        let counts = counts_of(self.table.keys[self.order[position]]);
        self.table.vectors[counts].as_slice()
    }

    /// The edges into the visit at a position, in the order of the positions that they come from,
    /// the true branch of a test before the false one.
    pub fn incoming(&self, position: usize) -> &[Incoming]
        requires { position < length self.now.visits }
        ensures { result.now ≡ get_or self.now.incoming position [] }
    {
        self.incoming[self.order[position]].as_slice()
    }

    /// Whether the visit at a position is an arrival at a stop, where the walk has these stops.
    pub fn is_stop(&self, position: usize, stops: &[Mark]) -> bool
        requires { position < length self.now.visits }
        ensures { result ≡ ends_at_stop stops.now (get_or self.now.visits position stray) }
    {
        is_last_at(self.place(position), stops, self.counts(position))
    }

    /// Whether it is an arrival that breaks a bound and no stop, where the walk has these stops and
    /// bounds.
    pub fn is_bounded(&self, position: usize, stops: &[Mark], bounds: &[Mark]) -> bool
        requires { position < length self.now.visits }
        ensures { result ≡ ends_at_bound stops.now bounds.now
            (get_or self.now.visits position stray) }
    {
        if self.is_stop(position, stops) {
            return false;
        }
        let counts = counts_after(self.counts(position), stops.len());
        is_last_at(self.place(position), bounds, counts)
    }
}
