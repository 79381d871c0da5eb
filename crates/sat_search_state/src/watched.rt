ghost use Rattle.std.specs.Prelude.{◌≡◌, ◌+◌, ◌*◌, ◌<◌, ◌≤◌, ◌++◌, ◌∷◌, [], length, slice_get};
ghost use Rattle.std.specs.Prelude.{slice_set};
ghost use Rattle.std.specs.Prelude.{Some, IfErr, IfOk, OnOk};
ghost use Rattle.cnf_core.specs.Codes.{code_of};
ghost use Rattle.sat_search_spec.specs.Watches.{list_of};
ghost use Rattle.sat_search_state.specs.Lists.{IsAdded, IsRemoved, IsReplaced, IsAttached};
ghost use Rattle.sat_search_state.specs.Lists.{IsBare};

use crate::lists::{add_watcher, count_of, remove_watcher, replace_watcher, watcher_at};
use cnf_core::{Literal, MAX_VARIABLE};
use sat_search_spec::{Watch, Watcher, is_same};
use std::alloc::{AllocError, Global};
use std::marker::Model;

/// The index of a clause in 32 bits.
fn narrow(index: usize) -> Result<u32, AllocError>
    ensures number { IfOk result (λ n. n ≡ index) }
    ensures large { IfErr result (λ error. 4294967295 < index) }
{
    if index <= u32::MAX as usize {
        Ok(index as u32)
    } else {
        Err(AllocError)
    }
}

/// The watched literals of clauses, and for each literal the clauses that may watch it.
#[derive(Drop)]
pub struct Watches {
    watches: Vec<Watch>,
    lists: Vec<Vec<Watcher>>,
    head: usize,
}

impl Model for Watches {
    ghost use Rattle.std.specs.Prelude.{map};
    ghost use Rattle.sat_search_spec.specs.Watches.{Watched};

    ghost Value = { Watched };

    ghost view = { λ w. record {
      watches = w.watches.items;
      lists = map (λ v. v.items) w.lists.items;
      head = w.head;
    } };
}

impl Watches {
    /// Of no clauses over so many variables.
    pub fn new(alloc: Global, variables: usize) -> Result<Watches, AllocError>
        requires { variables ≤ MAX_VARIABLE }
        ensures { IfOk result (λ w. IsBare w (2 * variables + 2)) }
    {
        let mut lists = Vec::new(alloc);
        for _index in 0..2 * variables + 2 {
            lists.push(Vec::new(alloc))?;
        }
        Ok(Watches {
            watches: Vec::new(alloc),
            lists,
            head: 0,
        })
    }

    /// The place of the first entry of the trail that is still to be propagated.
    pub fn head(&self) -> usize
        ensures { result ≡ self.now.head }
    {
        self.head
    }

    /// Changes that place.
    pub fn set_head(&mut self, head: usize)
        ensures { self.new ≡ record self.old { head = head } }
    {
        self.head = head;
    }

    /// The watches of the clause of an index.
    pub fn watch(&self, clause: usize) -> Watch
        requires { clause < length self.now.watches }
        ensures { slice_get self.now.watches clause ≡ Some result }
    {
        self.watches[clause]
    }

    /// Changes them.
    pub fn set_watch(&mut self, clause: usize, watch: Watch)
        requires { clause < length self.old.watches }
        ensures { self.new ≡ record self.old { watches = slice_set self.old.watches clause watch } }
    {
        self.watches[clause] = watch;
    }

    /// How many watchers are in the list of a literal.
    pub fn count(&self, literal: Literal) -> usize
        requires { code_of literal < length self.now.lists }
        ensures { result ≡ length (list_of self.now.lists literal) }
    {
        count_of(self.lists.as_slice(), literal)
    }

    /// The watcher of a place in the list of a literal.
    pub fn watcher(&self, literal: Literal, place: usize) -> Watcher
        requires code { code_of literal < length self.now.lists }
        requires place { place < length (list_of self.now.lists literal) }
        ensures { slice_get (list_of self.now.lists literal) place ≡ Some result }
    {
        watcher_at(self.lists.as_slice(), literal, place)
    }

    /// Adds a watcher to the list of a literal.
    pub fn listen(&mut self, literal: Literal, watcher: Watcher) -> Result<(), AllocError>
        requires { code_of literal < length self.old.lists }
        ensures added { OnOk result (IsAdded self.old.lists self.new.lists literal watcher) }
        ensures room { length self.new.lists ≡ length self.old.lists }
        ensures same { self.new ≡ record self.old { lists = self.new.lists } }
    {
        add_watcher(self.lists.as_mut_slice(), literal, watcher)
    }

    /// Puts another watcher into the place of one in the list of a literal.
    pub fn replace(&mut self, literal: Literal, place: usize, watcher: Watcher)
        requires code { code_of literal < length self.old.lists }
        requires place { place < length (list_of self.old.lists literal) }
        ensures replaced { IsReplaced self.old.lists self.new.lists literal place watcher }
        ensures room { length self.new.lists ≡ length self.old.lists }
        ensures same { self.new ≡ record self.old { lists = self.new.lists } }
    {
        replace_watcher(self.lists.as_mut_slice(), literal, place, watcher);
    }

    /// Takes the watcher of a place out of the list of a literal.
    pub fn remove(&mut self, literal: Literal, place: usize)
        requires code { code_of literal < length self.old.lists }
        requires place { place < length (list_of self.old.lists literal) }
        ensures removed { IsRemoved self.old.lists self.new.lists literal place }
        ensures room { length self.new.lists ≡ length self.old.lists }
        ensures same { self.new ≡ record self.old { lists = self.new.lists } }
    {
        remove_watcher(self.lists.as_mut_slice(), literal, place);
    }

    /// Adds the watches of one more clause.
    fn push_watch(&mut self, watch: Watch) -> Result<(), AllocError>
        ensures { OnOk result (self.new
            ≡ record self.old { watches = self.old.watches ++ watch ∷ [] }) }
    {
        self.watches.push(watch)?;
        Ok(())
    }

    /// Watches one more clause at these literals. Where they are one, the clause is in no list.
    pub fn attach(&mut self, watch: Watch) -> Result<(), AllocError>
        requires first { code_of watch.first < length self.old.lists }
        requires second { code_of watch.second < length self.old.lists }
        ensures { OnOk result (IsAttached self.old self.new watch) }
    {
        if is_same(watch.first, watch.second) {
            self.push_watch(watch)?;
            return Ok(());
        }
        let clause = narrow(self.watches.len())?;
        let first = Watcher {
            clause,
            blocker: watch.second,
        };
        self.listen(watch.first, first)?;
        let second = Watcher {
            clause,
            blocker: watch.first,
        };
        self.listen(watch.second, second)?;
        self.push_watch(watch)?;
        Ok(())
    }
}
