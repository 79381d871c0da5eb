ghost use Rattle.std.specs.Prelude.{◌≡◌, ◌<◌, length, map, slice_get, slice_set, Some, OnOk};
ghost use Rattle.cnf_core.specs.Codes.{code_of};
ghost use Rattle.sat_search_spec.specs.Watches.{list_of};
ghost use Rattle.sat_search_state.specs.Lists.{IsAdded, IsRemovedFrom, IsRemoved, IsReplaced};

use cnf_core::Literal;
use sat_search_spec::Watcher;
use std::alloc::AllocError;

/// How many watchers are in the list of a literal.
pub fn count_of(lists: &[Vec<Watcher>], literal: Literal) -> usize
    requires { code_of literal < length lists.now }
    ensures { result ≡ length (list_of (map (λ v. v.items) lists.now) literal) }
{
    lists[literal.code()].len()
}

/// The watcher of a place in the list of a literal.
pub fn watcher_at(lists: &[Vec<Watcher>], literal: Literal, place: usize) -> Watcher
    requires code { code_of literal < length lists.now }
    requires place { place < length (list_of (map (λ v. v.items) lists.now) literal) }
    ensures { slice_get (list_of (map (λ v. v.items) lists.now) literal) place ≡ Some result }
{
    lists[literal.code()][place]
}

/// Adds a watcher to the list of a literal.
pub fn add_watcher(
    lists: &mut [Vec<Watcher>],
    literal: Literal,
    watcher: Watcher,
) -> Result<(), AllocError>
    requires { code_of literal < length lists.old }
    ensures { OnOk result (IsAdded (map (λ v. v.items) lists.old) (map (λ v. v.items) lists.new)
        literal watcher) }
{
    lists[literal.code()].push(watcher)?;
    Ok(())
}

/// Takes the watcher of a place out of a list; the last one takes its place.
fn remove_from(list: &mut Vec<Watcher>, place: usize)
    requires { place < length list.old.items }
    ensures removed { IsRemovedFrom list.old.items list.new.items place }
    ensures shorter { length list.new.items < length list.old.items }
{
    let _watcher = list.swap_remove(place);
}

/// Takes the watcher of a place out of the list of a literal.
pub fn remove_watcher(lists: &mut [Vec<Watcher>], literal: Literal, place: usize)
    requires code { code_of literal < length lists.old }
    requires place { place < length (list_of (map (λ v. v.items) lists.old) literal) }
    ensures { IsRemoved (map (λ v. v.items) lists.old)
        (map (λ v. v.items) lists.new) literal place }
{
    remove_from(&mut lists[literal.code()], place);
}

/// Puts another watcher into the place of one in the list of a literal.
pub fn replace_watcher(lists: &mut [Vec<Watcher>], literal: Literal, place: usize, watcher: Watcher)
    requires code { code_of literal < length lists.old }
    requires place { place < length (list_of (map (λ v. v.items) lists.old) literal) }
    ensures { IsReplaced (map (λ v. v.items) lists.old) (map (λ v. v.items) lists.new) literal
        place
        watcher }
{
    lists[literal.code()][place] = watcher;
}
