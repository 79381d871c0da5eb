//! Declarations in the blocks that are open, in order, and the place of each name's last one.

ghost use Rattle.std.specs.Prelude.{◌≡◌, ◌∷◌, Some, None, IfOk, OnOk, OnErr, option_map, slice_get};
ghost use Rattle.std.specs.Prelude.{reverse};
ghost use Rattle.c_types_scope.specs.Entries.{AreTied, SetsPlace, held, hidden_since, until};
ghost use Rattle.c_types_scope.specs.Entries.{first_of, new_entry, rest_of};

use indexmap::IndexMap;
use std::alloc::{AllocError, Global};

/// A declaration in a block.
#[derive(Drop)]
pub struct Entry<'a, M> {
    /// The name.
    pub name: &'a [u8],
    /// What it means, or nothing where an earlier group of the same `switch` declared it.
    pub meaning: Option<M>,
    /// The place of the declaration that this one hides, or none.
    pub before: Option<usize>,
}

/// The place of a name's last declaration, or none.
pub(crate) fn place_of(newest: &IndexMap<&[u8], Option<usize>>, name: &[u8]) -> Option<usize>
    ensures { result ≡ held newest.now.entries name.now }
{
    match newest.get(name) {
        Some(place) => *place,
        None => None,
    }
}

/// Sets the place of a name's last declaration.
fn set_place<'a>(
    newest: &mut IndexMap<&'a [u8], Option<usize>>,
    name: &'a [u8],
    place: Option<usize>,
) -> Result<(), AllocError>
    ensures set { OnOk result (SetsPlace newest.old.entries newest.new.entries name.now place) }
    ensures same { OnErr result (newest.new.entries ≡ newest.old.entries) }
    ensures absent { OnErr result (held newest.old.entries name.now ≡ None) }
{
    newest.insert(name, place)?;
    Ok(())
}

/// Adds a declaration. Where it is out of memory all is as before.
pub(crate) fn declare<'a, M: Drop>(
    entries: &mut Vec<Entry<'a, M>>,
    newest: &mut IndexMap<&'a [u8], Option<usize>>,
    name: &'a [u8],
    meaning: M,
) -> Result<(), AllocError>
    ensures added { OnOk result (reverse entries.new.items ≡ new_entry name.entry (Some meaning)
        (held newest.old.entries name.now) ∷ reverse entries.old.items) }
    ensures tied { AreTied (reverse entries.old.items) newest.old.entries
        → AreTied (reverse entries.new.items) newest.new.entries }
    ensures same { OnErr result (entries.new.items ≡ entries.old.items) }
{
    let before = place_of(newest, name);
    let place = entries.len();
    entries.push(Entry {
        name,
        meaning: Some(meaning),
        before,
    })?;
    match set_place(newest, name, Some(place)) {
        Ok(()) => Ok(()),
        Err(error) => {
            entries.pop();
            Err(error)
        }
    }
}

/// Takes back the last declaration.
fn take_back<'a, M: Drop>(
    entries: &mut Vec<Entry<'a, M>>,
    newest: &mut IndexMap<&'a [u8], Option<usize>>,
)
    ensures rest { reverse entries.new.items ≡ rest_of (reverse entries.old.items) }
    ensures tied { AreTied (reverse entries.old.items) newest.old.entries
        → AreTied (reverse entries.new.items) newest.new.entries }
{
    match entries.pop() {
        Some(entry) => match set_place(newest, entry.name, entry.before) {
            Ok(()) | Err(_) => {}
        },
        None => {}
    }
}

/// Takes back the declarations from a place on.
pub(crate) fn unwind<'a, M: Drop>(
    entries: &mut Vec<Entry<'a, M>>,
    newest: &mut IndexMap<&'a [u8], Option<usize>>,
    start: usize,
)
    ensures rest { reverse entries.new.items ≡ until start (reverse entries.old.items) }
    ensures tied { AreTied (reverse entries.old.items) newest.old.entries
        → AreTied (reverse entries.new.items) newest.new.entries }
{
    while entries.len() > start {
        take_back(entries, newest);
    }
}

/// Hides the declarations from a place on.
pub(crate) fn hide<M: Drop>(entries: &mut [Entry<'_, M>], start: usize)
    ensures { reverse entries.new ≡ hidden_since start (reverse entries.old) }
{
    for i in start..entries.len() {
        entries[i].meaning = None;
    }
}

/// What the declaration of a place says.
pub(crate) fn meaning_at<'b, M>(entries: &'b [Entry<'_, M>], place: usize) -> Option<Option<&'b M>>
    ensures { option_map (λ m. option_map (λ x. x.now) m) result ≡ option_map (λ e. e.meaning)
        (slice_get entries.now place) }
{
    match entries.get(place) {
        Some(entry) => Some(entry.meaning.as_ref()),
        None => None,
    }
}

/// Where the innermost block starts, or none.
pub(crate) fn innermost_start(starts: &[usize]) -> Option<usize>
    ensures { result ≡ first_of (reverse starts.now) }
{
    starts.last().copied()
}
