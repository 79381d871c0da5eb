//! The frames at the entries of listed functions.

ghost use Rattle.std.specs.Prelude.{◌≡◌, ◌<◌, ◌^◌, [], length, IfOk, IsSome, OnOk};
ghost use Rattle.std.specs.List.Sorted.{IsStrictlyIncreasing};
ghost use Rattle.c_types.specs.Typed.{typed_of};
ghost use Rattle.pair_setup_calls.specs.Names.{texts_of};
ghost use Rattle.pair_setup_spec.specs.SourceReach.{body_of};
ghost use Rattle.cert_run.specs.Entries.{AreEntriesFor, AreReady, IsEntryFor};

use attempt::attempt;
use c_graph::source_number;
use c_types::typed::Typed;
use cert_check_frames::{Entry, File, Numbers};
use decompile::graph_number;
use pair_setup::{Function, Pairs};
use std::alloc::{AllocError, Global};

/// The entry of the function of a name.
fn entry_of<'a>(
    alloc: Global,
    unit: &Typed<'_>,
    file: File<'_>,
    entries: &[u32],
    name: &'a [u8],
    function: &Function,
) -> Result<Entry<'a>, AllocError>
    requires rising { IsStrictlyIncreasing entries.now }
    requires body { IsSome (body_of (typed_of unit.now) name.now) }
    requires small { function.now.stack < 2 ^ 32 }
    ensures { IfOk result (IsEntryFor (typed_of unit.now) entries.now file.entry name.now
        function.now) }
{
    let body = unit.body(name).unwrap();
    let numbers = Numbers {
        code: graph_number(entries, function.entry),
        body: source_number(unit, name),
        first: 0,
    };
    Entry::new(alloc, name, body, function.stack as u32, numbers, file)
}

/// Adds the entries of the functions of a list.
fn add_entries<'a>(
    alloc: Global,
    made: &mut Vec<Entry<'a>>,
    unit: &Typed<'_>,
    file: File<'_>,
    list: &[&'a [u8]],
    pairs: &Pairs,
) -> Result<(), AllocError>
    requires none { made.old.items ≡ [] }
    requires rising { IsStrictlyIncreasing pairs.now.entries.items }
    requires ready { AreReady (typed_of unit.now) (texts_of list.now) pairs.now.functions.items }
    ensures { OnOk result (AreEntriesFor (typed_of unit.now) pairs.now.entries.items file.entry
        (texts_of list.now) pairs.now.functions.items (length list.now) made.new.items) }
{
    let entries = pairs.entries.as_slice();
    let functions = pairs.functions.as_slice();
    for index in 0..list.len() {
        let function = &functions[index];
        let entry = attempt!(entry_of(alloc, unit, file, entries, list[index], function));
        attempt!(made.push(entry), AllocError);
    }
    Ok(())
}

/// The entries of the functions of a list.
pub(crate) fn entries<'a>(
    alloc: Global,
    unit: &Typed<'_>,
    file: File<'_>,
    list: &[&'a [u8]],
    pairs: &Pairs,
) -> Result<Vec<Entry<'a>>, AllocError>
    requires rising { IsStrictlyIncreasing pairs.now.entries.items }
    requires ready { AreReady (typed_of unit.now) (texts_of list.now) pairs.now.functions.items }
    ensures { IfOk result (λ made. AreEntriesFor (typed_of unit.now) pairs.now.entries.items
        file.entry (texts_of list.now) pairs.now.functions.items (length list.now) made.items) }
{
    let mut made = Vec::new(alloc);
    attempt!(add_entries(alloc, &mut made, unit, file, list, pairs));
    Ok(made)
}
