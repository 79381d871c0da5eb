//! The cases of a `switch`.

ghost use Rattle.std.specs.Prelude.{◌≡◌, ◌++◌, [], ◌∷◌, IfOk, OnOk};
ghost use Rattle.c_graph_spec.specs.Layout as spec;
ghost use Rattle.c_graph_spec.specs.Layout.{Setting};
ghost use Rattle.c_graph_layout.specs.Exits.{exits_of};
ghost use Rattle.c_graph_layout.specs.Lists.{groups_of};
ghost use Rattle.c_graph.specs.Seen.{cases_in};

use attempt::attempt;
use c_graph_layout::{Exits, entry, size};
use c_types_core::action::Group;
use c_types_core::counts::sum;
use graph_core_spec::Next;
use std::alloc::{AllocError, Global};

/// A value, and where it goes on.
#[derive(Clone, Copy)]
pub(crate) struct Case {
    /// The value.
    pub value: i128,
    /// The first node of its group.
    pub next: Next,
}

/// Adds the case of a label, which `default` is not.
fn add_case(found: &mut Vec<Case>, label: &Option<i128>, next: Next) -> Result<(), AllocError>
    ensures { OnOk result (cases_in found.new.items
        ≡ cases_in found.old.items ++ spec.cases_to (label.now ∷ []) next) }
{
    match label {
        Some(value) => {
            let value = *value;
            found.push(Case { value, next })?;
            Ok(())
        }
        None => Ok(()),
    }
}

/// Adds the cases of labels.
fn add_cases(found: &mut Vec<Case>, labels: &[Option<i128>], next: Next) -> Result<(), AllocError>
    ensures { OnOk result (cases_in found.new.items
        ≡ cases_in found.old.items ++ spec.cases_to labels.now next) }
{
    for label in labels {
        attempt!(add_case(found, label, next));
    }
    Ok(())
}

/// Adds the cases of the groups of a `switch`.
fn add_all(
    found: &mut Vec<Case>,
    list: &[Group<'_>],
    at: usize,
    to: Next,
    exits: Exits,
) -> Result<(), AllocError>
    ensures { (f : Setting) → OnOk result (cases_in found.new.items
        ≡ cases_in found.old.items ++ spec.cases_of f (groups_of list.now) at to (exits_of exits)) }
{
    let inside = Exits {
        breaks: to,
        continues: exits.continues,
    };
    let mut begin = at;
    for group in list {
        let next = attempt!(entry(&group.body, begin, to, inside));
        attempt!(add_cases(found, group.labels.as_slice(), next));
        let many = attempt!(size(&group.body));
        begin = attempt!(sum(begin, many));
    }
    Ok(())
}

/// The cases of the groups of a `switch`, in order.
pub(crate) fn all_cases(
    alloc: Global,
    list: &[Group<'_>],
    at: usize,
    to: Next,
    exits: Exits,
) -> Result<Vec<Case>, AllocError>
    ensures { (f : Setting) → IfOk result (λ found. cases_in found.items
        ≡ spec.cases_of f (groups_of list.now) at to (exits_of exits)) }
{
    let mut found = Vec::new(alloc);
    attempt!(add_all(&mut found, list, at, to, exits));
    Ok(found)
}
