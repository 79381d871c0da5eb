// Questions on the tree of a term:
//
// - `subterms:MAXIMUM TERM`: how many distinct subterms it has, or `above` if more than so many
// - `substitute:VARIABLES TERM TERM..`: the first term with the others in place of the variables,
//   which commas separate
// - `rename:INSTANCE TERM`: the term whose registers and truth values belong to the instance

ghost use Rattle.std.specs.Prelude.{◌<◌, length, IfOk};
ghost use Rattle.std.specs.HashMap.{get};
ghost use Rattle.term_core_spec.specs.Same.{same_variable};
ghost use Rattle.term_substitution.specs.States.{AreBelow};

use crate::Row;
use crate::terms::{compare, tree};
use crate::words::{atom, next};
use attempt::attempt;
use row_io::{Out, decimal};
use std::alloc::{AllocError, Global};
use std::collections::HashMap;
use term_bank::{Bank, TermId};
use term_core_spec::{Atom, Family, Variable};
use term_substitution::{rename, substitute};

/// Writes how many distinct subterms a term has.
pub(crate) fn put_subterms(
    alloc: Global,
    bank: &Bank,
    id: TermId,
    maximum: &str,
    out: &mut Out,
) -> Result<(), AllocError>
    requires { id < length bank.now }
{
    match attempt!(bank.count_subterms(alloc, id, decimal(maximum) as usize)) {
        Some(count) => out.show(&count),
        None => out.put("above"),
    }
    Ok(())
}

fn put(
    state: &mut HashMap<Variable, TermId>,
    name: &str,
    id: TermId,
    size: usize,
) -> Result<(), AllocError>
    requires state { AreBelow size (get same_variable state.old) }
    requires id { id < size }
    ensures { AreBelow size (get same_variable state.new) }
{
    if let Atom::Open(variable) = atom(name) {
        state.insert(variable, id)?;
    }
    Ok(())
}

/// A term that was read for each of the variables, the first of them last.
fn state(
    alloc: Global,
    bank: &Bank,
    read: &mut Vec<TermId>,
    names: &str,
) -> Result<HashMap<Variable, TermId>, AllocError>
    requires { 0 < length bank.now }
    ensures { IfOk result (λ found. AreBelow (length bank.now) (get same_variable found)) }
{
    let mut state = HashMap::new(alloc);
    for name in names.split(',') {
        attempt!(put(&mut state, name, next(read, bank.len()), bank.len()));
    }
    Ok(state)
}

/// Writes the term that terms are substituted into.
pub(crate) fn put_substituted(
    alloc: Global,
    bank: &mut Bank,
    read: &mut Vec<TermId>,
    id: TermId,
    row: Row<'_>,
    out: &mut Out,
) -> Result<(), AllocError>
    requires { id < length bank.old }
{
    let tree = attempt!(tree(alloc, bank, id));
    let state = attempt!(state(alloc, bank, read, row.detail));
    let made = attempt!(substitute(bank, &tree, &state));
    compare(bank, read, made, row.form, out)
}

/// Writes the renamed term.
pub(crate) fn put_renamed(
    alloc: Global,
    bank: &mut Bank,
    read: &mut Vec<TermId>,
    id: TermId,
    row: Row<'_>,
    out: &mut Out,
) -> Result<(), AllocError>
    requires { id < length bank.old }
{
    let own = [Family::Register, Family::IsSet];
    let tree = attempt!(tree(alloc, bank, id));
    let renamed = attempt!(rename(alloc, &tree, &own, decimal(row.detail) as usize));
    let nothing: HashMap<Variable, TermId> = HashMap::new(alloc);
    let made = attempt!(substitute(bank, &renamed, &nothing));
    compare(bank, read, made, row.form, out)
}
