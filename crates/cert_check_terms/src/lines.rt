//! The symbols of a line, one after the other.

ghost use Rattle.std.specs.Prelude.{◌<◌, ◌∷◌, ◌++◌, [], List, Some, length};
ghost use Rattle.term_core_spec.specs.Term.{Term};
ghost use Rattle.term_bank.specs.Nodes.{Extends};
ghost use Rattle.proof_tree.specs.Scope.{setting_of};
ghost use Rattle.cert_check_terms.specs.Reading as spec;
ghost use Rattle.cert_check_terms.specs.Views.{AreInside, IsInside, entries_of, entry_of};
ghost use Rattle.cert_check_terms.specs.Views.{reading_of};
ghost use Rattle.cert_check_terms.specs.Views.{subterm_of};
ghost use Rattle.cert_check_terms.specs.Outcomes.{AreNext, Finds, Goes, IsRead};

use crate::closing::close;
use crate::fault::TermFault;
use crate::reading::{Entry, Reading, Subterm, place, push, push_made};
use crate::variables::{is_set, local, own_variable};
use attempt::Refusal;
use cert_text_spec::{Operator, Symbol};
use proof_tree::Setting;
use std::alloc::Global;
use term_bank::{Bank, TermId, TermNode};
use term_core::sort_of_atom;
use term_core_spec::{Atom, Sort, Variable};

// A term without arguments.
fn read_atom(
    bank: &mut Bank,
    entries: &mut Vec<Entry>,
    atom: Atom,
) -> Result<(), Refusal<TermFault>>
    requires { AreInside (length bank.old) entries.old.items }
    ensures next { AreNext bank.new (spec.pushed (entries_of bank.old entries.old.items) (spec.leaf
        atom)) entries.new.items result }
    ensures extends { Extends bank.old bank.new }
{
    let made = place(bank, TermNode::Leaf(atom), sort_of_atom(atom));
    push_made(entries, made)
}

// A variable, if it is in scope.
fn read_variable(
    bank: &mut Bank,
    entries: &mut Vec<Entry>,
    variable: Option<Variable>,
) -> Result<(), Refusal<TermFault>>
    requires { AreInside (length bank.old) entries.old.items }
    ensures next { AreNext bank.new (spec.pushed_variable (entries_of bank.old entries.old.items)
        variable) entries.new.items result }
    ensures extends { Extends bank.old bank.new }
{
    match variable {
        Some(variable) => read_atom(bank, entries, Atom::Open(variable)),
        None => Err(Refusal::Fault(TermFault::Sort)),
    }
}

// The bracket of an operator.
fn open_bracket(entries: &mut Vec<Entry>, operator: Operator) -> Result<(), Refusal<TermFault>>
    ensures { (trees : List Term) → AreInside (length trees) entries.old.items
        → AreNext trees (Some (spec.Bracket operator ∷ entries_of trees entries.old.items))
        entries.new.items result }
{
    push(entries, Entry::Bracket(operator))
}

// A symbol that is no part of a variable of a body.
fn read_plain(
    setting: &Setting,
    bank: &mut Bank,
    entries: &mut Vec<Entry>,
    arguments: &mut Vec<Subterm>,
    symbol: Symbol,
) -> Result<(), Refusal<TermFault>>
    requires { AreInside (length bank.old) entries.old.items }
    ensures next { AreNext bank.new (spec.plain (setting_of setting.now) (entries_of bank.old
        entries.old.items) symbol) entries.new.items result }
    ensures extends { Extends bank.old bank.new }
{
    match symbol {
        Symbol::Truth(truth) => read_atom(bank, entries, Atom::Truth(truth)),
        Symbol::Constant(width, number) => read_atom(bank, entries, Atom::Constant(width, number)),
        Symbol::Open(operator) => open_bracket(entries, operator),
        Symbol::Close => close(bank, entries, arguments),
        other => read_variable(bank, entries, own_variable(setting, other)),
    }
}

// The number of a call before a variable.
fn read_call(reading: &mut Reading, call: u32) -> Result<(), Refusal<TermFault>>
    ensures { (trees : List Term) → AreInside (length trees) reading.old.entries.items
        → Goes trees (Some (spec.with_calls (reading.old.calls.items ++ call ∷ []) (entries_of trees
        reading.old.entries.items))) reading.new result }
{
    match reading.calls.push(call) {
        Ok(()) => Ok(()),
        Err(_) => Err(Refusal::NoMemory),
    }
}

// A variable of a body, after the calls that lead to it.
fn read_name(
    bank: &mut Bank,
    reading: &mut Reading,
    variable: Option<Variable>,
) -> Result<(), Refusal<TermFault>>
    requires { AreInside (length bank.old) reading.old.entries.items }
    ensures goes { Goes bank.new (spec.named (entries_of bank.old reading.old.entries.items)
        variable) reading.new result }
    ensures extends { Extends bank.old bank.new }
{
    reading.calls.clear();
    read_variable(bank, &mut reading.entries, variable)
}

// Another symbol: no call comes before it.
fn read_other(
    setting: &Setting,
    bank: &mut Bank,
    reading: &mut Reading,
    symbol: Symbol,
) -> Result<(), Refusal<TermFault>>
    requires { AreInside (length bank.old) reading.old.entries.items }
    ensures goes { Goes bank.new (spec.other (setting_of setting.now) (reading_of bank.old
        reading.old) symbol) reading.new result }
    ensures extends { Extends bank.old bank.new }
{
    if reading.calls.is_empty() {
        return read_plain(
            setting,
            bank,
            &mut reading.entries,
            &mut reading.arguments,
            symbol,
        );
    }
    Err(Refusal::Fault(TermFault::Sort))
}

// A symbol.
fn read_symbol(
    setting: &Setting,
    path: &[u32],
    bank: &mut Bank,
    reading: &mut Reading,
    symbol: Symbol,
) -> Result<(), Refusal<TermFault>>
    requires { AreInside (length bank.old) reading.old.entries.items }
    ensures goes { Goes bank.new (spec.step (setting_of setting.now) path.now (reading_of bank.old
        reading.old) symbol) reading.new result }
    ensures extends { Extends bank.old bank.new }
{
    match symbol {
        Symbol::Inlined(call) => read_call(reading, call),
        Symbol::Local(number) => {
            let variable = local(setting, path, reading.calls.as_slice(), number as usize);
            read_name(bank, reading, variable)
        }
        Symbol::IsSet(number) => {
            let variable = is_set(setting, path, reading.calls.as_slice(), number as usize);
            read_name(bank, reading, variable)
        }
        other => read_other(setting, bank, reading, other),
    }
}

// The symbols in their order.
fn read_symbols(
    setting: &Setting,
    path: &[u32],
    symbols: &[Symbol],
    bank: &mut Bank,
    reading: &mut Reading,
) -> Result<(), Refusal<TermFault>>
    requires { AreInside (length bank.old) reading.old.entries.items }
    ensures goes { Goes bank.new (spec.run (setting_of setting.now) path.now (reading_of bank.old
        reading.old) symbols.now) reading.new result }
    ensures extends { Extends bank.old bank.new }
{
    for symbol in symbols {
        match read_symbol(setting, path, bank, reading, *symbol) {
            Ok(()) => {}
            Err(fault) => return Err(fault),
        }
    }
    Ok(())
}

// The index of a subterm, if it is a truth value.
fn truth(subterm: Subterm) -> Result<TermId, Refusal<TermFault>>
    ensures { (trees : List Term) → subterm.id < length trees → Finds trees (spec.only (spec.Whole
        (subterm_of trees subterm) ∷ [])) result }
{
    match subterm.sort {
        Sort::Truth => Ok(subterm.id),
        Sort::Word(_) | Sort::Memory => Err(Refusal::Fault(TermFault::Sort)),
    }
}

// An entry, if it is a subterm that is a truth value.
fn whole(entry: Entry) -> Result<TermId, Refusal<TermFault>>
    ensures { (trees : List Term) → IsInside (length trees) entry → Finds trees (spec.only (entry_of
        trees entry ∷ [])) result }
{
    match entry {
        Entry::Whole(subterm) => truth(subterm),
        Entry::Bracket(_) => Err(Refusal::Fault(TermFault::Sort)),
    }
}

// The only entry, if it is a truth value.
fn only(entries: &[Entry]) -> Result<TermId, Refusal<TermFault>>
    ensures { (trees : List Term) → AreInside (length trees) entries.now → Finds trees (spec.only
        (entries_of trees entries.now)) result }
{
    let count = entries.len();
    if count == 1 {
        return whole(entries[0]);
    }
    Err(Refusal::Fault(TermFault::Sort))
}

// The line that has been read, if no calls are left.
fn finish(reading: &Reading) -> Result<TermId, Refusal<TermFault>>
    ensures { (trees : List Term) → AreInside (length trees) reading.now.entries.items
        → Finds trees (spec.finished (reading_of trees reading.now)) result }
{
    if reading.calls.is_empty() {
        return only(reading.entries.as_slice());
    }
    Err(Refusal::Fault(TermFault::Sort))
}

/// The term of a line in the source body of a path: its index in the bank, to which it is added
/// where it isn't there. After a fault, the bank may have some more terms.
pub fn read_line(
    alloc: Global,
    setting: &Setting,
    path: &[u32],
    symbols: &[Symbol],
    bank: &mut Bank,
) -> Result<TermId, Refusal<TermFault>>
    ensures read { IsRead (setting_of setting.now) path.now symbols.now bank.new result }
    ensures extends { Extends bank.old bank.new }
{
    let mut reading = Reading {
        calls: Vec::new(alloc),
        entries: Vec::new(alloc),
        arguments: Vec::new(alloc),
    };
    match read_symbols(setting, path, symbols, bank, &mut reading) {
        Ok(()) => finish(&reading),
        Err(fault) => Err(fault),
    }
}
