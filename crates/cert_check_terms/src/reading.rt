//! What has been read, and subterms that are put on top of it.

ghost use Rattle.std.specs.Prelude.{length};
ghost use Rattle.term_bank.specs.Nodes.{IsNode, build, Extends};
ghost use Rattle.cert_check_terms.specs.Reading as spec;
ghost use Rattle.cert_check_terms.specs.Outcomes.{IsMade, IsPushed, IsPushedIf};

use crate::fault::TermFault;
use attempt::Refusal;
use cert_text_spec::Operator;
use term_bank::{Bank, TermId, TermNode};
use term_core_spec::Sort;

/// A subterm that is whole.
#[derive(Clone, Copy)]
pub(crate) struct Subterm {
    /// Its index.
    pub id: TermId,
    /// Its sort.
    pub sort: Sort,
}

/// An operator whose bracket is open, or a subterm that is whole.
#[derive(Clone, Copy)]
pub(crate) enum Entry {
    /// the operator
    Bracket(Operator),
    /// the subterm
    Whole(Subterm),
}

/// What has been read.
#[derive(Drop)]
pub(crate) struct Reading {
    /// The numbers of the calls before a variable.
    pub calls: Vec<u32>,
    /// The operators that are open and the subterms in them, the last on top.
    pub entries: Vec<Entry>,
    /// Room for the arguments of one operator.
    pub arguments: Vec<Subterm>,
}

/// The term of a node that has a sort, or there is none.
pub(crate) fn place(
    bank: &mut Bank,
    node: TermNode,
    sort: Option<Sort>,
) -> Result<Subterm, Refusal<TermFault>>
    requires { IsNode (length bank.old) node }
    ensures made { IsMade bank.new (spec.sorted (build bank.old node) sort) result }
    ensures extends { Extends bank.old bank.new }
{
    let sort = match sort {
        Some(sort) => sort,
        None => return Err(Refusal::Fault(TermFault::Sort)),
    };
    match bank.add(node) {
        Ok(id) => Ok(Subterm { id, sort }),
        Err(_) => Err(Refusal::NoMemory),
    }
}

/// Puts an entry on top.
pub(crate) fn push(entries: &mut Vec<Entry>, entry: Entry) -> Result<(), Refusal<TermFault>>
    ensures { IsPushed entries.old.items entries.new.items entry result }
{
    match entries.push(entry) {
        Ok(()) => Ok(()),
        Err(_) => Err(Refusal::NoMemory),
    }
}

/// Puts a subterm on top, if one was made.
pub(crate) fn push_made(
    entries: &mut Vec<Entry>,
    made: Result<Subterm, Refusal<TermFault>>,
) -> Result<(), Refusal<TermFault>>
    ensures { IsPushedIf entries.old.items entries.new.items made result }
{
    match made {
        Ok(subterm) => push(entries, Entry::Whole(subterm)),
        Err(fault) => Err(fault),
    }
}
