//! Operators around their arguments.

ghost use Rattle.std.specs.Prelude.{◌≡◌, [], length, List};
ghost use Rattle.term_core_spec.specs.Term.{Term};
ghost use Rattle.term_bank.specs.Nodes.{Extends};
ghost use Rattle.cert_check_terms.specs.Reading as spec;
ghost use Rattle.cert_check_terms.specs.Views.{AreInside, AreSubtermsInside, arguments_of};
ghost use Rattle.cert_check_terms.specs.Views.{entries_of};
ghost use Rattle.cert_check_terms.specs.Outcomes.{AreNext, IsMade, Takes};

use crate::fault::TermFault;
use crate::operators::{binary, is_choose, is_join, unary};
use crate::reading::{Entry, Subterm, place, push_made};
use attempt::Refusal;
use cert_text_spec::Operator;
use term_bank::{Bank, TermNode};
use term_core::{
    sort_of_binary, sort_of_octonary, sort_of_quaternary, sort_of_ternary, sort_of_unary,
};
use term_core_spec::{QuaternaryOperator, TernaryOperator};

// An operator around one argument.
fn around_one(
    bank: &mut Bank,
    operator: Operator,
    arguments: &[Subterm],
) -> Result<Subterm, Refusal<TermFault>>
    requires count { length arguments.now ≡ 1 }
    requires inside { AreSubtermsInside (length bank.old) arguments.now }
    ensures made { IsMade bank.new (spec.around operator (arguments_of bank.old arguments.now))
        result }
    ensures extends { Extends bank.old bank.new }
{
    let a = arguments[0];
    match unary(operator) {
        Some(unary) => place(
            bank,
            TermNode::Unary(unary, a.id),
            sort_of_unary(unary, a.sort),
        ),
        None => Err(Refusal::Fault(TermFault::Sort)),
    }
}

// Around two, the last of which comes first.
fn around_two(
    bank: &mut Bank,
    operator: Operator,
    arguments: &[Subterm],
) -> Result<Subterm, Refusal<TermFault>>
    requires count { length arguments.now ≡ 2 }
    requires inside { AreSubtermsInside (length bank.old) arguments.now }
    ensures made { IsMade bank.new (spec.around operator (arguments_of bank.old arguments.now))
        result }
    ensures extends { Extends bank.old bank.new }
{
    let (b, a) = (arguments[0], arguments[1]);
    match binary(operator) {
        Some(binary) => {
            let sort = sort_of_binary(binary, a.sort, b.sort);
            place(bank, TermNode::Binary(binary, a.id, b.id), sort)
        }
        None => Err(Refusal::Fault(TermFault::Sort)),
    }
}

// Around three.
fn around_three(
    bank: &mut Bank,
    operator: Operator,
    arguments: &[Subterm],
) -> Result<Subterm, Refusal<TermFault>>
    requires count { length arguments.now ≡ 3 }
    requires inside { AreSubtermsInside (length bank.old) arguments.now }
    ensures made { IsMade bank.new (spec.around operator (arguments_of bank.old arguments.now))
        result }
    ensures extends { Extends bank.old bank.new }
{
    if is_choose(operator) {
        let (c, b, a) = (arguments[0], arguments[1], arguments[2]);
        let sort = sort_of_ternary(TernaryOperator::Choose, a.sort, b.sort, c.sort);
        let node = TermNode::Ternary(TernaryOperator::Choose, a.id, b.id, c.id);
        return place(bank, node, sort);
    }
    Err(Refusal::Fault(TermFault::Sort))
}

// Around four.
fn around_four(
    bank: &mut Bank,
    operator: Operator,
    arguments: &[Subterm],
) -> Result<Subterm, Refusal<TermFault>>
    requires count { length arguments.now ≡ 4 }
    requires inside { AreSubtermsInside (length bank.old) arguments.now }
    ensures made { IsMade bank.new (spec.around operator (arguments_of bank.old arguments.now))
        result }
    ensures extends { Extends bank.old bank.new }
{
    if is_join(operator) {
        let (d, c) = (arguments[0], arguments[1]);
        let (b, a) = (arguments[2], arguments[3]);
        let sort = sort_of_quaternary(QuaternaryOperator::Join, a.sort, b.sort, c.sort, d.sort);
        let node = TermNode::Quaternary(QuaternaryOperator::Join, a.id, b.id, c.id, d.id);
        return place(bank, node, sort);
    }
    Err(Refusal::Fault(TermFault::Sort))
}

// Around eight.
fn around_eight(
    bank: &mut Bank,
    operator: Operator,
    arguments: &[Subterm],
) -> Result<Subterm, Refusal<TermFault>>
    requires count { length arguments.now ≡ 8 }
    requires inside { AreSubtermsInside (length bank.old) arguments.now }
    ensures made { IsMade bank.new (spec.around operator (arguments_of bank.old arguments.now))
        result }
    ensures extends { Extends bank.old bank.new }
{
    if is_join(operator) {
        let (h, g) = (arguments[0], arguments[1]);
        let (f, e) = (arguments[2], arguments[3]);
        let (d, c) = (arguments[4], arguments[5]);
        let (b, a) = (arguments[6], arguments[7]);
        let sort = sort_of_octonary([
            Some(a.sort),
            Some(b.sort),
            Some(c.sort),
            Some(d.sort),
            Some(e.sort),
            Some(f.sort),
            Some(g.sort),
            Some(h.sort),
        ]);
        let node = TermNode::Octonary(a.id, b.id, c.id, d.id, e.id, f.id, g.id, h.id);
        return place(bank, node, sort);
    }
    Err(Refusal::Fault(TermFault::Sort))
}

// An operator around its arguments, the last of which comes first.
fn around(
    bank: &mut Bank,
    operator: Operator,
    arguments: &[Subterm],
) -> Result<Subterm, Refusal<TermFault>>
    requires { AreSubtermsInside (length bank.old) arguments.now }
    ensures made { IsMade bank.new (spec.around operator (arguments_of bank.old arguments.now))
        result }
    ensures extends { Extends bank.old bank.new }
{
    let count = arguments.len();
    if count == 1 {
        return around_one(bank, operator, arguments);
    }
    if count == 2 {
        return around_two(bank, operator, arguments);
    }
    if count == 3 {
        return around_three(bank, operator, arguments);
    }
    if count == 4 {
        return around_four(bank, operator, arguments);
    }
    if count == 8 {
        return around_eight(bank, operator, arguments);
    }
    Err(Refusal::Fault(TermFault::Sort))
}

// Takes the arguments that a bracket closes, and their operator.
fn take_arguments(
    entries: &mut Vec<Entry>,
    arguments: &mut Vec<Subterm>,
) -> Result<Operator, Refusal<TermFault>>
    ensures { (trees : List Term) → AreInside (length trees) entries.old.items
        → Takes trees (spec.closing (entries_of trees entries.old.items) []) entries.new.items
        arguments.new.items result }
{
    arguments.clear();
    while let Some(entry) = entries.pop() {
        match entry {
            Entry::Bracket(operator) => return Ok(operator),
            Entry::Whole(subterm) => match arguments.push(subterm) {
                Ok(()) => {}
                Err(_) => return Err(Refusal::NoMemory),
            },
        }
    }
    Err(Refusal::Fault(TermFault::Sort))
}

/// Closes the innermost operator that is open.
pub(crate) fn close(
    bank: &mut Bank,
    entries: &mut Vec<Entry>,
    arguments: &mut Vec<Subterm>,
) -> Result<(), Refusal<TermFault>>
    requires { AreInside (length bank.old) entries.old.items }
    ensures next { AreNext bank.new (spec.closed_by (entries_of bank.old entries.old.items))
        entries.new.items result }
    ensures extends { Extends bank.old bank.new }
{
    match take_arguments(entries, arguments) {
        Ok(operator) => {
            let made = around(bank, operator, arguments.as_slice());
            push_made(entries, made)
        }
        Err(fault) => Err(fault),
    }
}
