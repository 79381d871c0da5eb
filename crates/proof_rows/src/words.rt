//! Terms as words: an operator, then its arguments. A variable is `x.1` (a register), `e.1` (at
//! entry), `p.0` (a parameter), `v.0` (a local), `s.0` (whether it is set), `w.2` (a further word
//! of the source), `m`, `am` and `z` (the memories of the source, of the binary and in the zone) or
//! `q` (any address); what a callee leaves of it has a `'` after its name. A word of another width
//! than 32 bits has `:` and the width after it, as a constant has. `T` and `F` are the truth
//! values.

ghost use Rattle.std.specs.Prelude.{◌<◌, length};

use attempt::attempt;
use row_io::{Out, decimal, split};
use std::alloc::{AllocError, Global};
use term_bank::{Bank, TermId, TermNode};
use term_core::Term;
use term_core_spec::{
    Atom, BinaryOperator, Family, QuaternaryOperator, Sort, UnaryOperator, Variable, Width,
    WordOperator,
};

const WORD: Sort = Sort::Word(Width::W32);

/// Families, the names of their variables, and their sorts, but for widths.
const FAMILIES: [(&str, Family, Sort); 10] = [
    ("x", Family::Register, WORD),
    ("e", Family::Entry, WORD),
    ("p", Family::Parameter, WORD),
    ("v", Family::Local, WORD),
    ("s", Family::IsSet, Sort::Truth),
    ("w", Family::Further, WORD),
    ("m", Family::SourceMemory, Sort::Memory),
    ("am", Family::BinaryMemory, Sort::Memory),
    ("z", Family::ZoneMemory, Sort::Memory),
    ("q", Family::Address, WORD),
];

/// Operators of two arguments and their names.
const OPERATORS: [(&str, BinaryOperator); 8] = [
    ("and", BinaryOperator::And),
    ("or", BinaryOperator::Or),
    ("eq", BinaryOperator::Equal),
    ("ult", BinaryOperator::Less),
    ("load8", BinaryOperator::Load),
    ("add", BinaryOperator::Word(WordOperator::Add)),
    ("sub", BinaryOperator::Word(WordOperator::Subtract)),
    ("band", BinaryOperator::Word(WordOperator::And)),
];

fn width(bits: &str) -> Width {
    match bits {
        "8" => Width::W8,
        "16" => Width::W16,
        "64" => Width::W64,
        _ => Width::W32,
    }
}

/// The family of a name, and the sort of its variables.
fn family(name: &str) -> (Family, Sort) {
    for (of, family, sort) in &FAMILIES {
        if *of == name {
            return (*family, *sort);
        }
    }
    (Family::LoadedByte, WORD)
}

/// The variable of a word.
pub(crate) fn variable(text: &str) -> Variable {
    let (name, rest) = split(text, '.');
    let (index, bits) = split(rest, ':');
    let (family, sort) = family(name);
    let sort = match sort {
        Sort::Word(_) => Sort::Word(width(bits)),
        _ => sort,
    };
    Variable {
        family,
        index: decimal(index) as usize,
        instance: 0,
        sort,
    }
}

fn atom(text: &str) -> Atom {
    let (number, bits) = split(text, ':');
    match text.bytes().next() {
        Some(b'T') => Atom::Truth(true),
        Some(b'F') => Atom::Truth(false),
        Some(b'0'..=b'9') => Atom::Constant(width(bits), decimal(number)),
        _ => Atom::Open(variable(text)),
    }
}

fn operator(name: &str) -> Option<BinaryOperator> {
    for (of, operator) in &OPERATORS {
        if *of == name {
            return Some(*operator);
        }
    }
    None
}

/// The term that was read last; one that is missing is false.
fn last(alloc: Global, read: &mut Vec<Box<Term>>) -> Result<Box<Term>, AllocError> {
    match read.pop() {
        Some(term) => Ok(term),
        None => Term::leaf(alloc, Atom::Truth(false)),
    }
}

/// An operator before the two terms that were read last.
fn over_two(
    alloc: Global,
    read: &mut Vec<Box<Term>>,
    operator: BinaryOperator,
) -> Result<Box<Term>, AllocError> {
    let first = attempt!(last(alloc, read));
    let second = attempt!(last(alloc, read));
    Term::binary(alloc, operator, first, second)
}

/// The term that a word begins, before those that were read.
fn begun(alloc: Global, read: &mut Vec<Box<Term>>, text: &str) -> Result<Box<Term>, AllocError> {
    if text == "not" {
        let term = attempt!(last(alloc, read));
        return Term::unary(alloc, UnaryOperator::Not, term);
    }
    match operator(text) {
        Some(operator) => over_two(alloc, read, operator),
        None => Term::leaf(alloc, atom(text)),
    }
}

/// Reads the terms of words, the last word first.
fn add_read(alloc: Global, read: &mut Vec<Box<Term>>, words: &[&str]) -> Result<(), AllocError> {
    for index in 0..words.len() {
        let term = attempt!(begun(alloc, read, words[words.len() - 1 - index]));
        attempt!(read.push(term), AllocError);
    }
    Ok(())
}

/// Adds the words of a text.
fn add_words<'a>(words: &mut Vec<&'a str>, text: &'a str) -> Result<(), AllocError> {
    for word in text.trim().split(' ') {
        attempt!(words.push(word), AllocError);
    }
    Ok(())
}

/// The term of some words.
pub(crate) fn term(alloc: Global, text: &str) -> Result<Box<Term>, AllocError> {
    let mut words = Vec::new(alloc);
    attempt!(add_words(&mut words, text));
    let mut read = Vec::new(alloc);
    attempt!(add_read(alloc, &mut read, words.as_slice()));
    last(alloc, &mut read)
}

fn put_width(width: Width, out: &mut Out) {
    match width {
        Width::W8 => out.put(":8"),
        Width::W16 => out.put(":16"),
        Width::W32 => {}
        Width::W64 => out.put(":64"),
    }
}

fn put_family(family: Family, out: &mut Out) {
    for (name, of, _) in &FAMILIES {
        if *of == family {
            out.put(name);
        }
    }
}

fn put_index(index: usize, out: &mut Out) {
    out.put(".");
    out.show(&index);
}

fn put_variable(v: Variable, out: &mut Out) {
    put_family(v.family, out);
    if v.instance != 0 {
        out.put("'");
    }
    match v.sort {
        Sort::Word(width) if v.family != Family::Address => {
            put_index(v.index, out);
            put_width(width, out);
        }
        Sort::Truth => put_index(v.index, out),
        _ => {}
    }
}

fn put_atom(atom: Atom, out: &mut Out) {
    match atom {
        Atom::Truth(true) => out.put("T"),
        Atom::Truth(false) => out.put("F"),
        Atom::Constant(width, number) => {
            out.show(&number);
            put_width(width, out);
        }
        Atom::Open(variable) => put_variable(variable, out),
    }
}

fn put_unary(operator: UnaryOperator, out: &mut Out) {
    match operator {
        UnaryOperator::Not => out.put("not "),
        UnaryOperator::ZeroExtend(_) => out.put("zext "),
        UnaryOperator::SignExtend(_) => out.put("sext "),
        UnaryOperator::Low(_) => out.put("low "),
        UnaryOperator::Complement | UnaryOperator::Byte(_) => out.put("? "),
    }
}

fn put_binary(operator: BinaryOperator, out: &mut Out) {
    for (name, of) in &OPERATORS {
        if *of == operator {
            out.put(name);
        }
    }
    out.put(" ");
}

/// A term of the bank.
fn put_term(bank: &Bank, id: TermId, out: &mut Out)
    requires { id < length bank.now }
{
    match bank.node(id) {
        TermNode::Leaf(atom) => put_atom(atom, out),
        TermNode::Unary(operator, a) => {
            put_unary(operator, out);
            put_term(bank, a, out);
        }
        TermNode::Binary(operator, a, b) => {
            put_binary(operator, out);
            put_term(bank, a, out);
            out.put(" ");
            put_term(bank, b, out);
        }
        TermNode::Quaternary(QuaternaryOperator::Over, a, b, c, d) => {
            out.put("over ");
            put_term(bank, a, out);
            out.put(" ");
            put_term(bank, b, out);
            out.put(" ");
            put_term(bank, c, out);
            out.put(" ");
            put_term(bank, d, out);
        }
        _ => out.put("?"),
    }
}

/// Terms of the bank.
pub(crate) fn put_terms(bank: &Bank, terms: &[TermId], out: &mut Out) {
    let mut before = "";
    for term in terms {
        out.put(before);
        if *term < bank.len() {
            put_term(bank, *term, out);
        }
        before = " ; ";
    }
}
