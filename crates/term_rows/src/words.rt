// Terms as words: an operator precedes its arguments, in brackets or not. `join2`, `join4` and
// `join8` have two, four and eight bytes; `zext`, `sext`, `low` and `byte` have their number after
// a colon, as in `low:8`; `twice:N` is the last of N sums, each of the one before with itself. A
// variable of an instance has its number and a slash before its name, as in `3/a:32`; `v:N` is a
// loaded byte, and a constant is `WIDTH:NUMBER`.

ghost use Rattle.std.specs.Prelude.{◌≡◌, ◌<◌, length, IfOk};
ghost use Rattle.term_bank.specs.Nodes.{IsNode};

use attempt::attempt;
use row_io::{decimal, split};
use std::alloc::AllocError;
use term_bank::{Bank, TermId, TermNode};
use term_core_spec::{
    Atom, BinaryOperator, Family, QuaternaryOperator, Sort, TernaryOperator, UnaryOperator,
    Variable, Width, WordOperator,
};

/// What a word names.
#[derive(Clone, Copy)]
enum Name {
    Truth(bool),
    Constant(Width, u64),
    Variable(Family, usize, Sort),
    Unary(UnaryOperator),
    Binary(BinaryOperator),
    Ternary(TernaryOperator),
    Quaternary(QuaternaryOperator),
    Octonary,
}

const NAMES: [(&str, Name); 65] = [
    ("true", Name::Truth(true)),
    ("false", Name::Truth(false)),
    ("m0", Name::Variable(Family::SourceMemory, 0, Sort::Memory)),
    ("m1", Name::Variable(Family::SourceMemory, 1, Sort::Memory)),
    ("z0", Name::Variable(Family::BinaryMemory, 0, Sort::Memory)),
    ("z1", Name::Variable(Family::ZoneMemory, 0, Sort::Memory)),
    ("p", Name::Variable(Family::IsSet, 0, Sort::Truth)),
    ("q", Name::Variable(Family::IsSet, 1, Sort::Truth)),
    ("r", Name::Variable(Family::IsSet, 2, Sort::Truth)),
    (
        "a:8",
        Name::Variable(Family::Register, 0, Sort::Word(Width::W8)),
    ),
    (
        "a:16",
        Name::Variable(Family::Register, 0, Sort::Word(Width::W16)),
    ),
    (
        "a:32",
        Name::Variable(Family::Register, 0, Sort::Word(Width::W32)),
    ),
    (
        "a:64",
        Name::Variable(Family::Register, 0, Sort::Word(Width::W64)),
    ),
    (
        "b:8",
        Name::Variable(Family::Register, 1, Sort::Word(Width::W8)),
    ),
    (
        "b:16",
        Name::Variable(Family::Register, 1, Sort::Word(Width::W16)),
    ),
    (
        "b:32",
        Name::Variable(Family::Register, 1, Sort::Word(Width::W32)),
    ),
    (
        "b:64",
        Name::Variable(Family::Register, 1, Sort::Word(Width::W64)),
    ),
    (
        "c:8",
        Name::Variable(Family::Register, 2, Sort::Word(Width::W8)),
    ),
    (
        "c:16",
        Name::Variable(Family::Register, 2, Sort::Word(Width::W16)),
    ),
    (
        "c:32",
        Name::Variable(Family::Register, 2, Sort::Word(Width::W32)),
    ),
    (
        "c:64",
        Name::Variable(Family::Register, 2, Sort::Word(Width::W64)),
    ),
    ("not", Name::Unary(UnaryOperator::Not)),
    ("bnot", Name::Unary(UnaryOperator::Complement)),
    ("zext:8", Name::Unary(UnaryOperator::ZeroExtend(Width::W8))),
    (
        "zext:16",
        Name::Unary(UnaryOperator::ZeroExtend(Width::W16)),
    ),
    (
        "zext:32",
        Name::Unary(UnaryOperator::ZeroExtend(Width::W32)),
    ),
    (
        "zext:64",
        Name::Unary(UnaryOperator::ZeroExtend(Width::W64)),
    ),
    ("sext:8", Name::Unary(UnaryOperator::SignExtend(Width::W8))),
    (
        "sext:16",
        Name::Unary(UnaryOperator::SignExtend(Width::W16)),
    ),
    (
        "sext:32",
        Name::Unary(UnaryOperator::SignExtend(Width::W32)),
    ),
    (
        "sext:64",
        Name::Unary(UnaryOperator::SignExtend(Width::W64)),
    ),
    ("low:8", Name::Unary(UnaryOperator::Low(Width::W8))),
    ("low:16", Name::Unary(UnaryOperator::Low(Width::W16))),
    ("low:32", Name::Unary(UnaryOperator::Low(Width::W32))),
    ("low:64", Name::Unary(UnaryOperator::Low(Width::W64))),
    ("byte:0", Name::Unary(UnaryOperator::Byte(0))),
    ("byte:1", Name::Unary(UnaryOperator::Byte(1))),
    ("byte:2", Name::Unary(UnaryOperator::Byte(2))),
    ("byte:3", Name::Unary(UnaryOperator::Byte(3))),
    ("byte:4", Name::Unary(UnaryOperator::Byte(4))),
    ("byte:5", Name::Unary(UnaryOperator::Byte(5))),
    ("byte:6", Name::Unary(UnaryOperator::Byte(6))),
    ("byte:7", Name::Unary(UnaryOperator::Byte(7))),
    ("and", Name::Binary(BinaryOperator::And)),
    ("or", Name::Binary(BinaryOperator::Or)),
    ("eq", Name::Binary(BinaryOperator::Equal)),
    ("ult", Name::Binary(BinaryOperator::Less)),
    ("load8", Name::Binary(BinaryOperator::Load)),
    ("join2", Name::Binary(BinaryOperator::Join)),
    ("add", Name::Binary(BinaryOperator::Word(WordOperator::Add))),
    (
        "sub",
        Name::Binary(BinaryOperator::Word(WordOperator::Subtract)),
    ),
    (
        "mul",
        Name::Binary(BinaryOperator::Word(WordOperator::Multiply)),
    ),
    (
        "band",
        Name::Binary(BinaryOperator::Word(WordOperator::And)),
    ),
    ("bor", Name::Binary(BinaryOperator::Word(WordOperator::Or))),
    (
        "bxor",
        Name::Binary(BinaryOperator::Word(WordOperator::Xor)),
    ),
    (
        "shl",
        Name::Binary(BinaryOperator::Word(WordOperator::ShiftLeft)),
    ),
    (
        "shr",
        Name::Binary(BinaryOperator::Word(WordOperator::ShiftRight)),
    ),
    (
        "sar",
        Name::Binary(BinaryOperator::Word(WordOperator::ShiftRightSigned)),
    ),
    (
        "udiv",
        Name::Binary(BinaryOperator::Word(WordOperator::Divide)),
    ),
    (
        "urem",
        Name::Binary(BinaryOperator::Word(WordOperator::Remainder)),
    ),
    ("ite", Name::Ternary(TernaryOperator::Choose)),
    ("store8", Name::Ternary(TernaryOperator::Store)),
    ("over", Name::Quaternary(QuaternaryOperator::Over)),
    ("join4", Name::Quaternary(QuaternaryOperator::Join)),
    ("join8", Name::Octonary),
];

/// What a word names: what the table says, or a loaded byte or a constant.
fn named(word: &str) -> Name {
    for (of, name) in &NAMES {
        if *of == word {
            return *name;
        }
    }
    let (kind, number) = split(word, ':');
    if kind == "v" {
        return Name::Variable(
            Family::LoadedByte,
            decimal(number) as usize,
            Sort::Word(Width::W8),
        );
    }
    Name::Constant(width(decimal(kind)), decimal(number))
}

fn width(bits: u64) -> Width {
    match bits {
        8 => Width::W8,
        16 => Width::W16,
        32 => Width::W32,
        _ => Width::W64,
    }
}

fn atom_of(name: Name, instance: usize) -> Atom {
    match name {
        Name::Variable(family, index, sort) => Atom::Open(Variable {
            family,
            index,
            instance,
            sort,
        }),
        Name::Constant(width, number) => Atom::Constant(width, number),
        Name::Truth(truth) => Atom::Truth(truth),
        _ => Atom::Truth(false),
    }
}

/// A truth value, a variable or a constant.
pub(crate) fn atom(word: &str) -> Atom {
    match word.split_once('/') {
        Some((instance, word)) => atom_of(named(word), decimal(instance) as usize),
        None => atom_of(named(word), 0),
    }
}

/// The last index that was read, if it is below the count.
pub(crate) fn next(read: &mut Vec<TermId>, count: usize) -> TermId
    requires { 0 < count }
    ensures { result < count }
{
    match read.pop() {
        Some(id) if id < count => id,
        _ => 0,
    }
}

/// The node of a word over indices that were read, that of the first argument last. They are taken
/// one after the other, until the word has all its arguments.
pub(crate) fn node(read: &mut Vec<TermId>, count: usize, word: &str) -> TermNode
    requires { 0 < count }
    ensures { IsNode count result }
{
    match named(word) {
        Name::Unary(operator) => TermNode::Unary(operator, next(read, count)),
        Name::Binary(operator) => {
            let (a, b) = (next(read, count), next(read, count));
            TermNode::Binary(operator, a, b)
        }
        Name::Ternary(operator) => {
            let (a, b, c) = (next(read, count), next(read, count), next(read, count));
            TermNode::Ternary(operator, a, b, c)
        }
        Name::Quaternary(operator) => {
            let (a, b) = (next(read, count), next(read, count));
            let (c, d) = (next(read, count), next(read, count));
            TermNode::Quaternary(operator, a, b, c, d)
        }
        Name::Octonary => octonary(read, count),
        _ => TermNode::Leaf(atom(word)),
    }
}

fn octonary(read: &mut Vec<TermId>, count: usize) -> TermNode
    requires { 0 < count }
    ensures { IsNode count result }
{
    let a = next(read, count);
    let b = next(read, count);
    let c = next(read, count);
    let d = next(read, count);
    let e = next(read, count);
    let f = next(read, count);
    let g = next(read, count);
    let h = next(read, count);
    TermNode::Octonary(a, b, c, d, e, f, g, h)
}

/// The last of so many sums, each of the one before with itself.
fn doubled(bank: &mut Bank, term: TermId, times: u64) -> Result<TermId, AllocError> {
    let mut sum = term;
    for _ in 0..times {
        if sum < bank.len() {
            sum = attempt!(bank.add(TermNode::Binary(
                BinaryOperator::Word(WordOperator::Add),
                sum,
                sum
            )));
        }
    }
    Ok(sum)
}

/// How many terms a bank has that has one.
fn count(bank: &mut Bank) -> Result<usize, AllocError>
    ensures some { IfOk result (λ count. 0 < count) }
    ensures all { IfOk result (λ count. count ≡ length bank.new) }
{
    let _truth = attempt!(bank.add(TermNode::Leaf(Atom::Truth(true))));
    Ok(bank.len())
}

fn read_word(bank: &mut Bank, read: &mut Vec<TermId>, word: &str) -> Result<(), AllocError> {
    let count = attempt!(count(bank));
    let id = match word.strip_prefix("twice:") {
        Some(times) => attempt!(doubled(bank, next(read, count), decimal(times))),
        None => attempt!(bank.add(node(read, count, word))),
    };
    read.push(id)?;
    Ok(())
}

fn read_words(bank: &mut Bank, read: &mut Vec<TermId>, text: &str) -> Result<(), AllocError> {
    for word in text.rsplit(' ') {
        let word = word.trim_start_matches('(').trim_end_matches(')');
        attempt!(read_word(bank, read, word));
    }
    Ok(())
}

/// The index of a term that is written as words.
pub(crate) fn term(
    bank: &mut Bank,
    read: &mut Vec<TermId>,
    text: &str,
) -> Result<TermId, AllocError>
    ensures { IfOk result (λ i. i < length bank.new) }
{
    attempt!(read_words(bank, read, text));
    let count = attempt!(count(bank));
    Ok(next(read, count))
}
