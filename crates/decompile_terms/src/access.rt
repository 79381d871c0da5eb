//! Loads and stores, and the tests before them.

ghost use Rattle.std.specs.Prelude.{◌≡◌};
ghost use Rattle.term_core.specs.Trees.{term_of};
ghost use Rattle.term_core_spec.specs.Term as tree;
ghost use Rattle.term_core_spec.specs.Shapes as shapes;
ghost use Rattle.term_core_spec.specs.declared.Width.TheVariants.{W32};
ghost use Rattle.decompile_spec.specs.State as state;
ghost use Rattle.decompile_spec.specs.InstructionTerms as forms;
ghost use Rattle.decompile_terms.specs.Between.{avoids_between};
ghost use Rattle.decompile_terms.specs.Built.{Builds};

use crate::basic::{memory, number, on_words, open};
use crate::products::byte;
use attempt::attempt;
use rv_instr::{LoadKind, StoreKind};
use std::alloc::{AllocError, Global};
use term_core::Term;
use term_core_spec::{
    BinaryOperator, QuaternaryOperator, TernaryOperator, UnaryOperator, Width, WordOperator,
};

/// The address so many bytes past another.
fn past(alloc: Global, a: &Term, count: u32) -> Result<Box<Term>, AllocError>
    ensures { Builds result (shapes.past (term_of a.now) count) }
{
    let copy = attempt!(a.copy(alloc));
    let count = attempt!(number(alloc, count));
    on_words(alloc, WordOperator::Add, copy, count)
}

/// The byte of the binary's memory at an address.
fn load(alloc: Global, a: Box<Term>) -> Result<Box<Term>, AllocError>
    ensures { Builds result (tree.load (tree.open_term state.memory) (term_of a.value)) }
{
    let memory = attempt!(open(alloc, memory()));
    Term::binary(alloc, BinaryOperator::Load, memory, a)
}

/// The byte at an address.
fn first_byte(alloc: Global, a: &Term) -> Result<Box<Term>, AllocError>
    ensures { Builds result (tree.load (tree.open_term state.memory) (term_of a.now)) }
{
    let copy = attempt!(a.copy(alloc));
    load(alloc, copy)
}

/// The byte so many bytes past an address.
fn further_byte(alloc: Global, a: &Term, count: u32) -> Result<Box<Term>, AllocError>
    ensures { Builds result (tree.load (tree.open_term state.memory) (shapes.past (term_of a.now)
        count)) }
{
    let place = attempt!(past(alloc, a, count));
    load(alloc, place)
}

fn load_half(alloc: Global, a: &Term) -> Result<Box<Term>, AllocError>
    ensures { Builds result (shapes.load_half (tree.open_term state.memory) (term_of a.now)) }
{
    let first = attempt!(first_byte(alloc, a));
    let second = attempt!(further_byte(alloc, a, 1));
    Term::binary(alloc, BinaryOperator::Join, first, second)
}

fn load_word(alloc: Global, a: &Term) -> Result<Box<Term>, AllocError>
    ensures { Builds result (shapes.load_word (tree.open_term state.memory) (term_of a.now)) }
{
    let first = attempt!(first_byte(alloc, a));
    let second = attempt!(further_byte(alloc, a, 1));
    let third = attempt!(further_byte(alloc, a, 2));
    let fourth = attempt!(further_byte(alloc, a, 3));
    Term::quaternary(
        alloc,
        QuaternaryOperator::Join,
        first,
        second,
        third,
        fourth,
    )
}

/// What a load puts into its register.
#[tactic(auto, unfolding(decompile_spec::specs::InstructionTerms::loaded))]
pub fn loaded(alloc: Global, kind: LoadKind, a: &Term) -> Result<Box<Term>, AllocError>
    ensures { Builds result (forms.loaded kind (term_of a.now)) }
{
    match kind {
        LoadKind::Byte => {
            let byte = attempt!(first_byte(alloc, a));
            Term::unary(alloc, UnaryOperator::SignExtend(Width::W32), byte)
        }
        LoadKind::Half => {
            let half = attempt!(load_half(alloc, a));
            Term::unary(alloc, UnaryOperator::SignExtend(Width::W32), half)
        }
        LoadKind::Word => load_word(alloc, a),
        LoadKind::ByteUnsigned => {
            let byte = attempt!(first_byte(alloc, a));
            Term::unary(alloc, UnaryOperator::ZeroExtend(Width::W32), byte)
        }
        LoadKind::HalfUnsigned => {
            let half = attempt!(load_half(alloc, a));
            Term::unary(alloc, UnaryOperator::ZeroExtend(Width::W32), half)
        }
    }
}

/// A memory with the byte at an address changed to one of a word.
fn store(
    alloc: Global,
    m: Box<Term>,
    a: Box<Term>,
    place: u8,
    x: &Term,
) -> Result<Box<Term>, AllocError>
    ensures { Builds result (tree.store (term_of m.value) (term_of a.value) (tree.byte place
        (term_of x.now))) }
{
    let value = attempt!(byte(alloc, place, x));
    Term::ternary(alloc, TernaryOperator::Store, m, a, value)
}

fn store_byte(alloc: Global, a: &Term, x: &Term) -> Result<Box<Term>, AllocError>
    ensures { Builds result (shapes.store_byte (tree.open_term state.memory) (term_of a.now)
        (term_of x.now)) }
{
    let copy = attempt!(a.copy(alloc));
    let memory = attempt!(open(alloc, memory()));
    store(alloc, memory, copy, 0, x)
}

fn store_half(alloc: Global, a: &Term, x: &Term) -> Result<Box<Term>, AllocError>
    ensures { Builds result (shapes.store_half (tree.open_term state.memory) (term_of a.now)
        (term_of x.now)) }
{
    let first = attempt!(store_byte(alloc, a, x));
    let place = attempt!(past(alloc, a, 1));
    store(alloc, first, place, 1, x)
}

fn store_word(alloc: Global, a: &Term, x: &Term) -> Result<Box<Term>, AllocError>
    ensures { Builds result (shapes.store_word (tree.open_term state.memory) (term_of a.now)
        (term_of x.now)) }
{
    let half = attempt!(store_half(alloc, a, x));
    let third = attempt!(past(alloc, a, 2));
    let three = attempt!(store(alloc, half, third, 2, x));
    let fourth = attempt!(past(alloc, a, 3));
    store(alloc, three, fourth, 3, x)
}

/// The memory after a store.
#[tactic(auto, unfolding(decompile_spec::specs::InstructionTerms::stored))]
pub fn stored(alloc: Global, kind: StoreKind, a: &Term, x: &Term) -> Result<Box<Term>, AllocError>
    ensures { Builds result (forms.stored kind (term_of a.now) (term_of x.now)) }
{
    match kind {
        StoreKind::Byte => store_byte(alloc, a, x),
        StoreKind::Half => store_half(alloc, a, x),
        StoreKind::Word => store_word(alloc, a, x),
    }
}

/// The address is a multiple of a power of 2, of which 1 is taken here.
pub fn is_multiple(alloc: Global, mask: u32, a: &Term) -> Result<Box<Term>, AllocError>
    ensures { Builds result (forms.is_multiple mask (term_of a.now)) }
{
    let copy = attempt!(a.copy(alloc));
    let mask = attempt!(number(alloc, mask));
    let low = attempt!(on_words(alloc, WordOperator::And, copy, mask));
    let zero = attempt!(number(alloc, 0));
    Term::binary(alloc, BinaryOperator::Equal, low, zero)
}

/// The last byte that a store writes.
pub fn last_written(alloc: Global, kind: StoreKind, a: &Term) -> Result<Box<Term>, AllocError>
    ensures { Builds result (forms.last_written kind (term_of a.now)) }
{
    match kind {
        StoreKind::Byte => a.copy(alloc),
        StoreKind::Half => past(alloc, a, 1),
        StoreKind::Word => past(alloc, a, 3),
    }
}

/// The number is less than the word.
fn is_above(alloc: Global, n: u32, a: &Term) -> Result<Box<Term>, AllocError>
    ensures { Builds result (tree.less (forms.number n) (term_of a.now)) }
{
    let n = attempt!(number(alloc, n));
    let copy = attempt!(a.copy(alloc));
    Term::binary(alloc, BinaryOperator::Less, n, copy)
}

/// The word is less than the number.
fn is_below(alloc: Global, a: &Term, n: u32) -> Result<Box<Term>, AllocError>
    ensures { Builds result (tree.less (term_of a.now) (forms.number n)) }
{
    let copy = attempt!(a.copy(alloc));
    let n = attempt!(number(alloc, n));
    Term::binary(alloc, BinaryOperator::Less, copy, n)
}

/// The bytes from an address to another meet none of a run of fixed bytes, of which these are the
/// first and the last.
pub fn avoids(
    alloc: Global,
    a: &Term,
    e: &Term,
    first: u32,
    last: u32,
) -> Result<Box<Term>, AllocError>
    ensures { Builds result (avoids_between (term_of a.now) (term_of e.now) first last) }
{
    let before = attempt!(is_above(alloc, last, a));
    let following = attempt!(is_below(alloc, e, first));
    Term::binary(alloc, BinaryOperator::Or, before, following)
}
