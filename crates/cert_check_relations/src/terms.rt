//! Terms over a function's values at entry, from parts that may be out of memory.

ghost use Rattle.std.specs.Prelude.{◌≡◌, IfOk};
ghost use Rattle.term_core.specs.Trees.{term_of};
ghost use Rattle.sim_rules_spec.specs.Calling as calling;
ghost use Rattle.agreement_laws.specs.EntryFrame as spec;

use attempt::attempt;
use c_types_spec::Scalar;
use sim_rules_terms::{open, over_two, word};
use std::alloc::{AllocError, Global};
use term_core::Term;
use term_core_spec::{
    Atom, BinaryOperator, Family, Sort, UnaryOperator, Variable, Width, WordOperator,
};

/// The stack pointer.
pub const STACK_POINTER: usize = 2;

/// A variable that is not of an inlined body.
pub fn variable(family: Family, index: usize, sort: Sort) -> Variable
    ensures { result ≡ record { family = family; index = index; instance = 0; sort = sort } }
{
    Variable {
        family,
        index,
        instance: 0,
        sort,
    }
}

/// A register of the machine.
pub fn register(alloc: Global, number: usize) -> Result<Box<Term>, AllocError>
    ensures { IfOk result (λ t. term_of t.value ≡ calling.register number) }
{
    let word = Sort::Word(Width::W32);
    open(alloc, variable(Family::Register, number, word))
}

/// The value of a register at entry.
pub fn at_entry(alloc: Global, number: usize) -> Result<Box<Term>, AllocError>
    ensures { IfOk result (λ t. term_of t.value ≡ calling.at_entry number) }
{
    let word = Sort::Word(Width::W32);
    open(alloc, variable(Family::Entry, number, word))
}

/// The word of a number.
pub fn constant(alloc: Global, number: u64) -> Result<Box<Term>, AllocError>
    ensures { IfOk result (λ t. term_of t.value ≡ calling.word number) }
{
    Term::leaf(alloc, Atom::Constant(Width::W32, number))
}

/// The value of a variable of a type, widened to a word by the sign of the type.
pub fn widened(alloc: Global, of: Scalar, variable: Variable) -> Result<Box<Term>, AllocError>
    ensures { IfOk result (λ t. term_of t.value ≡ spec.widened of variable) }
{
    let value = attempt!(open(alloc, variable));
    if of.width < 32 {
        if of.is_signed {
            Term::unary(alloc, UnaryOperator::SignExtend(Width::W32), value)
        } else {
            Term::unary(alloc, UnaryOperator::ZeroExtend(Width::W32), value)
        }
    } else if 32 < of.width {
        Term::unary(alloc, UnaryOperator::Low(Width::W32), value)
    } else {
        Ok(value)
    }
}

/// Where the zone begins: so many bytes below the stack pointer at entry.
pub fn zone_from(alloc: Global, stack: u32) -> Result<Box<Term>, AllocError>
    ensures { IfOk result (λ t. term_of t.value ≡ calling.zone_from stack) }
{
    over_two(
        alloc,
        BinaryOperator::Word(WordOperator::Subtract),
        at_entry(alloc, STACK_POINTER),
        word(alloc, stack),
    )
}
