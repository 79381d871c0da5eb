//! Variables, operands and the least terms.

ghost use Rattle.std.specs.Prelude.{◌≡◌};
ghost use Rattle.term_core.specs.Trees.{term_of};
ghost use Rattle.term_core_spec.specs.Term as tree;
ghost use Rattle.decompile_spec.specs.State as state;
ghost use Rattle.decompile_spec.specs.InstructionTerms as forms;
ghost use Rattle.decompile_terms.specs.Built.{Builds};

use attempt::attempt;
use rv_instr::Reg;
use std::alloc::{AllocError, Global};
use term_core::Term;
use term_core_spec::{Atom, BinaryOperator, Family, Sort, Variable, Width, WordOperator};

/// A machine register, as a variable.
pub fn register(r: Reg) -> Variable
    ensures { result ≡ state.register r }
{
    Variable {
        family: Family::Register,
        index: usize::from(r.number()),
        instance: 0,
        sort: Sort::Word(Width::W32),
    }
}

/// What a machine register was when the function began, as a variable.
pub fn entry_register(r: Reg) -> Variable
    ensures { result ≡ state.entry_register r }
{
    Variable {
        family: Family::Entry,
        index: usize::from(r.number()),
        instance: 0,
        sort: Sort::Word(Width::W32),
    }
}

/// The index of a table by which a jump goes, as a variable beside the machine's registers.
pub fn table_index() -> Variable
    ensures { result ≡ state.table_index }
{
    Variable {
        family: Family::Register,
        index: 32,
        instance: 0,
        sort: Sort::Word(Width::W32),
    }
}

/// The memory of the binary, as a variable.
pub fn memory() -> Variable
    ensures { result ≡ state.memory }
{
    Variable {
        family: Family::BinaryMemory,
        index: 0,
        instance: 0,
        sort: Sort::Memory,
    }
}

/// A variable as a term.
pub(crate) fn open(alloc: Global, variable: Variable) -> Result<Box<Term>, AllocError>
    ensures { Builds result (tree.open_term variable) }
{
    Term::leaf(alloc, Atom::Open(variable))
}

/// A word of 32 bits as a term.
pub fn number(alloc: Global, n: u32) -> Result<Box<Term>, AllocError>
    ensures { Builds result (forms.number n) }
{
    Term::leaf(alloc, Atom::Constant(Width::W32, u64::from(n)))
}

/// A register as an operand: x0 is the number 0.
pub fn operand(alloc: Global, r: Reg) -> Result<Box<Term>, AllocError>
    ensures { Builds result (forms.operand r) }
{
    if r.number() == 0 {
        number(alloc, 0)
    } else {
        open(alloc, register(r))
    }
}

/// An operation on two words.
pub(crate) fn on_words(
    alloc: Global,
    operator: WordOperator,
    x: Box<Term>,
    y: Box<Term>,
) -> Result<Box<Term>, AllocError>
    ensures { Builds result (tree.on_words operator (term_of x.value) (term_of y.value)) }
{
    Term::binary(alloc, BinaryOperator::Word(operator), x, y)
}

/// The address x[base] + offset.
pub fn address(alloc: Global, base: Reg, offset: i32) -> Result<Box<Term>, AllocError>
    ensures { Builds result (forms.address base offset) }
{
    let base = attempt!(operand(alloc, base));
    let offset = attempt!(number(alloc, offset.cast_unsigned()));
    on_words(alloc, WordOperator::Add, base, offset)
}

/// That x1 is as it was when the function began.
pub fn returns_home(alloc: Global) -> Result<Box<Term>, AllocError>
    ensures { Builds result forms.returns_home }
{
    let now = attempt!(open(alloc, register(Reg::new(1))));
    let entry = attempt!(open(alloc, entry_register(Reg::new(1))));
    Term::binary(alloc, BinaryOperator::Equal, now, entry)
}
