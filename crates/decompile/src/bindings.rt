//! What instructions bind that continue at the next one, and what a called function starts with.

ghost use Rattle.std.specs.Prelude.{◌≡◌, ◌*◌, ◌%◌, ◌^◌, ◌∷◌, [], ◌++◌, ◌<◌, map, All, IfOk, OnOk};
ghost use Rattle.rv_machine_spec.specs.Arithmetic.{of_immediate as of_immediate_is};
ghost use Rattle.rv_machine_spec.specs.Arithmetic.{of_shift as of_shift_is};
ghost use Rattle.graph_core.specs.Graphs.{binding_of, bindings_of, boxed_term};
ghost use Rattle.decompile_spec.specs.State.{memory as memory_is};
ghost use Rattle.decompile_spec.specs.State.{table_index as table_index_is};
ghost use Rattle.decompile_spec.specs.Blocks.{bounded_by as bounded_by_is};
ghost use Rattle.decompile_spec.specs.InstructionTerms as spec;
ghost use Rattle.decompile_spec.specs.Blocks.{call_inputs as call_inputs_are};
ghost use Rattle.decompile_spec.specs.Blocks.{tail_inputs as tail_inputs_are};
ghost use Rattle.decompile_spec.specs.Blocks.{entry_binding as entry_binding_is};
ghost use Rattle.decompile.specs.Built.{BuildsBindings};

use attempt::attempt;
use decompile_terms::{
    address, computed, entry_register, loaded, memory, number, operand, register, stored,
    table_index,
};
use graph_core::Binding;
use rv_instr::{
    ArithmeticOperation, BranchTest, ImmediateOperation, Instr, LoadKind, Reg, ShiftOperation,
    StoreKind,
};
use std::alloc::{AllocError, Global};
use term_core::Term;
use term_core_spec::{Atom, Variable};

/// Binds a variable.
fn bind(alloc: Global, variable: Variable, term: Box<Term>) -> Result<Vec<Binding>, AllocError>
    ensures { BuildsBindings result (record {
      variable = variable;
      term = boxed_term term;
    } ∷ []) }
{
    let mut bindings = Vec::new(alloc);
    bindings.push(Binding { variable, term })?;
    Ok(bindings)
}

/// Binds a register, unless it is x0, which nothing writes.
fn put(alloc: Global, rd: Reg, term: Box<Term>) -> Result<Vec<Binding>, AllocError>
    ensures { BuildsBindings result (spec.put rd (boxed_term term)) }
{
    if rd.number() == 0 {
        return Ok(Vec::new(alloc));
    }
    bind(alloc, register(rd), term)
}

/// Binds a register to a number.
fn puts(alloc: Global, rd: Reg, n: u32) -> Result<Vec<Binding>, AllocError>
    ensures { BuildsBindings result (spec.put rd (spec.number n)) }
{
    let term = attempt!(number(alloc, n));
    put(alloc, rd, term)
}

/// The operation of one with an immediate.
fn of_immediate(operation: ImmediateOperation) -> ArithmeticOperation
    ensures { result ≡ of_immediate_is operation }
{
    match operation {
        ImmediateOperation::Add => ArithmeticOperation::Add,
        ImmediateOperation::SetLess => ArithmeticOperation::SetLess,
        ImmediateOperation::SetLessUnsigned => ArithmeticOperation::SetLessUnsigned,
        ImmediateOperation::Xor => ArithmeticOperation::Xor,
        ImmediateOperation::Or => ArithmeticOperation::Or,
        ImmediateOperation::And => ArithmeticOperation::And,
    }
}

/// The operation of a shift by an amount that the word has.
fn of_shift(operation: ShiftOperation) -> ArithmeticOperation
    ensures { result ≡ of_shift_is operation }
{
    match operation {
        ShiftOperation::Left => ArithmeticOperation::ShiftLeft,
        ShiftOperation::RightLogical => ArithmeticOperation::ShiftRightLogical,
        ShiftOperation::RightArithmetic => ArithmeticOperation::ShiftRightArithmetic,
    }
}

/// What an operation of two operands binds.
fn computes(
    alloc: Global,
    operation: ArithmeticOperation,
    rd: Reg,
    x: Box<Term>,
    y: Box<Term>,
) -> Result<Vec<Binding>, AllocError>
    ensures { BuildsBindings result (spec.put rd (spec.computed operation (boxed_term x)
        (boxed_term y))) }
{
    let term = attempt!(computed(alloc, operation, x, y));
    put(alloc, rd, term)
}

/// What an operation of two registers binds.
fn computes_of(
    alloc: Global,
    operation: ArithmeticOperation,
    rd: Reg,
    left: Reg,
    right: Reg,
) -> Result<Vec<Binding>, AllocError>
    ensures { BuildsBindings result (spec.put rd (spec.computed operation (spec.operand left)
        (spec.operand right))) }
{
    let x = attempt!(operand(alloc, left));
    let y = attempt!(operand(alloc, right));
    computes(alloc, operation, rd, x, y)
}

/// What an operation of a register and a number binds.
fn computes_with(
    alloc: Global,
    operation: ArithmeticOperation,
    rd: Reg,
    source: Reg,
    n: u32,
) -> Result<Vec<Binding>, AllocError>
    ensures { BuildsBindings result (spec.put rd (spec.computed operation (spec.operand source)
        (spec.number n))) }
{
    let x = attempt!(operand(alloc, source));
    let y = attempt!(number(alloc, n));
    computes(alloc, operation, rd, x, y)
}

/// What a load binds.
fn loads(
    alloc: Global,
    kind: LoadKind,
    rd: Reg,
    base: Reg,
    offset: i32,
) -> Result<Vec<Binding>, AllocError>
    ensures { BuildsBindings result (spec.put rd (spec.loaded kind (spec.address base offset))) }
{
    let a = attempt!(address(alloc, base, offset));
    let term = attempt!(loaded(alloc, kind, &a));
    put(alloc, rd, term)
}

/// What a store binds: the memory.
fn stores(
    alloc: Global,
    kind: StoreKind,
    base: Reg,
    source: Reg,
    offset: i32,
) -> Result<Vec<Binding>, AllocError>
    ensures { BuildsBindings result (record {
      variable = memory_is;
      term = spec.stored kind
          (spec.address base offset) (spec.operand source);
    } ∷ []) }
{
    let a = attempt!(address(alloc, base, offset));
    let source = attempt!(operand(alloc, source));
    let term = attempt!(stored(alloc, kind, &a, &source));
    bind(alloc, memory(), term)
}

/// The upper 20 bits of a word.
fn upper(imm: u32) -> u32
    ensures { result ≡ (imm * 2 ^ 12) % 2 ^ 32 }
{
    imm.wrapping_mul(0x1000)
}

/// What an instruction at an address binds that continues at the next one.
#[tactic(auto, unfolding(decompile_spec::specs::InstructionTerms::effects))]
pub(crate) fn effects(
    alloc: Global,
    pc: u32,
    instruction: &Instr,
) -> Result<Vec<Binding>, AllocError>
    ensures { BuildsBindings result (spec.effects pc instruction.now) }
{
    match *instruction {
        Instr::Lui { rd, imm } => puts(alloc, rd, upper(imm)),
        Instr::Auipc { rd, imm } => puts(alloc, rd, pc.wrapping_add(upper(imm))),
        Instr::Load {
            kind,
            rd,
            base,
            offset,
        } => loads(alloc, kind, rd, base, offset),
        Instr::Store {
            kind,
            base,
            source,
            offset,
        } => stores(alloc, kind, base, source, offset),
        Instr::Immediate {
            operation,
            rd,
            source,
            imm,
        } => {
            let number = imm.cast_unsigned();
            computes_with(alloc, of_immediate(operation), rd, source, number)
        }
        Instr::Shift {
            operation,
            rd,
            source,
            amount,
        } => computes_with(alloc, of_shift(operation), rd, source, u32::from(amount)),
        Instr::Arithmetic {
            operation,
            rd,
            left,
            right,
        } => computes_of(alloc, operation, rd, left, right),
        _ => Ok(Vec::new(alloc)),
    }
}

/// What a branch bounds where it falls through, which other instructions do not: 0.
fn bounded_by(alloc: Global, instruction: &Instr) -> Result<Box<Term>, AllocError>
    ensures { IfOk result (λ term. boxed_term term ≡ bounded_by_is instruction.now) }
{
    match *instruction {
        Instr::Branch {
            test,
            left,
            right,
            ..
        } => match test {
            BranchTest::LessUnsigned => operand(alloc, right),
            BranchTest::GreaterOrEqualUnsigned => operand(alloc, left),
            BranchTest::Equal
            | BranchTest::NotEqual
            | BranchTest::Less
            | BranchTest::GreaterOrEqual => number(alloc, 0),
        },
        _ => number(alloc, 0),
    }
}

/// What a branch binds that keeps the index of a table.
pub(crate) fn keeping(alloc: Global, instruction: &Instr) -> Result<Vec<Binding>, AllocError>
    ensures { BuildsBindings result (record {
      variable = table_index_is;
      term = bounded_by_is instruction.now;
    } ∷ []) }
{
    let term = attempt!(bounded_by(alloc, instruction));
    bind(alloc, table_index(), term)
}

/// The registers but x0 and x1.
const OTHER_REGISTERS: [u8; 30] = [
    2, 3, 4, 5, 6, 7, 8, 9, 10, 11, 12, 13, 14, 15, 16, 17, 18, 19, 20, 21, 22, 23, 24, 25, 26, 27,
    28, 29, 30, 31,
];

/// A called function's entry register, which has what the register has.
fn entry_binding(alloc: Global, r: Reg) -> Result<Binding, AllocError>
    ensures { IfOk result (λ binding. binding_of binding ≡ entry_binding_is r) }
{
    let term = attempt!(Term::leaf(alloc, Atom::Open(register(r))));
    Ok(Binding {
        variable: entry_register(r),
        term,
    })
}

/// Adds what the registers of these numbers give to a called function.
fn enter(alloc: Global, bindings: &mut Vec<Binding>, numbers: &[u8]) -> Result<(), AllocError>
    requires { All (λ r. r < 32) numbers.now }
    ensures { OnOk result (bindings_of bindings.new
        ≡ bindings_of bindings.old ++ map entry_binding_is numbers.now) }
{
    for r in numbers {
        let binding = attempt!(entry_binding(alloc, Reg::new(*r)));
        bindings.push(binding)?;
    }
    Ok(())
}

/// Adds what binds a variable to a number.
fn bind_number(
    alloc: Global,
    bindings: &mut Vec<Binding>,
    variable: Variable,
    n: u32,
) -> Result<(), AllocError>
    ensures { OnOk result (bindings_of bindings.new
        ≡ bindings_of bindings.old ++ record { variable = variable; term = spec.number n } ∷ []) }
{
    let term = attempt!(number(alloc, n));
    bindings.push(Binding { variable, term })?;
    Ok(())
}

/// Adds what a called function starts with, where this is the address after the call.
#[tactic(auto, unfolding(decompile_spec::specs::Blocks::call_inputs))]
fn add_inputs(alloc: Global, inputs: &mut Vec<Binding>, back: u32) -> Result<(), AllocError>
    ensures { OnOk result (bindings_of inputs.new
        ≡ bindings_of inputs.old ++ call_inputs_are back) }
{
    bind_number(alloc, inputs, register(Reg::new(1)), back)?;
    bind_number(alloc, inputs, entry_register(Reg::new(1)), back)?;
    enter(alloc, inputs, &OTHER_REGISTERS)
}

/// What a called function starts with, where this is the address after the call.
pub(crate) fn call_inputs(alloc: Global, back: u32) -> Result<Vec<Binding>, AllocError>
    ensures { BuildsBindings result (call_inputs_are back) }
{
    let mut inputs = Vec::new(alloc);
    attempt!(add_inputs(alloc, &mut inputs, back));
    Ok(inputs)
}

/// The registers but x0.
const REGISTERS: [u8; 31] = [
    1, 2, 3, 4, 5, 6, 7, 8, 9, 10, 11, 12, 13, 14, 15, 16, 17, 18, 19, 20, 21, 22, 23, 24, 25, 26,
    27, 28, 29, 30, 31,
];

/// What a function starts with that another one ends by.
#[tactic(auto, unfolding(decompile_spec::specs::Blocks::tail_inputs))]
pub(crate) fn tail_inputs(alloc: Global) -> Result<Vec<Binding>, AllocError>
    ensures { BuildsBindings result tail_inputs_are }
{
    let mut inputs = Vec::new(alloc);
    attempt!(enter(alloc, &mut inputs, &REGISTERS));
    Ok(inputs)
}
