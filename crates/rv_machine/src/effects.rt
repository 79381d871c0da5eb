ghost use Rattle.std.specs.Prelude.{◌≡◌, ◌<◌, if◌then◌else◌};
ghost use Rattle.std.specs.Bool.{OnTrue};
ghost use Rattle.rv_machine_spec.specs.Machine.{past};
ghost use Rattle.rv_machine_spec.specs.Arithmetic.{word, of_immediate as of_immediate_is};
ghost use Rattle.rv_machine_spec.specs.Arithmetic.{of_shift as of_shift_is};
ghost use Rattle.rv_machine.specs.Stores.{load_size, store_size};
ghost use Rattle.rv_machine.specs.Effects.{effect_of, attempted as attempted_by, IsEffectOf};
ghost use Rattle.rv_machine.specs.Effects.{is_aligned as aligned_effect, IsAligned};
ghost use Rattle.rv_machine.specs.Effects.{first_source, second_source};

use crate::Effect;
use rv_instr::{
    ArithmeticOperation, ImmediateOperation, Instr, LoadKind, Reg, ShiftOperation, StoreKind,
};
use rv_machine_arithmetic::{arithmetic, holds};

/// What an instruction does. `a` and `b` are the values of the registers that it reads, as
/// `sources` names them, and `pc` is its address.
#[tactic(auto, unfolding(crate::specs::Effects::effect_of))]
pub fn effect(instruction: &Instr, a: u32, b: u32, pc: u32) -> Effect
    ensures exact { result ≡ effect_of instruction.now a b pc }
    ensures meaning { IsEffectOf instruction.now a b pc result }
    ensures aligned { IsAligned result }
{
    let attempt = attempted(instruction, a, b, pc);
    if is_aligned(&attempt) {
        attempt
    } else {
        Effect::Trap
    }
}

/// What an instruction attempts: what it does unless an address is misaligned.
#[tactic(auto, unfolding(crate::specs::Effects::attempted))]
fn attempted(instruction: &Instr, a: u32, b: u32, pc: u32) -> Effect
    ensures { result ≡ attempted_by instruction.now a b pc }
{
    match *instruction {
        Instr::Lui { rd, imm } => put(rd, imm << 12),
        Instr::Auipc { rd, imm } => put(rd, pc.wrapping_add(imm << 12)),
        Instr::Jal { rd, offset } => link(rd, moved(pc, offset)),
        Instr::Jalr { rd, offset, .. } => link(rd, moved(a, offset) / 2 * 2),
        Instr::Branch { test, offset, .. } => goto(holds(test, a, b), moved(pc, offset)),
        Instr::Load {
            kind,
            rd,
            offset,
            ..
        } => load(kind, rd, moved(a, offset)),
        Instr::Store { kind, offset, .. } => store(kind, moved(a, offset), b),
        Instr::Immediate {
            operation,
            rd,
            imm,
            ..
        } => put(
            rd,
            arithmetic(of_immediate(operation), a, imm.cast_unsigned()),
        ),
        Instr::Shift {
            operation,
            rd,
            amount,
            ..
        } => put(rd, arithmetic(of_shift(operation), a, u32::from(amount))),
        Instr::Arithmetic { operation, rd, .. } => put(rd, arithmetic(operation, a, b)),
        Instr::Fence { .. } => Effect::Nothing,
        Instr::Ecall | Instr::Ebreak => Effect::Trap,
    }
}

/// The registers that an instruction reads, first and second; x0 where it reads none.
pub fn sources(instruction: &Instr) -> (Reg, Reg)
    ensures first { result.0 ≡ first_source instruction.now }
    ensures second { result.1 ≡ second_source instruction.now }
{
    let zero = Reg::new(0);
    match *instruction {
        Instr::Branch { left, right, .. } | Instr::Arithmetic { left, right, .. } => (left, right),
        Instr::Store { base, source, .. } => (base, source),
        Instr::Jalr { base, .. } | Instr::Load { base, .. } => (base, zero),
        Instr::Immediate { source, .. } | Instr::Shift { source, .. } => (source, zero),
        Instr::Lui { .. }
        | Instr::Auipc { .. }
        | Instr::Jal { .. }
        | Instr::Fence { .. }
        | Instr::Ecall
        | Instr::Ebreak => (zero, zero),
    }
}

/// The address `offset` bytes from another; addresses wrap.
fn moved(address: u32, offset: i32) -> u32
    ensures { result ≡ past address (word offset) }
{
    address.wrapping_add(offset.cast_unsigned())
}

fn put(rd: Reg, value: u32) -> Effect
    ensures { result ≡ Effect.Put rd value }
{
    Effect::Put { rd, value }
}

fn link(rd: Reg, target: u32) -> Effect
    ensures { result ≡ Effect.Link rd target }
{
    Effect::Link { rd, target }
}

fn load(kind: LoadKind, rd: Reg, address: u32) -> Effect
    ensures { result ≡ Effect.Load kind rd address }
{
    Effect::Load { kind, rd, address }
}

fn store(kind: StoreKind, address: u32, value: u32) -> Effect
    ensures { result ≡ Effect.Store kind address value }
{
    Effect::Store {
        kind,
        address,
        value,
    }
}

/// A branch to a target.
fn goto(taken: bool, target: u32) -> Effect
    ensures { result ≡ (if taken then Effect.Goto target else Effect.Nothing) }
{
    if taken {
        Effect::Goto { target }
    } else {
        Effect::Nothing
    }
}

/// Whether the address of an effect, where it has one, is a multiple of its size.
fn is_aligned(effect: &Effect) -> bool
    ensures exact { result ≡ aligned_effect effect.now }
    ensures aligned { OnTrue result (IsAligned effect.now) }
{
    match *effect {
        Effect::Link { target, .. } | Effect::Goto { target } => target % 4 == 0,
        Effect::Load { kind, address, .. } => address % load_bytes(kind) == 0,
        Effect::Store { kind, address, .. } => address % store_bytes(kind) == 0,
        Effect::Put { .. } | Effect::Nothing | Effect::Trap => true,
    }
}

fn load_bytes(kind: LoadKind) -> u32
    ensures size { result ≡ load_size kind }
    ensures some { 0 < result }
{
    match kind {
        LoadKind::Byte | LoadKind::ByteUnsigned => 1,
        LoadKind::Half | LoadKind::HalfUnsigned => 2,
        LoadKind::Word => 4,
    }
}

fn store_bytes(kind: StoreKind) -> u32
    ensures size { result ≡ store_size kind }
    ensures some { 0 < result }
{
    match kind {
        StoreKind::Byte => 1,
        StoreKind::Half => 2,
        StoreKind::Word => 4,
    }
}

fn of_immediate(operation: ImmediateOperation) -> ArithmeticOperation
    ensures { result ≡ of_immediate_is operation }
{
    match operation {
        ImmediateOperation::Add => ArithmeticOperation::Add,
        ImmediateOperation::SetLess => ArithmeticOperation::SetLess,
        ImmediateOperation::SetLessUnsigned => ArithmeticOperation::SetLessUnsigned,
        ImmediateOperation::Xor => ArithmeticOperation::Xor,
        ImmediateOperation::Or => ArithmeticOperation::Or,
        ImmediateOperation::And => ArithmeticOperation::And,
    }
}

fn of_shift(operation: ShiftOperation) -> ArithmeticOperation
    ensures { result ≡ of_shift_is operation }
{
    match operation {
        ShiftOperation::Left => ArithmeticOperation::ShiftLeft,
        ShiftOperation::RightLogical => ArithmeticOperation::ShiftRightLogical,
        ShiftOperation::RightArithmetic => ArithmeticOperation::ShiftRightArithmetic,
    }
}
