//! Straight code, followed symbolically.

ghost use Rattle.std.specs.Prelude.{◌≡◌, ◌<◌, get_or, length, IfOk, OnOk};
ghost use Rattle.rv_instr.specs.declared.Instr.TheVariants as instr;
ghost use Rattle.rv_machine_spec.specs.Arithmetic.{word as word_of};
ghost use Rattle.code_reach_spec.specs.RunUp as spec;
ghost use Rattle.code_reach_tables.specs.Nodes.{trees_of, tree_at, AreShared, Gives};
ghost use Rattle.code_reach_tables.specs.Followed.{AreRegisters, AreIds, value_of, register_named};
ghost use Rattle.code_reach_tables.specs.Followed.{address_of, GivesMaybe, IsBoundOr, IsFine};
ghost use Rattle.code_reach_tables.specs.Followed.{IsFollowed};
ghost use Rattle.code_reach_tables.specs.Followed.{Follows, IsPut, IsWritten, IsNoted};

use crate::nodes::{Node, add, add_constant, constant_of, difference, masked, shifted, sum};
use indexmap::IndexSet;
use rv_instr::{
    ArithmeticOperation, BranchTest, ImmediateOperation, Instr, LoadKind, Reg, ShiftOperation,
};
use std::alloc::{AllocError, Global};

/// An upper bound of what a register has, where a branch falls through.
#[derive(Clone, Copy)]
pub(crate) struct Bound {
    /// The branch's address.
    pub branch: u32,
    /// What the register has.
    pub index: usize,
    /// It is less.
    pub count: u64,
}

/// What is followed of straight code to a jump by a register.
#[derive(Drop)]
pub(crate) struct Straight {
    /// The trees.
    pub nodes: IndexSet<Node>,
    /// What each register has.
    pub registers: Vec<usize>,
    /// The address of the word in the register of the jump, where LW put it there.
    pub source: Option<usize>,
    /// The last one last.
    pub bounds: Vec<Bound>,
}

/// What a register has.
fn register(registers: &[usize], r: Reg) -> usize
    requires { length registers.now ≡ 32 }
    ensures id { result ≡ get_or registers.now r 0 }
    ensures below { r < 32 }
{
    registers[usize::from(r.number())]
}

/// The word of an immediate.
fn unsigned(imm: i32) -> u32
    ensures { result ≡ word_of imm }
{
    imm.cast_unsigned()
}

/// What ADDI to ANDI give.
fn immediate(
    nodes: &mut IndexSet<Node>,
    registers: &[usize],
    address: u32,
    operation: ImmediateOperation,
    source: Reg,
    imm: i32,
) -> Result<usize, AllocError>
    requires { AreIds nodes.old.keys registers.now }
    ensures { (x : spec.Registers) → AreRegisters nodes.old.keys registers.now x
        → IfOk result (λ id. Gives nodes.old.keys nodes.new.keys id (value_of address
        (spec.result_of x address (instr.Immediate operation 0 source imm)))) }
{
    let a = register(registers, source);
    let n = unsigned(imm);
    match operation {
        ImmediateOperation::Add => add_constant(nodes, a, n),
        ImmediateOperation::And => masked(nodes, a, n),
        _ => add(nodes, Node::Unknown(address)),
    }
}

/// What SLLI to SRAI give.
fn shift(
    nodes: &mut IndexSet<Node>,
    registers: &[usize],
    address: u32,
    operation: ShiftOperation,
    source: Reg,
    amount: u8,
) -> Result<usize, AllocError>
    requires { AreIds nodes.old.keys registers.now }
    ensures { (x : spec.Registers) → AreRegisters nodes.old.keys registers.now x
        → IfOk result (λ id. Gives nodes.old.keys nodes.new.keys id (value_of address
        (spec.result_of x address (instr.Shift operation 0 source amount)))) }
{
    let a = register(registers, source);
    match operation {
        ShiftOperation::Left => shifted(nodes, a, amount),
        _ => add(nodes, Node::Unknown(address)),
    }
}

/// What ADD to REMU give.
fn arithmetic(
    nodes: &mut IndexSet<Node>,
    registers: &[usize],
    address: u32,
    operation: ArithmeticOperation,
    left: Reg,
    right: Reg,
) -> Result<usize, AllocError>
    requires { AreIds nodes.old.keys registers.now }
    ensures { (x : spec.Registers) → AreRegisters nodes.old.keys registers.now x
        → IfOk result (λ id. Gives nodes.old.keys nodes.new.keys id (value_of address
        (spec.result_of x address (instr.Arithmetic operation 0 left right)))) }
{
    let a = register(registers, left);
    let b = register(registers, right);
    match operation {
        ArithmeticOperation::Add => sum(nodes, a, b),
        ArithmeticOperation::Subtract => difference(nodes, a, b),
        _ => add(nodes, Node::Unknown(address)),
    }
}

/// What an instruction puts into its register.
fn value(
    nodes: &mut IndexSet<Node>,
    registers: &[usize],
    address: u32,
    instruction: &Instr,
) -> Result<usize, AllocError>
    requires { AreIds nodes.old.keys registers.now }
    ensures { (x : spec.Registers) → AreRegisters nodes.old.keys registers.now x
        → IfOk result (λ id. Gives nodes.old.keys nodes.new.keys id (value_of address
        (spec.result_of x address instruction.now))) }
{
    match *instruction {
        Instr::Lui { imm, .. } => add(nodes, Node::Constant(imm << 12)),
        Instr::Auipc { imm, .. } => add(nodes, Node::Constant(address.wrapping_add(imm << 12))),
        Instr::Immediate {
            operation,
            source,
            imm,
            ..
        } => immediate(nodes, registers, address, operation, source, imm),
        Instr::Shift {
            operation,
            source,
            amount,
            ..
        } => shift(nodes, registers, address, operation, source, amount),
        Instr::Arithmetic {
            operation,
            left,
            right,
            ..
        } => arithmetic(nodes, registers, address, operation, left, right),
        _ => add(nodes, Node::Unknown(address)),
    }
}

/// The register that an instruction writes.
fn written(instruction: &Instr) -> Option<Reg>
    ensures { result ≡ register_named instruction.now }
{
    match *instruction {
        Instr::Lui { rd, .. }
        | Instr::Auipc { rd, .. }
        | Instr::Load { rd, .. }
        | Instr::Immediate { rd, .. }
        | Instr::Shift { rd, .. }
        | Instr::Arithmetic { rd, .. } => Some(rd),
        _ => None,
    }
}

/// From where LW loads; `None` for every other instruction.
fn loaded(
    nodes: &mut IndexSet<Node>,
    registers: &[usize],
    instruction: &Instr,
) -> Result<Option<usize>, AllocError>
    requires { AreIds nodes.old.keys registers.now }
    ensures { (x : spec.Registers) → AreRegisters nodes.old.keys registers.now x
        → IfOk result (λ id. GivesMaybe nodes.old.keys nodes.new.keys id
        (address_of x instruction.now)) }
{
    match *instruction {
        Instr::Load {
            kind: LoadKind::Word,
            base,
            offset,
            ..
        } => {
            let a = register(registers, base);
            let id = add_constant(nodes, a, unsigned(offset))?;
            Ok(Some(id))
        }
        _ => Ok(None),
    }
}

/// The bound by BLTU of a constant and a register, at most the constant.
fn at_most(nodes: &IndexSet<Node>, branch: u32, constant: usize, index: usize) -> Option<Bound>
    requires shared { AreShared nodes.now.keys }
    requires constant { constant < length nodes.now.keys }
    requires index { index < length nodes.now.keys }
    ensures { IsBoundOr (trees_of nodes.now.keys) result (spec.at_most branch
        (tree_at (trees_of nodes.now.keys) constant) (tree_at (trees_of nodes.now.keys) index)) }
{
    let c = constant_of(nodes, constant)?;
    Some(Bound {
        branch,
        index,
        count: u64::from(c) + 1,
    })
}

/// The bound by BGEU of a register and a constant, less than the constant.
fn less_than(nodes: &IndexSet<Node>, branch: u32, index: usize, constant: usize) -> Option<Bound>
    requires shared { AreShared nodes.now.keys }
    requires constant { constant < length nodes.now.keys }
    requires index { index < length nodes.now.keys }
    ensures { IsBoundOr (trees_of nodes.now.keys) result (spec.less_than branch
        (tree_at (trees_of nodes.now.keys) index) (tree_at (trees_of nodes.now.keys) constant)) }
{
    let n = constant_of(nodes, constant)?;
    Some(Bound {
        branch,
        index,
        count: u64::from(n),
    })
}

/// What a branch bounds where it falls through.
fn bound_of(
    nodes: &IndexSet<Node>,
    registers: &[usize],
    address: u32,
    instruction: &Instr,
) -> Option<Bound>
    requires { AreIds nodes.now.keys registers.now }
    ensures { (x : spec.Registers) → AreRegisters nodes.now.keys registers.now x
        → IsBoundOr (trees_of nodes.now.keys) result
        (spec.bound_of x address instruction.now) }
{
    let Instr::Branch {
        test,
        left,
        right,
        ..
    } = *instruction
    else {
        return None;
    };
    let a = register(registers, left);
    let b = register(registers, right);
    match test {
        BranchTest::LessUnsigned => at_most(nodes, address, a, b),
        BranchTest::GreaterOrEqualUnsigned => less_than(nodes, address, a, b),
        _ => None,
    }
}

impl Straight {
    /// Before the first instruction.
    pub(crate) fn new(alloc: Global) -> Result<Straight, AllocError>
        ensures { IfOk result (λ straight. IsFollowed straight spec.before_all) }
    {
        let mut nodes = IndexSet::new(alloc);
        let mut registers = Vec::new(alloc);
        for r in 0..32 {
            let node = if r == 0 {
                Node::Constant(0)
            } else {
                Node::Initial(r)
            };
            let id = add(&mut nodes, node)?;
            registers.push(id)?;
        }
        Ok(Straight {
            nodes,
            registers,
            source: None,
            bounds: Vec::new(alloc),
        })
    }

    /// Puts a tree into a register; `loaded` is the address from which it was loaded.
    fn put(&mut self, r: Reg, rd: Reg, id: usize, loaded: Option<usize>)
        requires { length self.old.registers.items ≡ 32 }
        ensures { IsPut self.old self.new r rd id loaded }
    {
        if r.number() == rd.number() && r.number() != 0 {
            self.source = loaded;
        }
        if rd.number() != 0 {
            self.registers[usize::from(rd.number())] = id;
        }
    }

    /// Puts what an instruction gives into its register, if it has one.
    fn write(
        &mut self,
        r: Reg,
        address: u32,
        instruction: &Instr,
        loaded: Option<usize>,
    ) -> Result<(), AllocError>
        requires { AreIds self.old.nodes.keys self.old.registers.items }
        ensures { OnOk result (IsWritten self.old self.new r address instruction.now loaded) }
    {
        let Some(rd) = written(instruction) else {
            return Ok(());
        };
        let id = value(&mut self.nodes, &self.registers, address, instruction)?;
        self.put(r, rd, id, loaded);
        Ok(())
    }

    /// Adds a bound, if there is one.
    fn note(&mut self, bound: Option<Bound>) -> Result<(), AllocError>
        ensures { OnOk result (IsNoted self.old self.new bound) }
    {
        if let Some(bound) = bound {
            self.bounds.push(bound)?;
        }
        Ok(())
    }

    /// Follows an instruction.
    pub(crate) fn follow(
        &mut self,
        r: Reg,
        address: u32,
        instruction: &Instr,
    ) -> Result<(), AllocError>
        requires { IsFine self.old }
        ensures { OnOk result (Follows self.old self.new r address instruction.now) }
    {
        let loaded = loaded(&mut self.nodes, &self.registers, instruction)?;
        let bound = bound_of(&self.nodes, &self.registers, address, instruction);
        self.write(r, address, instruction, loaded)?;
        self.note(bound)
    }
}
