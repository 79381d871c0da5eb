//! What a machine does: `machine WORD.. x1=V x2=V .. STEP..`. The words lie at 00010000, where the
//! machine begins; registers without a value are 0. A step is `step`, `run=N@STOP` (in
//! hexadecimal), `x7` or `pc` (its value), `at=A` (the byte there), or `all`: pc, the registers
//! from x1 on, and a sum over the 4,096 bytes from 00040000 on.

use crate::{address, number};
use row_io::{Out, split};
use rv_instr::Reg;
use rv_machine::{Machine, Memory, run, step};
use std::alloc::{AllocError, Global};

fn x(text: &str) -> Reg {
    Reg::new((number(text) & 31) as u8)
}

fn is_word(text: &str) -> bool {
    text.len() == 8 && !text.contains('=')
}

/// A machine with the words of a row.
fn loaded(alloc: Global, row: &str) -> Result<Machine, AllocError> {
    let mut memory = Memory::new(alloc);
    load(&mut memory, row)?;
    Ok(Machine::new(0x1_0000, memory))
}

/// The words of a row, from 00010000 on.
fn load(memory: &mut Memory, row: &str) -> Result<(), AllocError> {
    let mut at: u32 = 0x1_0000;
    for word in row.split_whitespace() {
        if is_word(word) {
            for byte in address(word).to_le_bytes() {
                memory.put(at, byte)?;
                at = at.wrapping_add(1);
            }
        }
    }
    Ok(())
}

fn put_value(value: u32, out: &mut Out) {
    out.put(" ");
    out.word(value);
}

fn put_all(machine: &Machine, out: &mut Out) {
    put_value(machine.pc(), out);
    for register in 1u8..32 {
        put_value(machine.register(Reg::new(register)), out);
    }
    let mut sum: u32 = 0;
    for place in 0u32..4096 {
        let byte = machine.memory().byte(place.wrapping_add(0x4_0000));
        sum = sum.wrapping_mul(31).wrapping_add(u32::from(byte));
    }
    put_value(sum, out);
}

/// A run of so many steps at most, up to an address.
fn put_ran(machine: &mut Machine, value: &str, out: &mut Out) -> Result<(), AllocError> {
    let (limit, stop) = split(value, '@');
    let ran = run(machine, address(stop), u64::from(address(limit)))?;
    out.put(" ");
    out.show(&ran);
    Ok(())
}

/// What a step of a row with a value does.
fn set(machine: &mut Machine, name: &str, value: &str, out: &mut Out) -> Result<(), AllocError> {
    match name {
        "run" => put_ran(machine, value, out)?,
        "at" => {
            out.put(" ");
            out.hexadecimal(u64::from(machine.memory().byte(address(value))));
        }
        _ => machine.set_register(x(name), address(value)),
    }
    Ok(())
}

/// What a step of a row without a value does.
fn ask(machine: &mut Machine, name: &str, out: &mut Out) -> Result<(), AllocError> {
    match name {
        "step" => {
            let stepped = step(machine)?;
            out.show(&stepped);
        }
        "pc" => put_value(machine.pc(), out),
        "all" => put_all(machine, out),
        _ => put_value(machine.register(x(name)), out),
    }
    Ok(())
}

/// What the steps of a row do.
fn put_steps(machine: &mut Machine, row: &str, out: &mut Out) -> Result<(), AllocError> {
    for word in row.split_whitespace() {
        match word.split_once('=') {
            Some((name, value)) => set(machine, name, value, out)?,
            None if is_word(word) => {}
            None => ask(machine, word, out)?,
        }
    }
    Ok(())
}

/// The outcome of a row.
pub(crate) fn put_machine(alloc: Global, row: &str, out: &mut Out) -> Result<(), AllocError> {
    let mut machine = loaded(alloc, row)?;
    put_steps(&mut machine, row, out)
}
