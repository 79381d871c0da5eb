//! The values of a call for which an obligation is false.

use row_io::Out;
use std::alloc::{AllocError, Global};
use term_core::{Assignment, Memory, Value};
use term_core_spec::{Family, Sort, Variable, Width};

/// How many parameters a function has at most.
const PARAMETERS: usize = 8;

/// How many words are printed of the memory at a parameter.
const WORDS: u32 = 4;

/// The variable of the function's own that has this family, number and sort.
fn variable(family: Family, index: usize, sort: Sort) -> Variable {
    Variable {
        family,
        index,
        instance: 0,
        sort,
    }
}

/// The value of a parameter if it has this width, else 0.
fn parameter_of(
    alloc: Global,
    assignment: &Assignment,
    index: usize,
    width: Width,
) -> Result<u32, AllocError> {
    let variable = variable(Family::Parameter, index, Sort::Word(width));
    match assignment.value(alloc, variable)? {
        Value::Number(_, number) => Ok((number & 0xffff_ffff) as u32),
        _ => Ok(0),
    }
}

/// The value of a parameter, whatever its width.
fn parameter(alloc: Global, assignment: &Assignment, index: usize) -> Result<u32, AllocError> {
    let byte = parameter_of(alloc, assignment, index, Width::W8)?;
    let half = parameter_of(alloc, assignment, index, Width::W16)?;
    let word = parameter_of(alloc, assignment, index, Width::W32)?;
    Ok(byte | half | word)
}

/// The word at an address, its lowest byte first.
fn word_at(memory: &Memory, address: u32) -> u32 {
    u32::from_le_bytes([
        memory.byte(address),
        memory.byte(address.wrapping_add(1)),
        memory.byte(address.wrapping_add(2)),
        memory.byte(address.wrapping_add(3)),
    ])
}

/// The words of the memory from an address on, where one of them isn't 0.
fn put_words(memory: &Memory, address: u32, out: &mut Out) {
    let mut any = 0;
    for index in 0..WORDS {
        any |= word_at(memory, address.wrapping_add(4 * index));
    }
    if any != 0 {
        out.put(" (words there:");
        for index in 0..WORDS {
            out.put(" ");
            out.word(word_at(memory, address.wrapping_add(4 * index)));
        }
        out.put(")");
    }
}

/// A parameter, and the words of the memory at its value.
fn put_parameter(index: usize, value: u32, memory: &Value, out: &mut Out) {
    out.put(" p");
    out.show(&index);
    out.put("=");
    out.word(value);
    if let Value::Bytes(memory) = memory {
        put_words(memory, value, out);
    }
}

fn try_values(alloc: Global, assignment: &Assignment, out: &mut Out) -> Result<(), AllocError> {
    let memory = assignment.value(alloc, variable(Family::SourceMemory, 0, Sort::Memory))?;
    let mut before = " except";
    for index in 0..PARAMETERS {
        let value = parameter(alloc, assignment, index)?;
        if value != 0 {
            out.put(before);
            put_parameter(index, value, &memory, out);
            before = "";
        }
    }
    Ok(())
}

/// The parameters that aren't 0, each with the words of the memory at its value.
pub(crate) fn put_values(alloc: Global, assignment: &Assignment, out: &mut Out) {
    out.put(", for example where parameters are 0");
    if try_values(alloc, assignment, out).is_err() {
        out.fail();
    }
}
