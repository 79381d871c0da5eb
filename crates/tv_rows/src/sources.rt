//! Executables and sources of many functions.

use std::alloc::{AllocError, Global};

/// Where the first function is.
const FIRST: usize = 0x1_0000;

/// An executable by its parts, a list of names, and a text.
#[derive(Drop)]
pub(crate) struct Row {
    pub parts: String,
    pub list: String,
    pub text: String,
}

/// Functions of equal size, one after the other.
fn put_symbols(parts: &mut String, count: usize, size: usize) -> Result<(), AllocError> {
    for i in 0..count {
        let at = i.saturating_mul(size).saturating_add(FIRST);
        write!(parts, " f{i}@{at:x}+{size:x}")?;
    }
    Ok(())
}

/// The names of the first functions.
fn put_list(list: &mut String, count: usize) -> Result<(), AllocError> {
    for i in 0..count {
        write!(list, " f{i}")?;
    }
    Ok(())
}

/// The same, the last one first.
fn put_list_back(list: &mut String, count: usize) -> Result<(), AllocError> {
    for k in 0..count {
        let i = count.saturating_sub(k).saturating_sub(1);
        write!(list, " f{i}")?;
    }
    Ok(())
}

/// The code of functions that each call the next one: a frame of 16 bytes, the call, and the way
/// back.
fn put_chain_code(parts: &mut String, count: usize) -> Result<(), AllocError> {
    write!(parts, "{FIRST:x}:5")?;
    for i in 0..count {
        // addi sp,sp,-16; sw ra,12(sp); jal ra,+16 or nop; lw ra,12(sp); addi sp,sp,16; ret
        let middle = if i.saturating_add(1) < count {
            "010000ef"
        } else {
            "00000013"
        };
        write!(
            parts,
            " ff010113 00112623 {middle} 00c12083 01010113 00008067"
        )?;
    }
    Ok(())
}

/// Their source, the last function first.
fn put_chain_text(text: &mut String, count: usize) -> Result<(), AllocError> {
    for k in 0..count {
        let i = count.saturating_sub(k).saturating_sub(1);
        let next = i.saturating_add(1);
        if next < count {
            write!(text, "void f{i}(void){{f{next}();}}")?;
        } else {
            write!(text, "void f{i}(void){{}}")?;
        }
    }
    Ok(())
}

/// So many functions, each of which calls the next one; none is listed.
fn chained(alloc: Global, count: usize) -> Result<Row, AllocError> {
    let mut row = Row {
        parts: String::new(alloc),
        list: String::new(alloc),
        text: String::new(alloc),
    };
    put_chain_code(&mut row.parts, count)?;
    put_symbols(&mut row.parts, count, 24)?;
    put_chain_text(&mut row.text, count)?;
    Ok(row)
}

/// So many functions, each of which calls the next one; the first so many are listed.
pub(crate) fn chain(alloc: Global, count: usize, listed: usize) -> Result<Row, AllocError> {
    let mut row = chained(alloc, count)?;
    put_list(&mut row.list, listed)?;
    Ok(row)
}

/// The same, with all of them listed, each after the one that it calls.
pub(crate) fn back(alloc: Global, count: usize) -> Result<Row, AllocError> {
    let mut row = chained(alloc, count)?;
    put_list_back(&mut row.list, count)?;
    Ok(row)
}

/// So many functions that only return, all listed.
pub(crate) fn wide(alloc: Global, count: usize) -> Result<Row, AllocError> {
    let mut row = Row {
        parts: String::new(alloc),
        list: String::new(alloc),
        text: String::new(alloc),
    };
    write!(row.parts, "{FIRST:x}:5")?;
    for _ in 0..count {
        write!(row.parts, " 00008067")?;
    }
    put_symbols(&mut row.parts, count, 4)?;
    put_list(&mut row.list, count)?;
    for i in 0..count {
        write!(row.text, "void f{i}(void){{}}")?;
    }
    Ok(row)
}

/// One function of so many instructions before its return, and so many statements before the end of
/// its source.
pub(crate) fn long(alloc: Global, words: usize, statements: usize) -> Result<Row, AllocError> {
    let mut row = Row {
        parts: String::new(alloc),
        list: String::new(alloc),
        text: String::new(alloc),
    };
    write!(row.parts, "{FIRST:x}:5")?;
    for _ in 0..words {
        write!(row.parts, " 00000013")?;
    }
    write!(row.parts, " 00008067")?;
    let size = words.saturating_add(1).saturating_mul(4);
    write!(row.parts, " f0@{FIRST:x}+{size:x}")?;
    put_list(&mut row.list, 1)?;
    write!(row.text, "void f0(unsigned a){{")?;
    for _ in 0..statements {
        write!(row.text, "a=0;")?;
    }
    write!(row.text, "}}")?;
    Ok(row)
}
