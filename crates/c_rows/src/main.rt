//! Rows of C texts. A line of the input that begins with `#` says where the outcomes of the rows
//! after it come from, and is written as it is; each other line is a row.
//!
//! A row whose first word ends in a colon is that name, what is asked, and a text; its outcome is
//! written after the name. Asked are `tokens`, `tree` (of the unit, each node with the offset of
//! its operator or first token) or `fault`; where there is a fault, the outcome is the kind and the
//! offset of the first. In such a text, what is between two backquotes is bytes in hexadecimal, or
//! with a star a piece that is repeated: `3*-` is three times a minus sign.
//!
//! Each other row is `QUESTION | ANSWER | TEXT`, with the answer that is expected of typing, of a
//! call or of a graph. In such a text, what is between two backquotes is a piece that is repeated,
//! in which a `#` is the number of the repetition, from 0. The questions are
//!
//! - `check`: `fine`, or the first fault of the unit and its offset
//! - `counts NAME`: how many parameters, loops and calls the body of a function has, or `no body`
//! - `bodies`: the functions that have a body, in order
//! - `structs`: of each struct, in order, its size, its alignment, and where its members are
//! - `names`: what each name of the file scope is, in order
//! - `types NAME`: the types of the values that a body's expression statements drop
//! - `run NAME`: `More`, a guard and an offset, or what a call returns and the bytes that are shown
//! - `guards NAME`: the nodes of a function's graph in order, each with its number; what follows it
//!   are the variables that it binds or its test, and where it continues
//! - `graph NAME`: the same without the tests of guards
//! - `points NAME`: the nodes of the tests (`t`) and bodies (`b`) of loops and of calls (`k`)
//! - `sizes`: how many nodes the graph of each function has
//!
//! A fault of the unit is the answer to any question. After the name of a call or a graph come
//! words in any order:
//!
//! - `5`, `-5`: an argument
//! - `x@4096`: a global and its address
//! - `4096:0a0b`: bytes of memory from an address on, in hexadecimal
//! - `4096=0a0b`: the same, and they are fixed
//! - `8192..8208`: the barred zone
//! - `turns*20`: how many turns there are; else 1000
//! - `4096+4`: bytes that the answer shows, where the call returns
#![tactic(auto)]

mod answers;
mod expressions;
mod given;
mod graphs;
mod nodes;
mod numbered;
mod runs;
mod statements;
mod syntax;
mod texts;
mod tokens;
mod typing;
mod units;

use row_io::{Out, input, output, split};
use std::alloc::Global;
use std::io;

fn put_row(alloc: Global, line: &str, out: &mut Out) {
    if line.starts_with('#') {
        out.put(line);
        out.put("\n");
    } else if split(line, ' ').0.ends_with(':') {
        syntax::put_row(alloc, line, out);
    } else {
        answers::put_row(alloc, line, out);
    }
}

fn put_rows(alloc: Global, rows: &str, out: &mut Out) {
    for line in rows.lines() {
        put_row(alloc, line, out);
    }
}

fn main(rt: HostRuntime) -> io::Result<()> {
    let rows = input(rt)?;
    let mut out = Out::new(rt.alloc());
    put_rows(rt.alloc(), rows.as_str(), &mut out);
    output(rt, &out)
}
