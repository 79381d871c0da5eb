//! The settings of rows: what variables are.

use attempt::attempt;
use proof_tree::{Body, Setting};
use row_io::decimal;
use std::alloc::{AllocError, Global};
use term_core_spec::{Sort, Width};

const BYTE: Sort = Sort::Word(Width::W8);

const HALF: Sort = Sort::Word(Width::W16);

const WORD: Sort = Sort::Word(Width::W32);

const LONG: Sort = Sort::Word(Width::W64);

/// Adds the numbers of calls, with points between them.
pub(crate) fn add_path(path: &mut Vec<u32>, text: &str) -> Result<(), AllocError> {
    if text != "-" {
        for number in text.split('.') {
            attempt!(path.push((decimal(number) % 1000) as u32), AllocError);
        }
    }
    Ok(())
}

/// Adds a body with these locals.
fn add_body(
    alloc: Global,
    bodies: &mut Vec<Body>,
    path: &[u32],
    locals: &[Sort],
) -> Result<(), AllocError> {
    let instance = bodies.len();
    let path = attempt!(Vec::from_slice(alloc, path), AllocError);
    let locals = attempt!(Vec::from_slice(alloc, locals), AllocError);
    let body = Body {
        path,
        instance,
        locals,
    };
    attempt!(bodies.push(body), AllocError);
    Ok(())
}

/// Adds the body of the function, and in `bodies` those of three calls in it.
fn add_bodies(alloc: Global, bodies: &mut Vec<Body>, name: &str) -> Result<(), AllocError> {
    if name == "bodies" || name == "call" {
        attempt!(add_body(alloc, bodies, &[], &[WORD, BYTE, HALF]));
    }
    if name == "bodies" {
        attempt!(add_body(alloc, bodies, &[3], &[LONG]));
        attempt!(add_body(alloc, bodies, &[3, 1], &[BYTE, WORD]));
        attempt!(add_body(alloc, bodies, &[4], &[HALF]));
    }
    Ok(())
}

/// The parameters.
fn parameters(name: &str) -> &'static [Sort] {
    match name {
        "bodies" => &[WORD, BYTE],
        "call" => &[WORD],
        _ => &[],
    }
}

/// How many argument words there are.
fn argument_words(name: &str) -> usize {
    match name {
        "bodies" => 2,
        "words" => 3,
        "call" => 1,
        _ => 0,
    }
}

/// `bodies`: two parameters in two argument words, and four bodies; `call`: a parameter, and a
/// body; `words`: three argument words; else nothing.
pub(crate) fn setting(alloc: Global, name: &str) -> Result<Setting, AllocError> {
    let parameters = attempt!(Vec::from_slice(alloc, parameters(name)), AllocError);
    let mut setting = Setting {
        argument_words: argument_words(name),
        parameters,
        bodies: Vec::new(alloc),
    };
    attempt!(add_bodies(alloc, &mut setting.bodies, name));
    Ok(setting)
}
