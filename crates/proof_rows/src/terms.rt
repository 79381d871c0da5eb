//! Terms of tests.
//!
//! `term SETTING PATH TERM` asks for the term of a certificate's Case, in a setting, and in the
//! body of a path (`-` for the function's own): the index of the line and the nodes of its bank;
//! or that it is no line; or the offset at which the certificate is refused.

use crate::settings;
use attempt::{Refusal, attempt};
use cert_check_terms::{TermFault, read_line};
use cert_text::{Cert, ReadFault, read};
use cert_text_parse::Line;
use cert_text_spec::Symbol;
use proof_tree::Setting;
use row_io::{Out, split};
use std::alloc::{AllocError, Global};
use term_bank::Bank;

/// The nodes of a bank, in their order.
fn put_nodes(bank: &Bank, out: &mut Out) {
    for id in 0..bank.len() {
        out.put(" ");
        out.show(&bank.node(id));
    }
}

/// The outcome of a line.
fn put_line(alloc: Global, setting: &Setting, path: &[u32], symbols: &[Symbol], out: &mut Out) {
    let mut bank = Bank::new(alloc);
    match read_line(alloc, setting, path, symbols, &mut bank) {
        Ok(id) => {
            out.put("line ");
            out.show(&id);
            put_nodes(&bank, out);
        }
        Err(Refusal::Fault(TermFault::Sort)) => out.put("no line"),
        Err(Refusal::NoMemory) => out.fail(),
    }
}

/// The outcome of each test of a certificate.
fn put_tests(alloc: Global, setting: &Setting, path: &[u32], cert: &Cert, out: &mut Out) {
    for line in &cert.lines {
        if let Line::Case(test) = line {
            put_line(alloc, setting, path, test.as_slice(), out);
        }
    }
}

/// The outcome of a certificate's text.
fn put_text(alloc: Global, setting: &Setting, path: &[u32], text: &[u8], out: &mut Out) {
    match read(alloc, text) {
        Ok(cert) => put_tests(alloc, setting, path, &cert, out),
        Err(Refusal::Fault(ReadFault::Refused(offset))) => out.put_at("refused", offset),
        Err(Refusal::NoMemory) => out.fail(),
    }
}

/// Adds a certificate with a test.
fn add_certificate(text: &mut Vec<u8>, term: &str) -> Result<(), AllocError> {
    attempt!(
        text.extend_from_slice(b"tv-cert 1\nfunction f stack 0\ncase "),
        AllocError
    );
    attempt!(text.extend_from_slice(term.as_bytes()), AllocError);
    attempt!(
        text.extend_from_slice(b"\nleaf 0\nleaf 0\nend\n"),
        AllocError
    );
    Ok(())
}

/// The outcome of a term.
fn put_term(alloc: Global, setting: &Setting, path: &[u32], term: &str, out: &mut Out) {
    let mut text = Vec::new(alloc);
    if add_certificate(&mut text, term).is_err() {
        out.fail();
    }
    put_text(alloc, setting, path, text.as_slice(), out);
}

/// The outcome of a term in the body of a path.
fn put_on(alloc: Global, setting: &Setting, text: &str, out: &mut Out) {
    let (numbers, term) = split(text, ' ');
    let mut path = Vec::new(alloc);
    if settings::add_path(&mut path, numbers).is_err() {
        out.fail();
    }
    put_term(alloc, setting, path.as_slice(), term, out);
}

/// Answers `term`.
pub(crate) fn answer(alloc: Global, text: &str, out: &mut Out) {
    let (name, rest) = split(text, ' ');
    match settings::setting(alloc, name) {
        Ok(setting) => put_on(alloc, &setting, rest, out),
        Err(_) => out.fail(),
    }
}
