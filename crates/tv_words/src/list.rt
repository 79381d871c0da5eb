//! Lists of functions' names.

ghost use Rattle.std.specs.Prelude.{◌≡◌, ◌==◌, ◌↔◌, IfOk, IfErr, IsTrue, List, ℕ, [], map};
ghost use Rattle.std.specs.Prelude.{bytes_eq};
ghost use Rattle.std.specs.List.{slice_split, IsDistinct, list_all};
ghost use Rattle.c_token_spec.specs.Words.{begins_word, is_word_byte};
ghost use Rattle.tv_words.specs.Names as spec;
ghost use Rattle.attempt.specs.declared.refusal.Refusal.TheVariants.{NoMemory};

use crate::WordsFault;
use attempt::Refusal;
use indexmap::IndexSet;
use std::alloc::{AllocError, Global};

/// The names of a list, in its order, in work linear in its bytes. It refuses an empty name, one
/// that is no name, and a name that occurs twice.
pub(crate) fn names_in<'a>(
    alloc: Global,
    text: &'a str,
) -> Result<Vec<&'a str>, Refusal<WordsFault>>
    ensures found { IfOk result (λ names. spec.IsList text.entry.now
        (map (λ name. name.now) names.items)) }
    ensures only { IfErr result (λ error. (names : List (List ℕ)) → spec.IsList text.entry.now names
        → error ≡ NoMemory) }
{
    let names = parts(alloc, text)?;
    if !are_names(names.as_slice()) {
        return Err(Refusal::Fault(WordsFault::Words));
    }
    if !are_distinct(alloc, names.as_slice())? {
        return Err(Refusal::Fault(WordsFault::Words));
    }
    Ok(names)
}

/// The pieces of a text between its commas.
fn parts<'a>(alloc: Global, text: &'a str) -> Result<Vec<&'a str>, AllocError>
    ensures { IfOk result (λ parts. map (λ part. part.now) parts.items
        ≡ slice_split (λ byte. byte == 44) text.entry.now) }
{
    text.split(',').collect(alloc)
}

/// Whether a text is a name.
pub(crate) fn is_name(text: &str) -> bool
    ensures { result ≡ spec.is_name text.now }
{
    match text.as_bytes() {
        [] => false,
        [first, rest @ ..] => begins_name(*first) && continue_name(rest),
    }
}

/// Whether a byte is a letter or an underscore.
fn begins_name(byte: u8) -> bool
    ensures { result ≡ begins_word byte }
{
    byte.is_ascii_alphabetic() || byte == b'_'
}

/// Whether a byte is a letter, a digit or an underscore.
fn continues_name(byte: u8) -> bool
    ensures { result ≡ is_word_byte byte }
{
    byte.is_ascii_digit() || begins_name(byte)
}

/// Whether each byte is a letter, a digit or an underscore.
fn continue_name(bytes: &[u8]) -> bool
    ensures { result ≡ list_all is_word_byte bytes.now }
{
    bytes.iter().all(|byte| continues_name(*byte))
}

/// Whether each text is a name.
fn are_names(texts: &[&str]) -> bool
    ensures { result ≡ list_all (λ text. spec.is_name text.now) texts.now }
{
    texts.iter().all(|text| is_name(text))
}

/// Whether no text occurs twice; none is seen at the start.
fn are_new<'a>(seen: &mut IndexSet<&'a str>, texts: &[&'a str]) -> Result<bool, AllocError>
    requires { seen.old.keys ≡ [] }
    ensures { IfOk result (λ distinct. IsTrue distinct
        ↔ IsDistinct bytes_eq (map (λ text. text.now) texts.now)) }
{
    for text in texts {
        if !seen.insert(*text)? {
            return Ok(false);
        }
    }
    Ok(true)
}

/// Whether no text occurs twice.
fn are_distinct(alloc: Global, texts: &[&str]) -> Result<bool, AllocError>
    ensures { IfOk result (λ distinct. IsTrue distinct
        ↔ IsDistinct bytes_eq (map (λ text. text.now) texts.now)) }
{
    let mut seen: IndexSet<&str> = IndexSet::new(alloc);
    are_new(&mut seen, texts)
}
