// The rules of operators that change the width of a word, and of its bytes.

ghost use Rattle.std.specs.Prelude.{◌≡◌, ℕ, ◌+◌, ◌<◌, ◌≤◌, [], ◌∷◌, length, map, option_map};
ghost use Rattle.std.specs.Prelude.{slice_get, IfOk, IfSome};
ghost use Rattle.term_core_spec.specs.Term as tree;
ghost use Rattle.term_bank.specs.Nodes.{IsNode, tree_at, build};
ghost use Rattle.term_core_spec.specs.Sort.{same_width};
ghost use Rattle.term_core_spec.specs.Same.{same_term};
ghost use Rattle.term_norm_spec.specs.Patterns as patterns;
ghost use Rattle.term_norm_spec.specs.Normal as spec;
ghost use Rattle.term_norm_rules.specs.Forms.{form_tree, IsForm, AreWithin};

use crate::constants::{value_of_eight, value_of_four, value_of_one, value_of_two};
use crate::form::{Form, first_of, found_or};
use crate::numbers::same_width;
use crate::patterns::{node_at, same, under_extension};
use crate::widths::width_of;
use std::alloc::AllocError;
use term_bank::{Bank, TermId, TermNode};
use term_core_spec::{BinaryOperator, QuaternaryOperator, UnaryOperator, Width};

// Whether a word has this width.
fn has_width(bank: &Bank, x: TermId, width: Width) -> bool
    requires { x < length bank.now }
    ensures { result ≡ same_width (patterns.width_of (tree_at bank.now x)) width }
{
    same_width(width_of(bank, x), width)
}

/// An extension: one to the own width is left out.
#[tactic(auto, unfolding(term_norm_spec::specs::Normal::normal_extend))]
pub fn extend_form(bank: &Bank, operator: UnaryOperator, width: Width, x: TermId) -> Form
    requires { x < length bank.now }
    ensures within { IsForm (length bank.now) result }
    ensures tree { form_tree bank.now result
        ≡ spec.normal_extend operator width (tree_at bank.now x) }
{
    let rules = [
        value_of_one(bank, operator, x),
        (has_width(bank, x, width), Form::Same(x)),
    ];
    first_of(&rules, Form::Made(TermNode::Unary(operator, x)))
}

// The word that a term extends, where it has this width.
fn extended(bank: &Bank, width: Width, x: TermId) -> Option<TermId>
    requires { x < length bank.now }
    ensures tree { option_map (tree_at bank.now) result
        ≡ spec.extended width (patterns.under_extension (tree_at bank.now x)) }
    ensures within { IfSome result (λ i. i < length bank.now) }
{
    match under_extension(bank, x) {
        Some(word) if has_width(bank, word, width) => Some(word),
        _ => None,
    }
}

/// A cut: one to the own width is left out, and one of an extended word back to its width is that
/// word.
#[tactic(auto, unfolding(term_norm_spec::specs::Normal::normal_low))]
pub fn low_form(bank: &Bank, width: Width, x: TermId) -> Form
    requires { x < length bank.now }
    ensures within { IsForm (length bank.now) result }
    ensures tree { form_tree bank.now result ≡ spec.normal_low width (tree_at bank.now x) }
{
    let operator = UnaryOperator::Low(width);
    let rules = [
        value_of_one(bank, operator, x),
        (has_width(bank, x, width), Form::Same(x)),
    ];
    let cut = Form::Made(TermNode::Unary(operator, x));
    first_of(&rules, found_or(extended(bank, width, x), cut))
}

// The term at an index of a list of terms.
fn item(parts: &[TermId], place: u8) -> Option<TermId>
    ensures { result ≡ slice_get parts.now place }
{
    parts.get(usize::from(place)).copied()
}

// The part of a join that is its byte at a place.
#[tactic(auto, unfolding(term_norm_spec::specs::Patterns::part))]
fn part(bank: &Bank, place: u8, x: TermId) -> Option<TermId>
    requires { x < length bank.now }
    ensures tree { option_map (tree_at bank.now) result ≡ patterns.part place (tree_at bank.now x) }
    ensures within { IfSome result (λ i. i < length bank.now) }
{
    match node_at(bank, x) {
        TermNode::Binary(BinaryOperator::Join, a, b) => item(&[a, b], place),
        TermNode::Quaternary(QuaternaryOperator::Join, a, b, c, d) => item(&[a, b, c, d], place),
        TermNode::Octonary(a, b, c, d, e, f, g, h) => item(&[a, b, c, d, e, f, g, h], place),
        _ => None,
    }
}

/// One byte: that of a join is its part.
#[tactic(auto, unfolding(term_norm_spec::specs::Normal::normal_byte))]
pub fn byte_form(bank: &Bank, place: u8, x: TermId) -> Form
    requires { x < length bank.now }
    ensures within { IsForm (length bank.now) result }
    ensures tree { form_tree bank.now result ≡ spec.normal_byte place (tree_at bank.now x) }
{
    let operator = UnaryOperator::Byte(place);
    let byte = Form::Made(TermNode::Unary(operator, x));
    let found = found_or(part(bank, place, x), byte);
    first_of(&[value_of_one(bank, operator, x)], found)
}

// The word whose lowest byte a term is.
#[tactic(auto, unfolding(term_norm_spec::specs::Patterns::under_first_byte))]
fn under_first_byte(bank: &Bank, x: TermId) -> Option<TermId>
    requires { x < length bank.now }
    ensures tree { option_map (tree_at bank.now) result
        ≡ patterns.under_first_byte (tree_at bank.now x) }
    ensures within { IfSome result (λ a. a < length bank.now) }
{
    match node_at(bank, x) {
        TermNode::Unary(UnaryOperator::Byte(0), word) => Some(word),
        _ => None,
    }
}

// Whether a term is the byte of a word at a place.
#[tactic(auto, unfolding(term_core_spec::specs::Same::same_term))]
fn is_byte_of(bank: &Bank, x: TermId, word: TermId, place: usize) -> bool
    requires x_within { x < length bank.now }
    requires word_within { word < length bank.now }
    ensures { result ≡ same_term (tree_at bank.now x) (tree.byte place (tree_at bank.now word)) }
{
    match node_at(bank, x) {
        TermNode::Unary(UnaryOperator::Byte(at), a) if usize::from(at) == place => {
            same(bank, a, word)
        }
        _ => false,
    }
}

// Whether these are the bytes of a word from a place on.
#[tactic(auto, unfolding(term_norm_spec::specs::Patterns::are_bytes_of))]
fn are_bytes_of(bank: &Bank, word: TermId, place: usize, parts: &[TermId]) -> bool
    requires word_within { word < length bank.now }
    requires parts_within { AreWithin (length bank.now) parts.now }
    requires few { place + length parts.now ≤ 8 }
    ensures { result ≡ patterns.are_bytes_of (tree_at bank.now word) place
        (map (tree_at bank.now) parts.now) }
{
    match parts.split_first() {
        None => true,
        Some((first, rest)) => {
            is_byte_of(bank, *first, word, place) && are_bytes_of(bank, word, place + 1, rest)
        }
    }
}

// The word of which these are all bytes, the lowest first.
fn whole(bank: &Bank, width: Width, parts: &[TermId]) -> Option<TermId>
    requires parts_within { AreWithin (length bank.now) parts.now }
    requires few { length parts.now ≤ 8 }
    ensures tree { option_map (tree_at bank.now) result
        ≡ patterns.whole width (map (tree_at bank.now) parts.now) }
    ensures within { IfSome result (λ i. i < length bank.now) }
{
    let (first, rest) = parts.split_first()?;
    let word = under_first_byte(bank, *first)?;
    if !are_bytes_of(bank, word, 1, rest) {
        return None;
    }
    if has_width(bank, word, width) {
        Some(word)
    } else {
        None
    }
}

/// The word of two bytes: that of all bytes of a word is the word.
#[tactic(auto, unfolding(term_norm_spec::specs::Normal::normal_join))]
pub fn join_two_form(bank: &Bank, x: TermId, y: TermId) -> Form
    requires x_within { x < length bank.now }
    requires y_within { y < length bank.now }
    ensures within { IsForm (length bank.now) result }
    ensures tree { let s = tree_at bank.now x in let t = tree_at bank.now y in form_tree bank.now
        result ≡ spec.normal_join Width.W16 (s ∷ t ∷ []) (tree.join_two s t) }
{
    let operator = BinaryOperator::Join;
    let word = Form::Made(TermNode::Binary(operator, x, y));
    let found = found_or(whole(bank, Width::W16, &[x, y]), word);
    first_of(&[value_of_two(bank, operator, x, y)], found)
}

/// The word of four bytes.
#[tactic(auto, unfolding(term_norm_spec::specs::Normal::normal_join))]
pub fn join_four_form(
    bank: &Bank,
    a: TermId,
    b: TermId,
    c: TermId,
    d: TermId,
) -> Result<Form, AllocError>
    requires { AreWithin (length bank.now) (a ∷ b ∷ c ∷ d ∷ []) }
    ensures within { IfOk result (IsForm (length bank.now)) }
    ensures tree { let word = TermNode.Quaternary QuaternaryOperator.Join a b c d in IfOk result
        (λ form. form_tree bank.now form
        ≡ spec.normal_join Width.W32 (map (tree_at bank.now) (a ∷ b ∷ c ∷ d ∷ []))
        (build bank.now word)) }
{
    let value = value_of_four(bank, a, b, c, d)?;
    let word = Form::Made(TermNode::Quaternary(QuaternaryOperator::Join, a, b, c, d));
    let found = found_or(whole(bank, Width::W32, &[a, b, c, d]), word);
    let form = first_of(&[value], found);
    Ok(form)
}

/// The word of eight bytes.
#[tactic(auto, unfolding(term_norm_spec::specs::Normal::normal_octonary, term_norm_spec::specs::Normal::normal_join))]
pub fn join_eight_form(
    bank: &Bank,
    a: TermId,
    b: TermId,
    c: TermId,
    d: TermId,
    e: TermId,
    f: TermId,
    g: TermId,
    h: TermId,
) -> Form
    requires { IsNode (length bank.now) (TermNode.Octonary a b c d e f g h) }
    ensures within { IsForm (length bank.now) result }
    ensures tree { form_tree bank.now result
        ≡ spec.normal_octonary (tree_at bank.now a) (tree_at bank.now b) (tree_at bank.now c)
        (tree_at bank.now d) (tree_at bank.now e) (tree_at bank.now f) (tree_at bank.now g)
        (tree_at bank.now h) }
{
    let value = value_of_eight(bank, a, b, c, d, e, f, g, h);
    let word = Form::Made(TermNode::Octonary(a, b, c, d, e, f, g, h));
    let found = found_or(whole(bank, Width::W64, &[a, b, c, d, e, f, g, h]), word);
    first_of(&[value], found)
}
