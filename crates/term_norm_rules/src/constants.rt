// An operator whose arguments are all constants is its value.

ghost use Rattle.std.specs.Prelude.{◌≡◌, ℕ, ◌<◌, ◌&&◌, List, [], ◌∷◌, length, map, All, IfOk};
ghost use Rattle.term_core_spec.specs.declared.Width.TheVariants.{W32, W64};
ghost use Rattle.term_core_spec.specs.Term as tree;
ghost use Rattle.term_core_spec.specs.Value as spec;
ghost use Rattle.term_core.specs.Values.{value_of};
ghost use Rattle.term_bank.specs.Nodes.{IsNode, tree_at};
ghost use Rattle.term_norm_spec.specs.Patterns as patterns;
ghost use Rattle.term_norm_rules.specs.Forms.{form_tree, IsForm, AreWithin};

use crate::form::{Form, Rule};
use crate::patterns::{is_constant, known};
use std::alloc::AllocError;
use term_bank::{Bank, TermId, TermNode};
use term_core::{Value, binary, byte_of, octonary, quaternary, unary};
use term_core_spec::{Atom, BinaryOperator, QuaternaryOperator, UnaryOperator};

// The constant with a value, which is no memory.
#[tactic(auto, unfolding(term_norm_spec::specs::Patterns::constant_of))]
fn constant_of(value: &Value) -> Atom
    ensures { tree.Leaf result ≡ patterns.constant_of (value_of value.now) }
{
    match value {
        Value::Truth(truth) => Atom::Truth(*truth),
        Value::Number(width, number) => Atom::Constant(*width, *number),
        Value::Bytes(_) => Atom::Truth(false),
    }
}

/// The rule for an operator with one constant.
pub fn value_of_one(bank: &Bank, operator: UnaryOperator, x: TermId) -> Rule
    requires { x < length bank.now }
    ensures test { result.0 ≡ patterns.is_constant (tree_at bank.now x) }
    ensures within { (n : ℕ) → IsForm n result.1 }
    ensures tree { form_tree bank.now result.1
        ≡ patterns.constant_of (spec.unary_value operator (patterns.known (tree_at bank.now x))) }
{
    let value = constant_of(&unary(operator, &known(bank, x)));
    (is_constant(bank, x), Form::Made(TermNode::Leaf(value)))
}

// Whether both terms are constants.
fn are_two_constants(bank: &Bank, x: TermId, y: TermId) -> bool
    requires x_within { x < length bank.now }
    requires y_within { y < length bank.now }
    ensures { result ≡ (patterns.is_constant (tree_at bank.now x) && patterns.is_constant
        (tree_at bank.now y)) }
{
    is_constant(bank, x) && is_constant(bank, y)
}

/// The rule for an operator with two constants.
pub fn value_of_two(bank: &Bank, operator: BinaryOperator, x: TermId, y: TermId) -> Rule
    requires x_within { x < length bank.now }
    requires y_within { y < length bank.now }
    ensures test { result.0 ≡ (patterns.is_constant (tree_at bank.now x) && patterns.is_constant
        (tree_at bank.now y)) }
    ensures within { (n : ℕ) → IsForm n result.1 }
    ensures tree { form_tree bank.now result.1
        ≡ patterns.constant_of (spec.binary_value operator (patterns.known (tree_at bank.now x))
        (patterns.known (tree_at bank.now y))) }
{
    let value = constant_of(&binary(operator, &known(bank, x), &known(bank, y)));
    (
        are_two_constants(bank, x, y),
        Form::Made(TermNode::Leaf(value)),
    )
}

// Whether all of these terms are constants.
fn are_constants(bank: &Bank, parts: &[TermId]) -> bool
    requires { AreWithin (length bank.now) parts.now }
    ensures { result ≡ patterns.are_constants (map (tree_at bank.now) parts.now) }
{
    match parts.split_first() {
        None => true,
        Some((first, rest)) => is_constant(bank, *first) && are_constants(bank, rest),
    }
}

/// The rule for the word of four constants.
#[tactic(auto, unfolding(term_core_spec::specs::Value::quaternary_value))]
pub fn value_of_four(
    bank: &Bank,
    a: TermId,
    b: TermId,
    c: TermId,
    d: TermId,
) -> Result<Rule, AllocError>
    requires { AreWithin (length bank.now) (a ∷ b ∷ c ∷ d ∷ []) }
    ensures test { let ts = map (tree_at bank.now) (a ∷ b ∷ c ∷ d
        ∷ []) in IfOk result (λ rule. rule.0 ≡ patterns.are_constants ts) }
    ensures within { IfOk result (λ rule. (n : ℕ) → IsForm n rule.1) }
    ensures tree { let ts = map (tree_at bank.now) (a ∷ b ∷ c ∷ d
        ∷ []) in IfOk result (λ rule. form_tree bank.now rule.1
        ≡ patterns.constant_of (spec.joined W32 (map patterns.known ts))) }
{
    let (first, second) = (known(bank, a), known(bank, b));
    let (third, fourth) = (known(bank, c), known(bank, d));
    let word = quaternary(QuaternaryOperator::Join, &first, &second, &third, &fourth)?;
    let value = constant_of(&word);
    let test = are_constants(bank, &[a, b, c, d]);
    Ok((test, Form::Made(TermNode::Leaf(value))))
}

// The number of a byte that is a constant.
fn known_byte(bank: &Bank, x: TermId) -> Option<u8>
    requires { x < length bank.now }
    ensures { result ≡ spec.byte_of (patterns.known (tree_at bank.now x)) }
{
    byte_of(&known(bank, x))
}

/// The rule for the word of eight constants.
pub fn value_of_eight(
    bank: &Bank,
    a: TermId,
    b: TermId,
    c: TermId,
    d: TermId,
    e: TermId,
    f: TermId,
    g: TermId,
    h: TermId,
) -> Rule
    requires { AreWithin (length bank.now) (a ∷ b ∷ c ∷ d ∷ e ∷ f ∷ g ∷ h ∷ []) }
    ensures test { let ts = map (tree_at bank.now) (a ∷ b ∷ c ∷ d ∷ e ∷ f ∷ g ∷ h ∷ []) in result.0
        ≡ patterns.are_constants ts }
    ensures within { (n : ℕ) → IsForm n result.1 }
    ensures tree { let ts = map (tree_at bank.now) (a ∷ b ∷ c ∷ d ∷ e ∷ f ∷ g ∷ h
        ∷ []) in form_tree bank.now result.1
        ≡ patterns.constant_of (spec.joined W64 (map patterns.known ts)) }
{
    let high = [
        known_byte(bank, e),
        known_byte(bank, f),
        known_byte(bank, g),
        known_byte(bank, h),
    ];
    let (first, second) = (known_byte(bank, a), known_byte(bank, b));
    let (third, fourth) = (known_byte(bank, c), known_byte(bank, d));
    let value = constant_of(&octonary(first, second, third, fourth, high));
    let test = are_constants(bank, &[a, b, c, d, e, f, g, h]);
    (test, Form::Made(TermNode::Leaf(value)))
}
