// The normal form of each operator, its arguments being in normal form.

ghost use Rattle.std.specs.Prelude.{◌≡◌, ◌<◌, ◌≤◌, [], ◌∷◌, length, IfOk};
ghost use Rattle.term_core_spec.specs.Term as tree;
ghost use Rattle.term_bank.specs.Nodes.{IsNode, tree_at, Holds, Extends};
ghost use Rattle.term_norm_spec.specs.Normal as spec;
ghost use Rattle.term_norm_rules.specs.Forms.{form_tree, IsForm};

use crate::bytes::{
    byte_form, extend_form, join_eight_form, join_four_form, join_two_form, low_form,
};
use crate::choice::choose_form;
use crate::form::{Form, place};
use crate::truths::{and_form, equal_form, less_form, not_form, or_form};
use crate::words::{complement_form, word_form};
use attempt::attempt;
use std::alloc::AllocError;
use term_bank::{Bank, TermId, TermNode};
use term_core_spec::{
    Atom, QuaternaryOperator, TernaryOperator, UnaryOperator, Width, WordOperator,
};

#[tactic(auto, unfolding(term_norm_spec::specs::Normal::normal_unary))]
fn unary_form(bank: &Bank, operator: UnaryOperator, x: TermId) -> Form
    requires { x < length bank.now }
    ensures within { IsForm (length bank.now) result }
    ensures tree { form_tree bank.now result ≡ spec.normal_unary operator (tree_at bank.now x) }
{
    match operator {
        UnaryOperator::Not => not_form(bank, x),
        UnaryOperator::Complement => complement_form(bank, x),
        UnaryOperator::ZeroExtend(width) => {
            extend_form(bank, UnaryOperator::ZeroExtend(width), width, x)
        }
        UnaryOperator::SignExtend(width) => {
            extend_form(bank, UnaryOperator::SignExtend(width), width, x)
        }
        UnaryOperator::Low(width) => low_form(bank, width, x),
        UnaryOperator::Byte(place) => byte_form(bank, place, x),
    }
}

/// The normal form of an operator with one argument.
pub fn normal_unary(
    bank: &mut Bank,
    operator: UnaryOperator,
    x: TermId,
) -> Result<TermId, AllocError>
    requires { x < length bank.old }
    ensures form { IfOk result (λ i. Holds bank.new i
        (spec.normal_unary operator (tree_at bank.old x))) }
    ensures within { IfOk result (λ i. i < length bank.new) }
    ensures extends { Extends bank.old bank.new }
    ensures longer { length bank.old ≤ length bank.new }
{
    let form = unary_form(bank, operator, x);
    let id = attempt!(place(bank, form));
    Ok(id)
}

/// The normal form of `not x`.
pub fn normal_not(bank: &mut Bank, x: TermId) -> Result<TermId, AllocError>
    requires { x < length bank.old }
    ensures form { IfOk result (λ i. Holds bank.new i (spec.normal_not (tree_at bank.old x))) }
    ensures within { IfOk result (λ i. i < length bank.new) }
    ensures extends { Extends bank.old bank.new }
    ensures longer { length bank.old ≤ length bank.new }
{
    let form = not_form(bank, x);
    let id = attempt!(place(bank, form));
    Ok(id)
}

/// The normal form of `and x y`.
pub fn normal_and(bank: &mut Bank, x: TermId, y: TermId) -> Result<TermId, AllocError>
    requires x_within { x < length bank.old }
    requires y_within { y < length bank.old }
    ensures form { IfOk result (λ i. Holds bank.new i
        (spec.normal_and (tree_at bank.old x) (tree_at bank.old y))) }
    ensures within { IfOk result (λ i. i < length bank.new) }
    ensures extends { Extends bank.old bank.new }
    ensures longer { length bank.old ≤ length bank.new }
{
    let form = and_form(bank, x, y);
    let id = attempt!(place(bank, form));
    Ok(id)
}

/// The normal form of `or x y`.
pub fn normal_or(bank: &mut Bank, x: TermId, y: TermId) -> Result<TermId, AllocError>
    requires x_within { x < length bank.old }
    requires y_within { y < length bank.old }
    ensures form { IfOk result (λ i. Holds bank.new i
        (spec.normal_or (tree_at bank.old x) (tree_at bank.old y))) }
    ensures within { IfOk result (λ i. i < length bank.new) }
    ensures extends { Extends bank.old bank.new }
    ensures longer { length bank.old ≤ length bank.new }
{
    let form = or_form(bank, x, y);
    let id = attempt!(place(bank, form));
    Ok(id)
}

/// The normal form of `eq x y`.
pub fn normal_equal(bank: &mut Bank, x: TermId, y: TermId) -> Result<TermId, AllocError>
    requires x_within { x < length bank.old }
    requires y_within { y < length bank.old }
    ensures form { IfOk result (λ i. Holds bank.new i
        (spec.normal_equal (tree_at bank.old x) (tree_at bank.old y))) }
    ensures within { IfOk result (λ i. i < length bank.new) }
    ensures extends { Extends bank.old bank.new }
    ensures longer { length bank.old ≤ length bank.new }
{
    let form = equal_form(bank, x, y);
    let id = attempt!(place(bank, form));
    Ok(id)
}

/// The normal form of `ult x y`.
pub fn normal_less(bank: &mut Bank, x: TermId, y: TermId) -> Result<TermId, AllocError>
    requires x_within { x < length bank.old }
    requires y_within { y < length bank.old }
    ensures form { IfOk result (λ i. Holds bank.new i
        (spec.normal_less (tree_at bank.old x) (tree_at bank.old y))) }
    ensures within { IfOk result (λ i. i < length bank.new) }
    ensures extends { Extends bank.old bank.new }
    ensures longer { length bank.old ≤ length bank.new }
{
    let form = less_form(bank, x, y);
    let id = attempt!(place(bank, form));
    Ok(id)
}

/// The normal form of an operation on words.
pub fn normal_word(
    bank: &mut Bank,
    operator: WordOperator,
    x: TermId,
    y: TermId,
) -> Result<TermId, AllocError>
    requires x_within { x < length bank.old }
    requires y_within { y < length bank.old }
    ensures form { IfOk result (λ i. Holds bank.new i
        (spec.normal_word operator (tree_at bank.old x) (tree_at bank.old y))) }
    ensures within { IfOk result (λ i. i < length bank.new) }
    ensures extends { Extends bank.old bank.new }
    ensures longer { length bank.old ≤ length bank.new }
{
    let form = word_form(bank, operator, x, y);
    let id = attempt!(place(bank, form));
    Ok(id)
}

/// The normal form of the word of two bytes, the lowest first.
pub fn normal_join_two(bank: &mut Bank, x: TermId, y: TermId) -> Result<TermId, AllocError>
    requires x_within { x < length bank.old }
    requires y_within { y < length bank.old }
    ensures form { let s = tree_at bank.old x in let t = tree_at bank.old y in IfOk result
        (λ i. Holds bank.new i (spec.normal_join Width.W16 (s ∷ t ∷ []) (tree.join_two s t))) }
    ensures within { IfOk result (λ i. i < length bank.new) }
    ensures extends { Extends bank.old bank.new }
    ensures longer { length bank.old ≤ length bank.new }
{
    let form = join_two_form(bank, x, y);
    let id = attempt!(place(bank, form));
    Ok(id)
}

/// The normal form of `ite test x y`, which is of the sort of x and y, memory too.
pub fn normal_choose(
    bank: &mut Bank,
    test: TermId,
    x: TermId,
    y: TermId,
) -> Result<TermId, AllocError>
    requires test_within { test < length bank.old }
    requires x_within { x < length bank.old }
    requires y_within { y < length bank.old }
    ensures form { IfOk result (λ i. Holds bank.new i
        (spec.normal_choose (tree_at bank.old test) (tree_at bank.old x) (tree_at bank.old y))) }
    ensures within { IfOk result (λ i. i < length bank.new) }
    ensures extends { Extends bank.old bank.new }
    ensures longer { length bank.old ≤ length bank.new }
{
    let form = choose_form(bank, test, x, y);
    let id = attempt!(place(bank, form));
    Ok(id)
}

#[tactic(auto, unfolding(term_norm_spec::specs::Normal::normal_ternary))]
fn ternary_form(bank: &Bank, operator: TernaryOperator, x: TermId, y: TermId, z: TermId) -> Form
    requires x_within { x < length bank.now }
    requires y_within { y < length bank.now }
    requires z_within { z < length bank.now }
    ensures within { IsForm (length bank.now) result }
    ensures tree { form_tree bank.now result
        ≡ spec.normal_ternary operator (tree_at bank.now x) (tree_at bank.now y)
        (tree_at bank.now z) }
{
    match operator {
        TernaryOperator::Choose => choose_form(bank, x, y, z),
        TernaryOperator::Store => { Form::Made(TermNode::Ternary(TernaryOperator::Store, x, y, z)) }
    }
}

/// The normal form of an operator with three arguments: a store is left as it is.
pub fn normal_ternary(
    bank: &mut Bank,
    operator: TernaryOperator,
    x: TermId,
    y: TermId,
    z: TermId,
) -> Result<TermId, AllocError>
    requires x_within { x < length bank.old }
    requires y_within { y < length bank.old }
    requires z_within { z < length bank.old }
    ensures form { IfOk result (λ i. Holds bank.new i
        (spec.normal_ternary operator (tree_at bank.old x) (tree_at bank.old y)
        (tree_at bank.old z))) }
    ensures within { IfOk result (λ i. i < length bank.new) }
    ensures extends { Extends bank.old bank.new }
    ensures longer { length bank.old ≤ length bank.new }
{
    let form = ternary_form(bank, operator, x, y, z);
    let id = attempt!(place(bank, form));
    Ok(id)
}

#[tactic(auto, unfolding(term_norm_spec::specs::Normal::normal_quaternary))]
fn quaternary_form(
    bank: &Bank,
    operator: QuaternaryOperator,
    a: TermId,
    b: TermId,
    c: TermId,
    d: TermId,
) -> Result<Form, AllocError>
    requires { IsNode (length bank.now) (TermNode.Quaternary operator a b c d) }
    ensures within { IfOk result (IsForm (length bank.now)) }
    ensures tree { IfOk result (λ form. form_tree bank.now form
        ≡ spec.normal_quaternary operator (tree_at bank.now a) (tree_at bank.now b)
        (tree_at bank.now c) (tree_at bank.now d)) }
{
    match operator {
        QuaternaryOperator::Over => {
            let overlay = TermNode::Quaternary(QuaternaryOperator::Over, a, b, c, d);
            Ok(Form::Made(overlay))
        }
        QuaternaryOperator::Join => {
            let form = attempt!(join_four_form(bank, a, b, c, d));
            Ok(form)
        }
    }
}

/// The normal form of an operator with four arguments: an overlay of memories is left as it is.
pub fn normal_quaternary(
    bank: &mut Bank,
    operator: QuaternaryOperator,
    a: TermId,
    b: TermId,
    c: TermId,
    d: TermId,
) -> Result<TermId, AllocError>
    requires { IsNode (length bank.old) (TermNode.Quaternary operator a b c d) }
    ensures form { IfOk result (λ i. Holds bank.new i
        (spec.normal_quaternary operator (tree_at bank.old a) (tree_at bank.old b)
        (tree_at bank.old c) (tree_at bank.old d))) }
    ensures within { IfOk result (λ i. i < length bank.new) }
    ensures extends { Extends bank.old bank.new }
    ensures longer { length bank.old ≤ length bank.new }
{
    let form = attempt!(quaternary_form(bank, operator, a, b, c, d));
    let id = attempt!(place(bank, form));
    Ok(id)
}

/// The normal form of the word of eight bytes, the lowest first.
pub fn normal_octonary(
    bank: &mut Bank,
    a: TermId,
    b: TermId,
    c: TermId,
    d: TermId,
    e: TermId,
    f: TermId,
    g: TermId,
    h: TermId,
) -> Result<TermId, AllocError>
    requires { IsNode (length bank.old) (TermNode.Octonary a b c d e f g h) }
    ensures form { IfOk result (λ i. Holds bank.new i
        (spec.normal_octonary (tree_at bank.old a) (tree_at bank.old b) (tree_at bank.old c)
        (tree_at bank.old d) (tree_at bank.old e) (tree_at bank.old f) (tree_at bank.old g)
        (tree_at bank.old h))) }
    ensures within { IfOk result (λ i. i < length bank.new) }
    ensures extends { Extends bank.old bank.new }
    ensures longer { length bank.old ≤ length bank.new }
{
    let form = join_eight_form(bank, a, b, c, d, e, f, g, h);
    let id = attempt!(place(bank, form));
    Ok(id)
}

/// A byte that is known.
pub fn constant_byte(bank: &mut Bank, byte: u8) -> Result<TermId, AllocError>
    ensures form { IfOk result (λ i. Holds bank.new i (tree.constant Width.W8 byte)) }
    ensures within { IfOk result (λ i. i < length bank.new) }
    ensures extends { Extends bank.old bank.new }
    ensures longer { length bank.old ≤ length bank.new }
{
    let id = attempt!(bank.add(TermNode::Leaf(Atom::Constant(Width::W8, u64::from(byte)))));
    Ok(id)
}
