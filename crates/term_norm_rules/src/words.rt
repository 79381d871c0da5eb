// The rules of operations on words.

ghost use Rattle.std.specs.Prelude.{◌≡◌, ℕ, ◌<◌, length, if◌then◌else◌};
ghost use Rattle.term_core_spec.specs.Term as tree;
ghost use Rattle.term_bank.specs.Nodes.{IsNode, tree_at};
ghost use Rattle.term_norm_spec.specs.Patterns as patterns;
ghost use Rattle.term_norm_spec.specs.Normal as spec;
ghost use Rattle.term_norm_rules.specs.Forms.{form_tree, IsForm};

use crate::constants::{value_of_one, value_of_two};
use crate::form::{Form, first_of, found_or};
use crate::numbers::{negative, sum};
use crate::patterns::{
    are_complements, base_and_offset, is_constant, is_full, is_one, is_zero, number_of, same,
    under_complement,
};
use crate::widths::width_of;
use term_bank::{Bank, TermId, TermNode};
use term_core_spec::{BinaryOperator, UnaryOperator, Width, WordOperator};

/// The complement: that of a complement is its argument.
#[tactic(auto, unfolding(term_norm_spec::specs::Normal::normal_complement))]
pub fn complement_form(bank: &Bank, x: TermId) -> Form
    requires { x < length bank.now }
    ensures within { IsForm (length bank.now) result }
    ensures tree { form_tree bank.now result ≡ spec.normal_complement (tree_at bank.now x) }
{
    let operator = UnaryOperator::Complement;
    let complement = Form::Made(TermNode::Unary(operator, x));
    let inner = found_or(under_complement(bank, x), complement);
    first_of(&[value_of_one(bank, operator, x)], inner)
}

/// `and` on words: 0 is absorbing, the full word is left out, and a word with its complement is 0.
#[tactic(auto, unfolding(term_norm_spec::specs::Normal::normal_bit_and))]
pub fn bit_and_form(bank: &Bank, x: TermId, y: TermId) -> Form
    requires x_within { x < length bank.now }
    requires y_within { y < length bank.now }
    ensures within { IsForm (length bank.now) result }
    ensures tree { form_tree bank.now result
        ≡ spec.normal_bit_and (tree_at bank.now x) (tree_at bank.now y) }
{
    let operator = BinaryOperator::Word(WordOperator::And);
    let rules = [
        value_of_two(bank, operator, x, y),
        (is_zero(bank, x), Form::Same(x)),
        (is_zero(bank, y), Form::Same(y)),
        (is_full(bank, x), Form::Same(y)),
        (is_full(bank, y), Form::Same(x)),
        (same(bank, x, y), Form::Same(x)),
        (are_complements(bank, x, y), Form::Zero(x)),
    ];
    first_of(&rules, Form::Made(TermNode::Binary(operator, x, y)))
}

/// `or` on words: the full word is absorbing, 0 is left out, and a word with its complement is
/// full.
#[tactic(auto, unfolding(term_norm_spec::specs::Normal::normal_bit_or))]
pub fn bit_or_form(bank: &Bank, x: TermId, y: TermId) -> Form
    requires x_within { x < length bank.now }
    requires y_within { y < length bank.now }
    ensures within { IsForm (length bank.now) result }
    ensures tree { form_tree bank.now result
        ≡ spec.normal_bit_or (tree_at bank.now x) (tree_at bank.now y) }
{
    let operator = BinaryOperator::Word(WordOperator::Or);
    let rules = [
        value_of_two(bank, operator, x, y),
        (is_full(bank, x), Form::Same(x)),
        (is_full(bank, y), Form::Same(y)),
        (is_zero(bank, x), Form::Same(y)),
        (is_zero(bank, y), Form::Same(x)),
        (same(bank, x, y), Form::Same(x)),
        (are_complements(bank, x, y), Form::Full(x)),
    ];
    first_of(&rules, Form::Made(TermNode::Binary(operator, x, y)))
}

/// `xor`: a word with itself is 0, and 0 is left out.
#[tactic(auto, unfolding(term_norm_spec::specs::Normal::normal_bit_xor))]
pub fn bit_xor_form(bank: &Bank, x: TermId, y: TermId) -> Form
    requires x_within { x < length bank.now }
    requires y_within { y < length bank.now }
    ensures within { IsForm (length bank.now) result }
    ensures tree { form_tree bank.now result
        ≡ spec.normal_bit_xor (tree_at bank.now x) (tree_at bank.now y) }
{
    let operator = BinaryOperator::Word(WordOperator::Xor);
    let rules = [
        value_of_two(bank, operator, x, y),
        (same(bank, x, y), Form::Zero(x)),
        (is_zero(bank, x), Form::Same(y)),
        (is_zero(bank, y), Form::Same(x)),
    ];
    first_of(&rules, Form::Made(TermNode::Binary(operator, x, y)))
}

// A word and a constant that is added to it, where the word may be such a sum.
#[tactic(auto, unfolding(term_norm_spec::specs::Normal::add_constant, term_norm_spec::specs::Normal::with_constant))]
fn add_constant(bank: &Bank, width: Width, x: TermId, number: u64) -> Form
    requires { x < length bank.now }
    ensures within { IsForm (length bank.now) result }
    ensures tree { form_tree bank.now result ≡ spec.add_constant width (tree_at bank.now x) number }
{
    let (base, offset) = base_and_offset(bank, x);
    let total = sum(width, offset, number);
    if total == 0 {
        Form::Same(base)
    } else {
        Form::Sum(base, width, total)
    }
}

// The sum of two words of which one is a constant, or any two.
fn sum_form(bank: &Bank, x: TermId, y: TermId) -> Form
    requires x_within { x < length bank.now }
    requires y_within { y < length bank.now }
    ensures within { IsForm (length bank.now) result }
    ensures tree { let s = tree_at bank.now x in let t = tree_at bank.now y in form_tree bank.now
        result ≡ (if patterns.is_constant s then spec.add_constant (patterns.width_of s) t
        (patterns.number_of s) else if patterns.is_constant t then
        spec.add_constant (patterns.width_of t) s (patterns.number_of t) else tree.add s t) }
{
    if is_constant(bank, x) {
        return add_constant(bank, width_of(bank, x), y, number_of(bank, x));
    }
    if is_constant(bank, y) {
        return add_constant(bank, width_of(bank, y), x, number_of(bank, y));
    }
    Form::Made(TermNode::Binary(BinaryOperator::Word(WordOperator::Add), x, y))
}

/// The sum: a constant is put on the right, and two constants are gathered.
#[tactic(auto, unfolding(term_norm_spec::specs::Normal::normal_add))]
pub fn add_form(bank: &Bank, x: TermId, y: TermId) -> Form
    requires x_within { x < length bank.now }
    requires y_within { y < length bank.now }
    ensures within { IsForm (length bank.now) result }
    ensures tree { form_tree bank.now result
        ≡ spec.normal_add (tree_at bank.now x) (tree_at bank.now y) }
{
    let operator = BinaryOperator::Word(WordOperator::Add);
    let value = value_of_two(bank, operator, x, y);
    first_of(&[value], sum_form(bank, x, y))
}

// The difference of a word and a constant, or of any two.
fn difference_form(bank: &Bank, x: TermId, y: TermId) -> Form
    requires x_within { x < length bank.now }
    requires y_within { y < length bank.now }
    ensures within { IsForm (length bank.now) result }
    ensures tree { let s = tree_at bank.now x in let t = tree_at bank.now y in form_tree bank.now
        result ≡ (if patterns.is_constant t then spec.add_constant (patterns.width_of t) s
        (spec.negative (patterns.width_of t) (patterns.number_of t)) else tree.subtract s t) }
{
    if is_constant(bank, y) {
        let width = width_of(bank, y);
        let number = negative(width, number_of(bank, y));
        return add_constant(bank, width, x, number);
    }
    Form::Made(TermNode::Binary(BinaryOperator::Word(WordOperator::Subtract), x, y))
}

/// The difference: of a word with itself it is 0, and a constant is added as its negative.
#[tactic(auto, unfolding(term_norm_spec::specs::Normal::normal_subtract))]
pub fn subtract_form(bank: &Bank, x: TermId, y: TermId) -> Form
    requires x_within { x < length bank.now }
    requires y_within { y < length bank.now }
    ensures within { IsForm (length bank.now) result }
    ensures tree { form_tree bank.now result
        ≡ spec.normal_subtract (tree_at bank.now x) (tree_at bank.now y) }
{
    let operator = BinaryOperator::Word(WordOperator::Subtract);
    let value = value_of_two(bank, operator, x, y);
    let nothing = (same(bank, x, y), Form::Zero(x));
    first_of(&[value, nothing], difference_form(bank, x, y))
}

// The product of a word and a constant.
#[tactic(auto, unfolding(term_norm_spec::specs::Normal::multiply_constant))]
fn multiply_constant(bank: &Bank, x: TermId, constant: TermId) -> Form
    requires x_within { x < length bank.now }
    requires constant_within { constant < length bank.now }
    ensures within { IsForm (length bank.now) result }
    ensures tree { form_tree bank.now result
        ≡ spec.multiply_constant (tree_at bank.now x) (tree_at bank.now constant) }
{
    let operator = BinaryOperator::Word(WordOperator::Multiply);
    let rules = [
        (is_zero(bank, constant), Form::Same(constant)),
        (is_one(bank, constant), Form::Same(x)),
    ];
    first_of(&rules, Form::Made(TermNode::Binary(operator, x, constant)))
}

/// The product: a constant is put on the right, 0 is absorbing, and 1 is left out.
#[tactic(auto, unfolding(term_norm_spec::specs::Normal::normal_multiply))]
pub fn multiply_form(bank: &Bank, x: TermId, y: TermId) -> Form
    requires x_within { x < length bank.now }
    requires y_within { y < length bank.now }
    ensures within { IsForm (length bank.now) result }
    ensures tree { form_tree bank.now result
        ≡ spec.normal_multiply (tree_at bank.now x) (tree_at bank.now y) }
{
    let operator = BinaryOperator::Word(WordOperator::Multiply);
    let rules = [
        value_of_two(bank, operator, x, y),
        (is_constant(bank, x), multiply_constant(bank, y, x)),
        (is_constant(bank, y), multiply_constant(bank, x, y)),
    ];
    first_of(&rules, Form::Made(TermNode::Binary(operator, x, y)))
}

/// A shift: one by 0 is left out.
#[tactic(auto, unfolding(term_norm_spec::specs::Normal::normal_shift))]
pub fn shift_form(bank: &Bank, operator: WordOperator, x: TermId, y: TermId) -> Form
    requires x_within { x < length bank.now }
    requires y_within { y < length bank.now }
    ensures within { IsForm (length bank.now) result }
    ensures tree { form_tree bank.now result
        ≡ spec.normal_shift operator (tree_at bank.now x) (tree_at bank.now y) }
{
    let operator = BinaryOperator::Word(operator);
    let rules = [
        value_of_two(bank, operator, x, y),
        (is_zero(bank, y), Form::Same(x)),
    ];
    first_of(&rules, Form::Made(TermNode::Binary(operator, x, y)))
}

// A quotient or a remainder: of constants alone it is known.
fn divide_form(bank: &Bank, operator: WordOperator, x: TermId, y: TermId) -> Form
    requires x_within { x < length bank.now }
    requires y_within { y < length bank.now }
    ensures within { IsForm (length bank.now) result }
    ensures tree { let s = tree_at bank.now x in let t = tree_at bank.now y in form_tree bank.now
        result ≡ spec.value_of_two_or (BinaryOperator.Word operator) s t
        (tree.on_words operator s t) }
{
    let operator = BinaryOperator::Word(operator);
    let value = value_of_two(bank, operator, x, y);
    first_of(&[value], Form::Made(TermNode::Binary(operator, x, y)))
}

/// An operation on words.
#[tactic(auto, unfolding(term_norm_spec::specs::Normal::normal_word))]
pub fn word_form(bank: &Bank, operator: WordOperator, x: TermId, y: TermId) -> Form
    requires x_within { x < length bank.now }
    requires y_within { y < length bank.now }
    ensures within { IsForm (length bank.now) result }
    ensures tree { form_tree bank.now result
        ≡ spec.normal_word operator (tree_at bank.now x) (tree_at bank.now y) }
{
    match operator {
        WordOperator::Add => add_form(bank, x, y),
        WordOperator::Subtract => subtract_form(bank, x, y),
        WordOperator::Multiply => multiply_form(bank, x, y),
        WordOperator::And => bit_and_form(bank, x, y),
        WordOperator::Or => bit_or_form(bank, x, y),
        WordOperator::Xor => bit_xor_form(bank, x, y),
        WordOperator::ShiftLeft => shift_form(bank, WordOperator::ShiftLeft, x, y),
        WordOperator::ShiftRight => shift_form(bank, WordOperator::ShiftRight, x, y),
        WordOperator::ShiftRightSigned => shift_form(bank, WordOperator::ShiftRightSigned, x, y),
        WordOperator::Divide => divide_form(bank, WordOperator::Divide, x, y),
        WordOperator::Remainder => divide_form(bank, WordOperator::Remainder, x, y),
    }
}
