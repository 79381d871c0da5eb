// The rules of the operators that give truth values.

ghost use Rattle.std.specs.Prelude.{◌≡◌, ℕ, ◌<◌, ◌==◌, ◌&&◌, not, length};
ghost use Rattle.term_bank.specs.Nodes.{IsNode, tree_at};
ghost use Rattle.term_core_spec.specs.Same.{same_term};
ghost use Rattle.term_norm_spec.specs.Patterns as patterns;
ghost use Rattle.term_norm_spec.specs.Normal as spec;
ghost use Rattle.term_norm_rules.specs.Forms.{form_tree, IsForm};

use crate::constants::{value_of_one, value_of_two};
use crate::form::{Form, first_of, found_or};
use crate::patterns::{
    are_negations, base_and_offset, is_false, is_true, is_zero, same, under_not,
};
use term_bank::{Bank, TermId, TermNode};
use term_core_spec::{Atom, BinaryOperator, UnaryOperator};

const TRUE: Form = Form::Made(TermNode::Leaf(Atom::Truth(true)));

const FALSE: Form = Form::Made(TermNode::Leaf(Atom::Truth(false)));

/// `not`: the negation of a negation is its argument.
#[tactic(auto, unfolding(term_norm_spec::specs::Normal::normal_not))]
pub fn not_form(bank: &Bank, x: TermId) -> Form
    requires { x < length bank.now }
    ensures within { IsForm (length bank.now) result }
    ensures tree { form_tree bank.now result ≡ spec.normal_not (tree_at bank.now x) }
{
    let operator = UnaryOperator::Not;
    let negation = Form::Made(TermNode::Unary(operator, x));
    let inner = found_or(under_not(bank, x), negation);
    first_of(&[value_of_one(bank, operator, x)], inner)
}

/// `and`: false is absorbing, true is left out, and a term with its negation is false.
#[tactic(auto, unfolding(term_norm_spec::specs::Normal::normal_and))]
pub fn and_form(bank: &Bank, x: TermId, y: TermId) -> Form
    requires x_within { x < length bank.now }
    requires y_within { y < length bank.now }
    ensures within { IsForm (length bank.now) result }
    ensures tree { form_tree bank.now result
        ≡ spec.normal_and (tree_at bank.now x) (tree_at bank.now y) }
{
    let operator = BinaryOperator::And;
    let rules = [
        value_of_two(bank, operator, x, y),
        (is_false(bank, x), Form::Same(x)),
        (is_false(bank, y), Form::Same(y)),
        (is_true(bank, x), Form::Same(y)),
        (is_true(bank, y), Form::Same(x)),
        (same(bank, x, y), Form::Same(x)),
        (are_negations(bank, x, y), FALSE),
    ];
    first_of(&rules, Form::Made(TermNode::Binary(operator, x, y)))
}

/// `or`: true is absorbing, false is left out, and a term with its negation is true.
#[tactic(auto, unfolding(term_norm_spec::specs::Normal::normal_or))]
pub fn or_form(bank: &Bank, x: TermId, y: TermId) -> Form
    requires x_within { x < length bank.now }
    requires y_within { y < length bank.now }
    ensures within { IsForm (length bank.now) result }
    ensures tree { form_tree bank.now result
        ≡ spec.normal_or (tree_at bank.now x) (tree_at bank.now y) }
{
    let operator = BinaryOperator::Or;
    let rules = [
        value_of_two(bank, operator, x, y),
        (is_true(bank, x), Form::Same(x)),
        (is_true(bank, y), Form::Same(y)),
        (is_false(bank, x), Form::Same(y)),
        (is_false(bank, y), Form::Same(x)),
        (same(bank, x, y), Form::Same(x)),
        (are_negations(bank, x, y), TRUE),
    ];
    first_of(&rules, Form::Made(TermNode::Binary(operator, x, y)))
}

// Whether two words are one term with different constants added.
fn have_unequal_offsets(bank: &Bank, x: TermId, y: TermId) -> bool
    requires x_within { x < length bank.now }
    requires y_within { y < length bank.now }
    ensures { let s = tree_at bank.now x in let t = tree_at bank.now y in result
        ≡ (same_term (patterns.base s) (patterns.base t) && not
        (patterns.offset s == patterns.offset t)) }
{
    let (first, c) = base_and_offset(bank, x);
    let (second, d) = base_and_offset(bank, y);
    same(bank, first, second) && c != d
}

/// `eq`: a truth value compared with a constant is it or its negation, and words are unequal that
/// are one term with different constants added.
#[tactic(auto, unfolding(term_norm_spec::specs::Normal::normal_equal))]
pub fn equal_form(bank: &Bank, x: TermId, y: TermId) -> Form
    requires x_within { x < length bank.now }
    requires y_within { y < length bank.now }
    ensures within { IsForm (length bank.now) result }
    ensures tree { form_tree bank.now result
        ≡ spec.normal_equal (tree_at bank.now x) (tree_at bank.now y) }
{
    let operator = BinaryOperator::Equal;
    let rules = [
        value_of_two(bank, operator, x, y),
        (same(bank, x, y), TRUE),
        (is_true(bank, x), Form::Same(y)),
        (is_true(bank, y), Form::Same(x)),
        (is_false(bank, x), not_form(bank, y)),
        (is_false(bank, y), not_form(bank, x)),
        (have_unequal_offsets(bank, x, y), FALSE),
    ];
    first_of(&rules, Form::Made(TermNode::Binary(operator, x, y)))
}

/// `ult`: no word is less than itself, or than 0.
#[tactic(auto, unfolding(term_norm_spec::specs::Normal::normal_less))]
pub fn less_form(bank: &Bank, x: TermId, y: TermId) -> Form
    requires x_within { x < length bank.now }
    requires y_within { y < length bank.now }
    ensures within { IsForm (length bank.now) result }
    ensures tree { form_tree bank.now result
        ≡ spec.normal_less (tree_at bank.now x) (tree_at bank.now y) }
{
    let operator = BinaryOperator::Less;
    let rules = [
        value_of_two(bank, operator, x, y),
        (same(bank, x, y), FALSE),
        (is_zero(bank, y), FALSE),
    ];
    first_of(&rules, Form::Made(TermNode::Binary(operator, x, y)))
}
