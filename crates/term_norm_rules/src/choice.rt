// The rules of the choice between two terms.

ghost use Rattle.std.specs.Prelude.{◌≡◌, ℕ, ◌<◌, ◌&&◌, length, option_map, unwrap_or, IfSome};
ghost use Rattle.term_core_spec.specs.Term.{Term};
ghost use Rattle.term_bank.specs.Nodes.{IsNode, tree_at};
ghost use Rattle.term_norm_spec.specs.Patterns as patterns;
ghost use Rattle.term_norm_spec.specs.Normal as spec;
ghost use Rattle.term_norm_rules.specs.Forms.{form_tree, IsForm};

use crate::form::{Form, applied};
use crate::patterns::{is_false, is_true, same, under_not};
use term_bank::{Bank, TermId, TermNode};
use term_core_spec::TernaryOperator;

// Whether the first term is true and the second false.
fn are_true_and_false(bank: &Bank, x: TermId, y: TermId) -> bool
    requires x_within { x < length bank.now }
    requires y_within { y < length bank.now }
    ensures { result ≡ (patterns.is_true (tree_at bank.now x) && patterns.is_false
        (tree_at bank.now y)) }
{
    is_true(bank, x) && is_false(bank, y)
}

// The arm of a constant test, the arm that both are, or the test that the arms repeat.
fn arm(bank: &Bank, test: TermId, x: TermId, y: TermId) -> Option<Form>
    requires test_within { test < length bank.now }
    requires x_within { x < length bank.now }
    requires y_within { y < length bank.now }
    ensures within { IfSome result (IsForm (length bank.now)) }
    ensures tree { (otherwise : Term)
        → unwrap_or (option_map (form_tree bank.now) result) otherwise
        ≡ spec.arm_or (tree_at bank.now test) (tree_at bank.now x) (tree_at bank.now y) otherwise }
{
    let rules = [
        (is_true(bank, test), Form::Same(x)),
        (is_false(bank, test), Form::Same(y)),
        (same(bank, x, y), Form::Same(x)),
        (are_true_and_false(bank, x, y), Form::Same(test)),
    ];
    applied(&rules)
}

/// The choice: a constant test leaves an arm, equal arms are one, and a negated test exchanges the
/// arms.
pub fn choose_form(bank: &Bank, test: TermId, x: TermId, y: TermId) -> Form
    requires test_within { test < length bank.now }
    requires x_within { x < length bank.now }
    requires y_within { y < length bank.now }
    ensures within { IsForm (length bank.now) result }
    ensures tree { form_tree bank.now result
        ≡ spec.normal_choose (tree_at bank.now test) (tree_at bank.now x) (tree_at bank.now y) }
{
    let (mut test, mut first, mut second) = (test, x, y);
    loop {
        if let Some(form) = arm(bank, test, first, second) {
            return form;
        }
        match under_not(bank, test) {
            Some(argument) => {
                test = argument;
                (first, second) = (second, first);
            }
            None => return Form::Made(TermNode::Ternary(
                TernaryOperator::Choose,
                test,
                first,
                second,
            )),
        }
    }
}
