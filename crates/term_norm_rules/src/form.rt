// What a rule gives, and its index in the bank.

ghost use Rattle.std.specs.Prelude.{◌≡◌, ℕ, ◌<◌, ◌≤◌, List, length, option_map, unwrap_or, IfOk};
ghost use Rattle.std.specs.Prelude.{IfSome};
ghost use Rattle.term_core_spec.specs.Term.{Term, add, constant};
ghost use Rattle.term_bank.specs.Nodes.{tree_at, Holds, Extends};
ghost use Rattle.term_norm_rules.specs.Forms.{form_tree, IsForm, AreForms, chosen};

use crate::widths::width_of;
use attempt::attempt;
use std::alloc::AllocError;
use term_bank::{Bank, TermId, TermNode};
use term_core::all_ones;
use term_core_spec::{Atom, BinaryOperator, Width, WordOperator};

/// What a rule gives.
#[derive(Clone, Copy)]
pub enum Form {
    /// a term of the bank
    Same(TermId),
    /// an operator over terms of the bank
    Made(TermNode),
    /// the sum of a term of the bank and a constant
    Sum(TermId, Width, u64),
    /// 0, at the width of a term of the bank
    Zero(TermId),
    /// the word with all bits set, at the width of a term of the bank
    Full(TermId),
}

/// A rule: whether it applies, and what it gives then.
pub type Rule = (bool, Form);

/// What the first rule gives that applies.
pub fn applied(rules: &[Rule]) -> Option<Form>
    ensures within { (n : ℕ) → AreForms n rules.now → IfSome result (IsForm n) }
    ensures tree { (trees : List Term) (otherwise : Term)
        → unwrap_or (option_map (form_tree trees) result) otherwise
        ≡ chosen trees rules.now otherwise }
{
    match rules.split_first() {
        None => None,
        Some(((true, form), _)) => Some(*form),
        Some(((false, _), rest)) => applied(rest),
    }
}

/// What the first rule gives that applies, or else `otherwise`.
pub fn first_of(rules: &[Rule], otherwise: Form) -> Form
    ensures within { (n : ℕ) → AreForms n rules.now → IsForm n otherwise → IsForm n result }
    ensures tree { (trees : List Term)
        → form_tree trees result ≡ chosen trees rules.now (form_tree trees otherwise) }
{
    match applied(rules) {
        Some(form) => form,
        None => otherwise,
    }
}

/// The term at an index, where there is one, or else `otherwise`.
pub fn found_or(found: Option<TermId>, otherwise: Form) -> Form
    ensures within { (n : ℕ) → IfSome found (λ i. i < n) → IsForm n otherwise → IsForm n result }
    ensures tree { (trees : List Term)
        → form_tree trees result ≡ unwrap_or (option_map (tree_at trees) found)
        (form_tree trees otherwise) }
{
    match found {
        Some(id) => Form::Same(id),
        None => otherwise,
    }
}

// The index of a constant.
fn place_constant(bank: &mut Bank, width: Width, number: u64) -> Result<TermId, AllocError>
    ensures form { IfOk result (λ i. Holds bank.new i (constant width number)) }
    ensures within { IfOk result (λ i. i < length bank.new) }
    ensures extends { Extends bank.old bank.new }
    ensures longer { length bank.old ≤ length bank.new }
{
    let id = attempt!(bank.add(TermNode::Leaf(Atom::Constant(width, number))));
    Ok(id)
}

// The index of the sum of a term and a constant.
fn place_sum(bank: &mut Bank, x: TermId, width: Width, number: u64) -> Result<TermId, AllocError>
    requires { x < length bank.old }
    ensures form { IfOk result (λ i. Holds bank.new i
        (add (tree_at bank.old x) (constant width number))) }
    ensures within { IfOk result (λ i. i < length bank.new) }
    ensures extends { Extends bank.old bank.new }
    ensures longer { length bank.old ≤ length bank.new }
{
    let constant = attempt!(place_constant(bank, width, number));
    let sum = BinaryOperator::Word(WordOperator::Add);
    let id = attempt!(bank.add(TermNode::Binary(sum, x, constant)));
    Ok(id)
}

/// The index of what a rule gives, which is added where it isn't there.
pub fn place(bank: &mut Bank, form: Form) -> Result<TermId, AllocError>
    requires { IsForm (length bank.old) form }
    ensures form { IfOk result (λ i. Holds bank.new i (form_tree bank.old form)) }
    ensures within { IfOk result (λ i. i < length bank.new) }
    ensures extends { Extends bank.old bank.new }
    ensures longer { length bank.old ≤ length bank.new }
{
    match form {
        Form::Same(id) => Ok(id),
        Form::Made(node) => {
            let id = attempt!(bank.add(node));
            Ok(id)
        }
        Form::Sum(x, width, number) => {
            let id = attempt!(place_sum(bank, x, width, number));
            Ok(id)
        }
        Form::Zero(x) => {
            let width = width_of(bank, x);
            let id = attempt!(place_constant(bank, width, 0));
            Ok(id)
        }
        Form::Full(x) => {
            let width = width_of(bank, x);
            let id = attempt!(place_constant(bank, width, all_ones(width)));
            Ok(id)
        }
    }
}
