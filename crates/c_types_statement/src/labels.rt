//! Tests, and the labels of a `switch` (6.8.4, 6.8.5).

ghost use Rattle.std.specs.Prelude.{◌≡◌, ◌++◌, [], drop, map, IfOk, Ok};
ghost use Rattle.c_syntax.specs.Expressions.{expression_of};
ghost use Rattle.c_syntax.specs.Locals.{label_of};
ghost use Rattle.c_types_spec.specs.Statements as rule;
ghost use Rattle.c_types_operator.specs.Gives.{Gives};
ghost use Rattle.c_types_operator.specs.Operands.{core_in, valued_of};
ghost use Rattle.c_types_scope.specs.States.{state_of, Runs};
ghost use Rattle.c_types_simple.specs.Contexts.{seen_test};
ghost use Rattle.c_types_statement.specs.Labels as specs;

use attempt::{Refusal, attempt};
use c_syntax::expression::Expression;
use c_syntax::statement::Label;
use c_types_core::constants::value_in;
use c_types_core::expression::Core;
use c_types_core::fault::TypeFault;
use c_types_expression::expression::value;
use c_types_expression::types::{integer_constant, scalar_value};
use c_types_operator::operand::{Valued, convert};
use c_types_operator::scalar::promoted;
use c_types_scope::state::{State, push};
use c_types_spec::{Scalar, TypeFaultKind};
use indexmap::IndexSet;
use std::alloc::Global;

/// A test, which is an integer or a pointer.
#[tactic(auto, unfolding(c_types_spec::specs::Statements::condition))]
pub fn condition<'a>(
    alloc: Global,
    test: &Expression<'a>,
    state: &mut State<'a>,
) -> Result<Box<Core<'a>>, Refusal<TypeFault>>
    ensures { Runs core_in result state.new (rule.condition (expression_of test.now) (state_of
        state.old)) }
{
    let v = attempt!(value(alloc, test, state));
    scalar_value(v)
}

/// The test of a `switch`, which is an integer and is promoted, and its type.
#[tactic(auto, unfolding(c_types_spec::specs::Statements::switch_test, c_types_operator::specs::Operands::valued_of))]
pub fn switch_test<'a>(
    alloc: Global,
    v: Valued<'a>,
) -> Result<(Box<Core<'a>>, Scalar), Refusal<TypeFault>>
    ensures { Gives seen_test result (rule.switch_test (valued_of v.entry)) }
{
    match v.of.integer() {
        Some(scalar) => {
            let of = promoted(scalar);
            drop(v.of);
            let core = attempt!(convert(alloc, of, v.core));
            Ok((core, of))
        }
        None => {
            let offset = v.offset;
            drop(v);
            Err(Refusal::Fault(TypeFault::At(TypeFaultKind::Mismatch, offset)))
        }
    }
}

/// The value of a label, none being `default`, and its offset.
#[tactic(auto, unfolding(c_types_spec::specs::Statements::label, c_types_operator::specs::Operands::valued_of))]
fn label<'a>(
    alloc: Global,
    given: &Label<'a>,
    of: Scalar,
    state: &mut State<'a>,
) -> Result<(Option<i128>, usize), Refusal<TypeFault>>
    ensures { Runs (λ l. l) result state.new (rule.label (label_of given.now) of (state_of
        state.old)) }
{
    match given {
        Label::Case(x, _) => {
            let v = attempt!(value(alloc, x, state));
            let offset = v.offset;
            let found = integer_constant(&v);
            drop(v);
            let constant = attempt!(found);
            let key = attempt!(value_in(of, constant), Refusal::NoMemory);
            Ok((Some(key), offset))
        }
        Label::Default(offset) => Ok((None, *offset)),
    }
}

/// One more label of the same `switch`, which none so far is.
fn add_label(
    seen: &mut IndexSet<Option<i128>>,
    made: Option<i128>,
    offset: usize,
) -> Result<(), Refusal<TypeFault>>
    ensures { Gives (λ _. seen.new.keys) result (specs.with_label seen.old.keys made offset) }
{
    match seen.insert(made) {
        Ok(true) => Ok(()),
        Ok(false) => Err(Refusal::Fault(TypeFault::At(TypeFaultKind::Twice, offset))),
        Err(_) => Err(Refusal::NoMemory),
    }
}

/// One more label of a group, after all of the same `switch` so far.
#[tactic(auto, unfolding(crate::specs::Labels::one_label))]
fn one_label<'a>(
    alloc: Global,
    given: &Label<'a>,
    of: Scalar,
    seen: &mut IndexSet<Option<i128>>,
    state: &mut State<'a>,
) -> Result<(), Refusal<TypeFault>>
    ensures { Runs (λ _. seen.new.keys) result state.new (specs.one_label (label_of given.now) of
        seen.old.keys (state_of state.old)) }
{
    let made = attempt!(label(alloc, given, of, state));
    add_label(seen, made.0, made.1)
}

/// The labels of a group, after all of the same `switch` so far.
#[tactic(auto, using(crate::proofs::LabelSets::rows))]
fn add_labels<'a>(
    alloc: Global,
    list: &[Label<'a>],
    of: Scalar,
    seen: &mut IndexSet<Option<i128>>,
    state: &mut State<'a>,
) -> Result<(), Refusal<TypeFault>>
    ensures { Runs (λ _. seen.new.keys) result state.new (rule.labels (map label_of list.now) of []
        seen.old.keys (state_of state.old)) }
{
    for item in list {
        match one_label(alloc, item, of, seen, state) {
            Ok(()) => {}
            Err(fault) => return Err(fault),
        }
    }
    Ok(())
}

/// The labels from a place on.
fn since(all: &[Option<i128>], start: usize) -> &[Option<i128>]
    ensures { result.now ≡ drop start all.now }
{
    if start <= all.len() {
        &all[start..]
    } else {
        &all[all.len()..]
    }
}

/// More labels, after the others.
fn push_labels(
    found: &mut Vec<Option<i128>>,
    more: &[Option<i128>],
) -> Result<(), Refusal<TypeFault>>
    ensures { Gives (λ _. found.new.items) result (Ok (found.old.items ++ more.now)) }
{
    for label in more {
        attempt!(push(found, *label));
    }
    Ok(())
}

/// The labels from a place on, in a list of their own.
fn labels_since(
    alloc: Global,
    all: &[Option<i128>],
    start: usize,
) -> Result<Vec<Option<i128>>, Refusal<TypeFault>>
    ensures { Gives (λ l. l.items) result (Ok (drop start all.now)) }
{
    let mut found = Vec::new(alloc);
    attempt!(push_labels(&mut found, since(all, start)));
    Ok(found)
}

/// The labels of a group, which are added to those of the groups before. Each is compared by one
/// look-up.
pub fn labels<'a>(
    alloc: Global,
    list: &[Label<'a>],
    of: Scalar,
    seen: &mut IndexSet<Option<i128>>,
    state: &mut State<'a>,
) -> Result<Vec<Option<i128>>, Refusal<TypeFault>>
    ensures given { Runs (λ l. l.items) result state.new (rule.labels (map label_of list.now) of
        seen.old.keys [] (state_of state.old)) }
    ensures kept { IfOk result (λ l. seen.new.keys ≡ seen.old.keys ++ l.items) }
{
    let start = seen.len();
    match add_labels(alloc, list, of, seen, state) {
        Ok(()) => labels_since(alloc, seen.as_slice(), start),
        Err(fault) => Err(fault),
    }
}

/// The offset of the first label.
pub fn first_offset(list: &[Label<'_>]) -> usize
    ensures { result ≡ rule.first_offset (map label_of list.now) }
{
    match list.first() {
        Some(Label::Case(_, offset)) | Some(Label::Default(offset)) => *offset,
        None => 0,
    }
}
