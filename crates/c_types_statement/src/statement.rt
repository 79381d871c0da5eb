//! Statements, which contain one another (6.8).

ghost use Rattle.std.specs.Prelude.{◌≡◌, ◌++◌, ◌∷◌, [], if◌then◌else◌, drop, map, true, IfOk, Ok};
ghost use Rattle.std.specs.Option.{option_map};
ghost use Rattle.c_syntax_spec.specs.Unit as tree;
ghost use Rattle.c_syntax.specs.Expressions.{expression_of};
ghost use Rattle.c_syntax.specs.Locals.{start_of};
ghost use Rattle.c_syntax.specs.Simples.{simple_of};
ghost use Rattle.c_syntax.specs.Statements.{statement_of, part_of, parts_of, group_of, groups_of};
ghost use Rattle.c_types_spec.specs.Core as core;
ghost use Rattle.c_types_spec.specs.Names as names;
ghost use Rattle.c_types_spec.specs.Statements as rule;
ghost use Rattle.c_types_spec.specs.declared.TypeFaultKind.TheVariants.{Mismatch};
ghost use Rattle.c_types_core.specs.Actions.{actions_in, group_of as core_group_of};
ghost use Rattle.c_types_operator.specs.Gives.{Gives};
ghost use Rattle.c_types_operator.specs.Operands.{core_in};
ghost use Rattle.c_types_scope.specs.States.{nothing, state_of, Runs};
ghost use Rattle.c_types_expression.specs.Trees.{unboxed};
ghost use Rattle.c_types_simple.specs.Contexts.{action_in, context_of};
ghost use Rattle.c_types_statement.specs.Choices.{IsIfElse, is_plain};
ghost use Rattle.c_types_statement.specs.Groups as specs;
ghost use Rattle.c_types_statement.specs.Switches.{so_far};

use crate::endings::ends;
use crate::labels::{condition, first_offset, labels, switch_test};
use attempt::{Refusal, attempt};
use c_syntax::expression::Expression;
use c_syntax::simple::Simple;
use c_syntax::statement::{ForStart, Group, Part, Statement};
use c_types_core::action::{Action, Group as CoreGroup};
use c_types_core::constants::INT;
use c_types_core::expression::Core;
use c_types_core::fault::TypeFault;
use c_types_expression::expression::value;
use c_types_operator::operand::core_or_memory;
use c_types_scope::state::{State, push};
use c_types_simple::calls::{both, push_action};
use c_types_simple::context::{Context, action_or_memory};
use c_types_simple::locals::declaration;
use c_types_simple::simple::{returned_from, simple};
use c_types_spec::{Jump, Scalar, TestPlace, TypeFaultKind};
use indexmap::IndexSet;
use std::alloc::Global;

/// Inside a loop.
fn looping<'b>(context: Context<'b>) -> Context<'b>
    ensures { context_of result ≡ rule.looping (context_of context.entry) }
{
    Context {
        returned: context.returned,
        declared_locals: context.declared_locals,
        in_loop: true,
        in_switch: context.in_switch,
    }
}

/// Inside a `switch`.
fn switching<'b>(context: Context<'b>) -> Context<'b>
    ensures { context_of result ≡ rule.switching (context_of context.entry) }
{
    Context {
        returned: context.returned,
        declared_locals: context.declared_locals,
        in_loop: context.in_loop,
        in_switch: true,
    }
}

/// Nothing is done.
fn skip<'a>(alloc: Global) -> Result<Box<Action<'a>>, Refusal<TypeFault>>
    ensures { Gives action_in result (Ok core.Skip) }
{
    action_or_memory(Action::block(alloc, Vec::new(alloc)))
}

/// `break` or `continue`, which is allowed here or not.
fn leave<'a>(
    alloc: Global,
    jump: Jump,
    is_allowed: bool,
    offset: usize,
) -> Result<Box<Action<'a>>, Refusal<TypeFault>>
    ensures { Gives action_in result
        (if is_allowed then Ok (core.Leave jump) else names.fail Mismatch
        offset) }
{
    if is_allowed {
        action_or_memory(Action::leave(alloc, jump))
    } else {
        Err(Refusal::Fault(TypeFault::At(TypeFaultKind::Mismatch, offset)))
    }
}

/// A statement without statements in it.
#[tactic(auto, unfolding(c_types_spec::specs::Statements::statement), using(c_syntax::proofs::StatementViews::statement_views))]
fn plain<'a>(
    alloc: Global,
    x: &Statement<'a>,
    context: Context<'_>,
    state: &mut State<'a>,
) -> Result<Box<Action<'a>>, Refusal<TypeFault>>
    requires { is_plain (statement_of x.now) ≡ true }
    ensures { Runs action_in result state.new (rule.statement (statement_of x.now) (context_of
        context.entry) (state_of state.old)) }
{
    match x {
        Statement::Empty(_) => skip(alloc),
        Statement::Perform(given) => simple(alloc, given, context, state),
        Statement::Break(offset) => {
            let is_allowed = context.in_loop || context.in_switch;
            leave(alloc, Jump::Break, is_allowed, *offset)
        }
        Statement::Continue(offset) => leave(alloc, Jump::Continue, context.in_loop, *offset),
        Statement::Return(given, offset) => { returned_from(alloc, given, context, *offset, state) }
        Statement::Block(_, _) | Statement::If(_, _, _) => unreachable!(),
        Statement::IfElse(_, _, _, _) | Statement::While(_, _, _) => unreachable!(),
        Statement::Do(_, _, _) | Statement::For(_, _, _, _, _) => unreachable!(),
        Statement::Switch(_, _, _) => unreachable!(),
    }
}

/// How a `for` begins.
#[tactic(auto, unfolding(c_types_spec::specs::Statements::for_start))]
fn for_start<'a>(
    alloc: Global,
    start: &ForStart<'a>,
    context: Context<'_>,
    state: &mut State<'a>,
) -> Result<Box<Action<'a>>, Refusal<TypeFault>>
    ensures { Runs action_in result state.new (rule.for_start (start_of start.now) (context_of
        context.entry) (state_of state.old)) }
{
    match start {
        ForStart::Empty => skip(alloc),
        ForStart::Locals(locals) => {
            let mut actions = Vec::new(alloc);
            attempt!(declaration(alloc, locals, &mut actions, state));
            action_or_memory(Action::block(alloc, actions))
        }
        ForStart::Simple(given) => simple(alloc, given, context, state),
    }
}

/// The test of a `for`; an absent one is 1.
#[tactic(auto, unfolding(c_types_spec::specs::Statements::for_test))]
fn for_test<'a>(
    alloc: Global,
    test: &Option<Box<Expression<'a>>>,
    state: &mut State<'a>,
) -> Result<Box<Core<'a>>, Refusal<TypeFault>>
    ensures { Runs core_in result state.new (rule.for_test (option_map (λ t. expression_of t.value)
        test.now) (state_of state.old)) }
{
    match test {
        None => core_or_memory(Core::constant(alloc, INT, 1)),
        Some(test) => condition(alloc, test, state),
    }
}

/// The step of a `for`.
#[tactic(auto, unfolding(c_types_spec::specs::Statements::for_step))]
fn for_step<'a>(
    alloc: Global,
    step: &Option<Box<Simple<'a>>>,
    context: Context<'_>,
    state: &mut State<'a>,
) -> Result<Box<Action<'a>>, Refusal<TypeFault>>
    ensures { Runs action_in result state.new (rule.for_step (option_map (λ s. simple_of s.value)
        step.now) (context_of context.entry) (state_of state.old)) }
{
    match step {
        None => skip(alloc),
        Some(given) => simple(alloc, given, context, state),
    }
}

/// A group in memory of its own.
#[tactic(auto, using(c_types_core::proofs::ActionViews::action_views))]
fn boxed_group<'a>(
    alloc: Global,
    labels: Vec<Option<i128>>,
    body: Box<Action<'a>>,
) -> Result<Box<CoreGroup<'a>>, Refusal<TypeFault>>
    ensures { Gives (λ g. core_group_of g.value) result (Ok (
      labels.items,
      action_in
          body.entry,
    )) }
{
    match Box::new(alloc, CoreGroup { labels, body }) {
        Ok(group) => Ok(group),
        Err(_) => Err(Refusal::NoMemory),
    }
}

/// One more group, after the others.
fn push_group<'a>(
    done: &mut Vec<CoreGroup<'a>>,
    made: Box<CoreGroup<'a>>,
) -> Result<(), Refusal<TypeFault>>
    ensures { Gives (λ _. map core_group_of done.new.items) result (Ok (map core_group_of
        done.old.items ++ core_group_of made.entry.value ∷ [])) }
{
    attempt!(push(done, Box::into_inner(made)));
    Ok(())
}

/// No group comes after those before a place.
#[tactic(auto, using(crate::proofs::SwitchGroups::last))]
fn is_last(list: &[Box<Group<'_>>], next: usize) -> bool
    ensures { result ≡ rule.is_end (groups_of (map group_of (unboxed (drop next list.now)))) }
{
    if next < list.len() { false } else { true }
}

/// Control may not go on after a group, unless it is the last.
#[tactic(auto, unfolding(crate::specs::Groups::ended), using(crate::proofs::SwitchGroups::by_parts))]
fn ended(given: &Group<'_>, is_last: bool) -> Result<(), Refusal<TypeFault>>
    ensures { Gives nothing result (specs.ended (group_of given.now) is_last) }
{
    if is_last || ends(given.parts.as_slice(), false) {
        Ok(())
    } else {
        let offset = first_offset(given.labels.as_slice());
        Err(Refusal::Fault(TypeFault::At(TypeFaultKind::Fallthrough, offset)))
    }
}

/// A statement in a block of its own.
#[cycle(statements)]
fn body<'a>(
    alloc: Global,
    x: &Statement<'a>,
    context: Context<'_>,
    state: &mut State<'a>,
) -> Result<Box<Action<'a>>, Refusal<TypeFault>>
    ensures { Runs action_in result state.new (names.block (rule.statement (statement_of x.now)
        (context_of context.entry)) (state_of state.old)) }
{
    attempt!(state.open());
    let action = attempt!(statement(alloc, x, context, state));
    state.close();
    Ok(action)
}

/// A block.
#[cycle(statements)]
#[tactic(auto, unfolding(c_types_spec::specs::Statements::statement))]
fn block<'a>(
    alloc: Global,
    list: &[Part<'a>],
    offset: usize,
    context: Context<'_>,
    state: &mut State<'a>,
) -> Result<Box<Action<'a>>, Refusal<TypeFault>>
    ensures { Runs action_in result state.new (rule.statement (tree.Block (parts_of (map part_of
        list.now)) offset) (context_of context.entry) (state_of state.old)) }
{
    attempt!(state.open());
    let mut done = Vec::new(alloc);
    attempt!(parts(alloc, list, context, &mut done, state));
    state.close();
    action_or_memory(Action::block(alloc, done))
}

/// One more part of a block, after what those so far do.
#[cycle(statements)]
#[tactic(auto, unfolding(crate::specs::Groups::one_part), using(c_syntax::proofs::StatementViews::statement_views))]
fn one_part<'a>(
    alloc: Global,
    part: &Part<'a>,
    context: Context<'_>,
    done: &mut Vec<Action<'a>>,
    state: &mut State<'a>,
) -> Result<(), Refusal<TypeFault>>
    ensures { Runs (λ _. actions_in done.new) result state.new (specs.one_part (part_of part.now)
        (context_of context.entry) (actions_in done.old) (state_of state.old)) }
{
    match part {
        Part::Locals(locals) => declaration(alloc, locals, done, state),
        Part::Statement(x) => {
            let action = attempt!(statement(alloc, x, context, state));
            push_action(done, action)
        }
    }
}

/// The parts of a block, after what those so far do.
#[cycle(statements)]
#[tactic(auto, using(crate::proofs::Lists::rows))]
pub fn parts<'a>(
    alloc: Global,
    list: &[Part<'a>],
    context: Context<'_>,
    done: &mut Vec<Action<'a>>,
    state: &mut State<'a>,
) -> Result<(), Refusal<TypeFault>>
    ensures { Runs (λ _. core.sequence (actions_in done.new)) result state.new (rule.parts (parts_of
        (map part_of list.now)) (context_of context.entry) (actions_in done.old) (state_of
        state.old)) }
{
    for part in list {
        match one_part(alloc, part, context, done, state) {
            Ok(()) => {}
            Err(fault) => return Err(fault),
        }
    }
    Ok(())
}

/// `if (test) body`
#[cycle(statements)]
#[tactic(auto, unfolding(c_types_spec::specs::Statements::statement))]
fn if_only<'a>(
    alloc: Global,
    first: &Statement<'a>,
    test: &Expression<'a>,
    offset: usize,
    context: Context<'_>,
    state: &mut State<'a>,
) -> Result<Box<Action<'a>>, Refusal<TypeFault>>
    ensures { Runs action_in result state.new (rule.statement (tree.If (expression_of test.now)
        (statement_of first.now) offset) (context_of context.entry) (state_of state.old)) }
{
    attempt!(state.open());
    let c = attempt!(condition(alloc, test, state));
    let action = attempt!(body(alloc, first, context, state));
    state.close();
    let other = attempt!(skip(alloc));
    action_or_memory(Action::if_else(alloc, c, action, other))
}

/// `if (test) body else otherwise`
#[cycle(statements)]
#[tactic(auto, unfolding(c_types_spec::specs::Statements::statement), using(c_syntax::proofs::StatementViews::statement_views))]
fn if_else<'a>(
    alloc: Global,
    x: &Statement<'a>,
    context: Context<'_>,
    state: &mut State<'a>,
) -> Result<Box<Action<'a>>, Refusal<TypeFault>>
    requires { IsIfElse x.now }
    ensures { Runs action_in result state.new (rule.statement (statement_of x.now) (context_of
        context.entry) (state_of state.old)) }
{
    match x {
        Statement::IfElse(test, first, second, _) => {
            attempt!(state.open());
            let c = attempt!(condition(alloc, test, state));
            let action = attempt!(body(alloc, first, context, state));
            let other = attempt!(body(alloc, second, context, state));
            state.close();
            action_or_memory(Action::if_else(alloc, c, action, other))
        }
        _ => unreachable!(),
    }
}

/// `while (test) body`
#[cycle(statements)]
#[tactic(auto, unfolding(c_types_spec::specs::Statements::statement))]
fn while_loop<'a>(
    alloc: Global,
    inner: &Statement<'a>,
    test: &Expression<'a>,
    offset: usize,
    context: Context<'_>,
    state: &mut State<'a>,
) -> Result<Box<Action<'a>>, Refusal<TypeFault>>
    ensures { Runs action_in result state.new (rule.statement (tree.While (expression_of test.now)
        (statement_of inner.now) offset) (context_of context.entry) (state_of state.old)) }
{
    attempt!(state.open());
    let number = attempt!(state.new_loop(), Refusal::NoMemory);
    let c = attempt!(condition(alloc, test, state));
    let action = attempt!(body(alloc, inner, looping(context), state));
    state.close();
    let step = attempt!(skip(alloc));
    action_or_memory(Action::repeat(alloc, number, TestPlace::Before, c, step, action))
}

/// `do body while (test);`
#[cycle(statements)]
#[tactic(auto, unfolding(c_types_spec::specs::Statements::statement))]
fn do_loop<'a>(
    alloc: Global,
    inner: &Statement<'a>,
    test: &Expression<'a>,
    offset: usize,
    context: Context<'_>,
    state: &mut State<'a>,
) -> Result<Box<Action<'a>>, Refusal<TypeFault>>
    ensures { Runs action_in result state.new (rule.statement (tree.Do (statement_of inner.now)
        (expression_of test.now) offset) (context_of context.entry) (state_of state.old)) }
{
    attempt!(state.open());
    let number = attempt!(state.new_loop(), Refusal::NoMemory);
    let action = attempt!(body(alloc, inner, looping(context), state));
    let c = attempt!(condition(alloc, test, state));
    state.close();
    let step = attempt!(skip(alloc));
    action_or_memory(Action::repeat(alloc, number, TestPlace::After, c, step, action))
}

/// `for (start; test; step) body`
#[cycle(statements)]
#[tactic(auto, unfolding(c_types_spec::specs::Statements::statement))]
fn for_loop<'a>(
    alloc: Global,
    inner: &Statement<'a>,
    start: &ForStart<'a>,
    test: &Option<Box<Expression<'a>>>,
    step: &Option<Box<Simple<'a>>>,
    offset: usize,
    context: Context<'_>,
    state: &mut State<'a>,
) -> Result<Box<Action<'a>>, Refusal<TypeFault>>
    ensures { Runs action_in result state.new (rule.statement (tree.For (start_of start.now)
        (option_map (λ t. expression_of t.value) test.now) (option_map (λ s. simple_of s.value)
        step.now) (statement_of inner.now) offset) (context_of context.entry) (state_of
        state.old)) }
{
    attempt!(state.open());
    let number = attempt!(state.new_loop(), Refusal::NoMemory);
    let first = attempt!(for_start(alloc, start, context, state));
    let c = attempt!(for_test(alloc, test, state));
    let last = attempt!(for_step(alloc, step, context, state));
    let action = attempt!(body(alloc, inner, looping(context), state));
    state.close();
    let repeated = attempt!(action_or_memory(Action::repeat(
        alloc,
        number,
        TestPlace::Before,
        c,
        last,
        action,
    )));
    both(alloc, first, repeated)
}

/// `switch (test) { .. }`
#[cycle(statements)]
#[tactic(auto, unfolding(c_types_spec::specs::Statements::statement))]
fn switch<'a>(
    alloc: Global,
    list: &[Box<Group<'a>>],
    test: &Expression<'a>,
    offset: usize,
    context: Context<'_>,
    state: &mut State<'a>,
) -> Result<Box<Action<'a>>, Refusal<TypeFault>>
    ensures { Runs action_in result state.new (rule.statement (tree.Switch (expression_of test.now)
        (groups_of (map group_of (unboxed list.now))) offset) (context_of context.entry) (state_of
        state.old)) }
{
    attempt!(state.open());
    let v = attempt!(value(alloc, test, state));
    let (core, of) = attempt!(switch_test(alloc, v));
    let mut seen = IndexSet::new(alloc);
    let mut done = Vec::new(alloc);
    attempt!(groups(
        alloc,
        list,
        switching(context),
        of,
        &mut seen,
        &mut done,
        state
    ));
    state.close();
    action_or_memory(Action::switch(alloc, core, done))
}

/// A group of a `switch`, whose labels are added to those of the groups before.
#[cycle(statements)]
#[tactic(auto, unfolding(crate::specs::Groups::group), using(crate::proofs::SwitchGroups::by_parts))]
fn group<'a>(
    alloc: Global,
    given: &Group<'a>,
    context: Context<'_>,
    of: Scalar,
    seen: &mut IndexSet<Option<i128>>,
    state: &mut State<'a>,
) -> Result<Box<CoreGroup<'a>>, Refusal<TypeFault>>
    ensures given { Runs (λ g. core_group_of g.value) result state.new (specs.group (group_of
        given.now) (context_of context.entry) of seen.old.keys (state_of state.old)) }
    ensures kept { IfOk result (λ g. seen.new.keys ≡ seen.old.keys ++ (core_group_of g.value).0) }
{
    attempt!(state.open());
    let values = attempt!(labels(alloc, given.labels.as_slice(), of, seen, state));
    let mut done = Vec::new(alloc);
    attempt!(parts(alloc, given.parts.as_slice(), context, &mut done, state));
    state.close_hidden();
    let body = attempt!(action_or_memory(Action::block(alloc, done)));
    boxed_group(alloc, values, body)
}

/// One more group of a `switch`, after those so far, whose labels are `seen`.
#[cycle(statements)]
#[tactic(auto, unfolding(crate::specs::Groups::one_group))]
fn one_group<'a>(
    alloc: Global,
    given: &Group<'a>,
    is_last: bool,
    context: Context<'_>,
    of: Scalar,
    seen: &mut IndexSet<Option<i128>>,
    done: &mut Vec<CoreGroup<'a>>,
    state: &mut State<'a>,
) -> Result<(), Refusal<TypeFault>>
    ensures { Runs (λ _. so_far seen.new.keys done.new) result state.new (specs.one_group (group_of
        given.now) is_last (context_of context.entry) of (so_far seen.old.keys done.old)
        (state_of state.old)) }
{
    let made = attempt!(group(alloc, given, context, of, seen, state));
    attempt!(ended(given, is_last));
    attempt!(push_group(done, made));
    Ok(())
}

/// The groups of a `switch`, after those so far, whose labels are `seen`.
#[cycle(statements)]
#[tactic(auto, using(crate::proofs::SwitchGroups::rows))]
fn groups<'a>(
    alloc: Global,
    list: &[Box<Group<'a>>],
    context: Context<'_>,
    of: Scalar,
    seen: &mut IndexSet<Option<i128>>,
    done: &mut Vec<CoreGroup<'a>>,
    state: &mut State<'a>,
) -> Result<(), Refusal<TypeFault>>
    ensures { Runs (λ _. rule.groups_in (map core_group_of done.new.items)) result state.new
        (rule.switch_groups (groups_of (map group_of (unboxed list.now))) (context_of context.entry)
        of seen.old.keys (map core_group_of done.old.items) (state_of state.old)) }
{
    for i in 0..list.len() {
        let last = is_last(list, i + 1);
        match one_group(alloc, &list[i], last, context, of, seen, done, state) {
            Ok(()) => {}
            Err(fault) => return Err(fault),
        }
    }
    Ok(())
}

/// A statement.
#[cycle(statements)]
#[tactic(auto, using(c_syntax::proofs::StatementViews::statement_views))]
pub fn statement<'a>(
    alloc: Global,
    x: &Statement<'a>,
    context: Context<'_>,
    state: &mut State<'a>,
) -> Result<Box<Action<'a>>, Refusal<TypeFault>>
    ensures { Runs action_in result state.new (rule.statement (statement_of x.now) (context_of
        context.entry) (state_of state.old)) }
{
    match x {
        Statement::Block(list, offset) => { block(alloc, list.as_slice(), *offset, context, state) }
        Statement::If(test, first, offset) => {
            if_only(alloc, first, test, *offset, context, state)
        }
        Statement::IfElse(_, _, _, _) => if_else(alloc, x, context, state),
        Statement::While(test, inner, offset) => {
            while_loop(alloc, inner, test, *offset, context, state)
        }
        Statement::Do(inner, test, offset) => {
            do_loop(alloc, inner, test, *offset, context, state)
        }
        Statement::For(start, test, step, inner, offset) => {
            for_loop(alloc, inner, start, test, step, *offset, context, state)
        }
        Statement::Switch(test, list, offset) => {
            switch(alloc, list.as_slice(), test, *offset, context, state)
        }
        Statement::Empty(_)
        | Statement::Perform(_)
        | Statement::Break(_)
        | Statement::Continue(_)
        | Statement::Return(_, _) => plain(alloc, x, context, state),
    }
}
