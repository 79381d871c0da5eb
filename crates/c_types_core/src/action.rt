//! What statements do, in the typed core.

ghost use Rattle.std.specs.Prelude.{◌≡◌, IfOk};
ghost use Rattle.c_types_spec.specs.Core as tree;
ghost use Rattle.c_types_core.specs.Expressions.{core_of};
ghost use Rattle.c_types_core.specs.Actions.{action_of, actions_in, groups_in, cores_in, core_in};

use crate::expression::{Core, boxed};
use c_types_spec::{Jump, Scalar, TestPlace};
use std::alloc::{AllocError, Global};

/// What a statement does. An empty `Block` does nothing.
#[derive(Drop)]
#[cycle(actions)]
pub enum Action<'a> {
    /// One after the other.
    Block(Vec<Action<'a>>),
    /// A value that is dropped.
    Evaluate(Box<Core<'a>>),
    /// A value for a local.
    Set(usize, Box<Core<'a>>),
    /// A declaration without initial value.
    Unset(usize),
    /// A value for the object so many bytes past an address.
    Store(Scalar, Box<Core<'a>>, usize, Box<Core<'a>>, usize),
    /// The call of this number, and the local that gets its value.
    Call(usize, &'a [u8], Vec<Box<Core<'a>>>, Option<usize>),
    /// One of two, by a test.
    If(Box<Core<'a>>, Box<Action<'a>>, Box<Action<'a>>),
    /// The loop of this number.
    Loop(usize, TestPlace, Box<Core<'a>>, Box<Action<'a>>, Box<Action<'a>>),
    /// `break` or `continue`
    Leave(Jump),
    /// One of several groups, by a value.
    Switch(Box<Core<'a>>, Vec<Group<'a>>),
    /// The end of the call.
    Return(Option<Box<Core<'a>>>),
    /// The end of a function that owes a value.
    MissingReturn(usize),
}

/// A group of a `switch`: its values, none being `default`, and what it does.
#[derive(Drop)]
#[cycle(actions)]
pub struct Group<'a> {
    /// Its values in order.
    pub labels: Vec<Option<i128>>,
    /// What it does.
    pub body: Box<Action<'a>>,
}

#[tactic(auto, using(crate::proofs::ActionViews::action_views))]
impl<'a> Action<'a> {
    /// One after the other.
    pub fn block(alloc: Global, actions: Vec<Action<'a>>) -> Result<Box<Action<'a>>, AllocError>
        ensures { IfOk result (λ x. action_of x.value ≡ tree.sequence (actions_in actions.entry)) }
    {
        boxed(alloc, Action::Block(actions))
    }

    /// A value that is dropped.
    pub fn evaluate(alloc: Global, value: Box<Core<'a>>) -> Result<Box<Action<'a>>, AllocError>
        ensures { IfOk result (λ x. action_of x.value ≡ tree.Evaluate (core_of value.entry.value)) }
    {
        boxed(alloc, Action::Evaluate(value))
    }

    /// A value for a local.
    pub fn set(
        alloc: Global,
        local: usize,
        value: Box<Core<'a>>,
    ) -> Result<Box<Action<'a>>, AllocError>
        ensures { IfOk result (λ x. action_of x.value
            ≡ tree.Set local (core_of value.entry.value)) }
    {
        boxed(alloc, Action::Set(local, value))
    }

    /// A declaration without initial value.
    pub fn unset(alloc: Global, local: usize) -> Result<Box<Action<'a>>, AllocError>
        ensures { IfOk result (λ x. action_of x.value ≡ tree.Unset local) }
    {
        boxed(alloc, Action::Unset(local))
    }

    /// A value for the object so many bytes past an address.
    pub fn store(
        alloc: Global,
        of: Scalar,
        address: Box<Core<'a>>,
        displacement: usize,
        value: Box<Core<'a>>,
        offset: usize,
    ) -> Result<Box<Action<'a>>, AllocError>
        ensures { IfOk result (λ x. action_of x.value ≡ tree.Store of (core_of address.entry.value)
            displacement (core_of value.entry.value) offset) }
    {
        boxed(
            alloc,
            Action::Store(of, address, displacement, value, offset),
        )
    }

    /// The call of this number, and the local that gets its value.
    pub fn call(
        alloc: Global,
        number: usize,
        function: &'a [u8],
        arguments: Vec<Box<Core<'a>>>,
        into: Option<usize>,
    ) -> Result<Box<Action<'a>>, AllocError>
        ensures { IfOk result (λ x. action_of x.value ≡ tree.Call number function.now (cores_in
            arguments.entry) into) }
    {
        boxed(alloc, Action::Call(number, function, arguments, into))
    }

    /// One of two, by a test.
    pub fn if_else(
        alloc: Global,
        test: Box<Core<'a>>,
        first: Box<Action<'a>>,
        second: Box<Action<'a>>,
    ) -> Result<Box<Action<'a>>, AllocError>
        ensures { IfOk result (λ x. action_of x.value ≡ tree.If (core_of test.entry.value)
            (action_of first.entry.value) (action_of second.entry.value)) }
    {
        boxed(alloc, Action::If(test, first, second))
    }

    /// The loop of this number.
    pub fn repeat(
        alloc: Global,
        number: usize,
        place: TestPlace,
        test: Box<Core<'a>>,
        step: Box<Action<'a>>,
        body: Box<Action<'a>>,
    ) -> Result<Box<Action<'a>>, AllocError>
        ensures { IfOk result (λ x. action_of x.value ≡ tree.Loop number place (core_of
            test.entry.value) (action_of step.entry.value) (action_of body.entry.value)) }
    {
        boxed(alloc, Action::Loop(number, place, test, step, body))
    }

    /// `break` or `continue`
    pub fn leave(alloc: Global, jump: Jump) -> Result<Box<Action<'a>>, AllocError>
        ensures { IfOk result (λ x. action_of x.value ≡ tree.Leave jump) }
    {
        boxed(alloc, Action::Leave(jump))
    }

    /// One of several groups, by a value.
    pub fn switch(
        alloc: Global,
        test: Box<Core<'a>>,
        groups: Vec<Group<'a>>,
    ) -> Result<Box<Action<'a>>, AllocError>
        ensures { IfOk result (λ x. action_of x.value ≡ tree.Switch (core_of test.entry.value)
            (groups_in groups.entry)) }
    {
        boxed(alloc, Action::Switch(test, groups))
    }

    /// The end of the call.
    pub fn give_back(
        alloc: Global,
        value: Option<Box<Core<'a>>>,
    ) -> Result<Box<Action<'a>>, AllocError>
        ensures { IfOk result (λ x. action_of x.value ≡ tree.Return (core_in value.entry)) }
    {
        boxed(alloc, Action::Return(value))
    }

    /// The end of a function that owes a value.
    pub fn missing_return(alloc: Global, offset: usize) -> Result<Box<Action<'a>>, AllocError>
        ensures { IfOk result (λ x. action_of x.value ≡ tree.MissingReturn offset) }
    {
        boxed(alloc, Action::MissingReturn(offset))
    }
}
