//! What the frame at a function's entry is made of.

ghost use Rattle.std.specs.Prelude.{IfOk};
ghost use Rattle.c_types.specs.Typed.{body_of_name};
ghost use Rattle.agreement_laws.specs.EntryFrame.{Pair};
ghost use Rattle.validity_laws.specs.Derivation.{Function};
ghost use Rattle.cert_check_frames.specs.Entries.{IsConventionFor, IsEntryOf, IsOf};

use crate::facts::Facts;
use crate::scope::setting_for;
use attempt::attempt;
use c_types::typed::Body;
use cert_check_relations::{Relations, STACK_POINTER, at_entry, zone_from};
use memory_spec::Run;
use proof_tree::Setting;
use sim_rules_terms::Convention;
use std::alloc::{AllocError, Global};

/// The numbers of a function.
#[derive(Clone, Copy)]
pub struct Numbers {
    /// Of its code's graph: the index of its entry among those that are reached.
    pub code: usize,
    /// Of its source's graph: the index of its body in the unit.
    pub body: usize,
    /// Of the node at which its code's graph begins.
    pub first: usize,
}

/// What the file has.
#[derive(Clone, Copy)]
pub struct File<'a> {
    /// Its global pointer.
    pub pointer: Option<u32>,
    /// The runs of its fixed bytes, by address.
    pub runs: &'a [Run],
}

/// What the frame at a function's entry is made of.
#[derive(Drop)]
pub struct Entry<'a> {
    /// Its name.
    pub name: &'a [u8],
    /// How much stack its code takes, in bytes.
    pub stack: u32,
    /// Its numbers.
    pub numbers: Numbers,
    /// What its variables are.
    pub setting: Setting,
    /// What holds at its entry, and where it returns.
    pub relations: Relations,
    /// The terms of its variables.
    pub facts: Facts,
}

impl<'a> Entry<'a> {
    /// Of the body of this name, and of code that takes so much stack, in such a file.
    pub fn new(
        alloc: Global,
        name: &'a [u8],
        body: &Body<'_>,
        stack: u32,
        numbers: Numbers,
        file: File<'_>,
    ) -> Result<Self, AllocError>
        ensures { (q : Pair) (g : Function)
            → IsOf q g (body_of_name name.now body.now) stack numbers file.entry
            → IfOk result (IsEntryOf q g) }
    {
        let parameters = body.signature.parameters.as_slice();
        let locals = body.locals.as_slice();
        let setting = attempt!(setting_for(alloc, parameters, locals));
        let returned = body.signature.returned;
        let relations = attempt!(Relations::new(alloc, stack, file.pointer, file.runs, returned));
        let facts = attempt!(Facts::new(alloc, stack, parameters, locals));
        Ok(Entry {
            name,
            stack,
            numbers,
            setting,
            relations,
            facts,
        })
    }

    /// What holds where the function returns, and where its memories may differ.
    pub fn convention(&self, alloc: Global) -> Result<Convention<'_>, AllocError>
        ensures { (q : Pair) (g : Function) → IsEntryOf q g self.now
            → IfOk result (IsConventionFor q g) }
    {
        let from = attempt!(zone_from(alloc, self.stack));
        let to = attempt!(at_entry(alloc, STACK_POINTER));
        Convention::new(alloc, &from, &to, self.relations.returns.as_slice())
    }
}
