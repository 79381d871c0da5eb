//! The state in which a unit is read.

ghost use Rattle.std.specs.Prelude.{◌≡◌, ◌+◌, ◌^◌, ◌≤◌, ◌++◌, ◌∷◌, [], Ok, MatchResult, option_map};
ghost use Rattle.c_token_spec.specs.Words.{entry_of};
ghost use Rattle.c_types_spec.specs.Names as rule;
ghost use Rattle.c_types_layout.specs.Structs.{definition_of, structs_of};
ghost use Rattle.c_types_layout.specs.Types.{type_of};
ghost use Rattle.c_types_scope.specs.Meanings.{meaning_of, tag_of, seen_meaning, seen_tag};
ghost use Rattle.c_types_scope.specs.States.{state_of, nothing, Runs};

use crate::meaning::{Meaning, Tag};
use crate::scopes::Scopes;
use attempt::{Refusal, attempt};
use c_types_core::counts::sum;
use c_types_core::fault::TypeFault;
use c_types_layout::structs::Definition;
use c_types_layout::types::CType;
use std::alloc::{AllocError, Global};

/// The state in which a unit is read.
#[derive(Drop)]
pub struct State<'a> {
    /// What names mean that are no tags, labels or members.
    pub names: Scopes<'a, Meaning>,
    /// What tags mean.
    pub tags: Scopes<'a, Tag>,
    /// The structs by their numbers.
    pub structs: Vec<Definition<'a>>,
    /// The types of the locals of the function that is read, by their numbers.
    pub locals: Vec<CType>,
    /// The types of further locals for results of calls.
    pub results: Vec<CType>,
    /// How many loops the function has had so far.
    pub loops: usize,
    /// How many calls it has had.
    pub calls: usize,
    /// The globals that its body has named so far, as often as it has named them.
    pub mentions: Vec<&'a [u8]>,
}

/// Out of memory, where there is no memory for a part of the state.
fn or_memory(made: Result<(), AllocError>) -> Result<(), Refusal<TypeFault>>
    ensures { MatchResult result (λ x. made ≡ Ok x) (λ e. e ≡ Refusal.NoMemory) }
{
    match made {
        Ok(()) => Ok(()),
        Err(_) => Err(Refusal::NoMemory),
    }
}

/// One more item of a list.
pub fn push<T: Drop>(list: &mut Vec<T>, item: T) -> Result<(), Refusal<TypeFault>>
    ensures { MatchResult result (λ _. list.new.items ≡ list.old.items ++ item ∷ []) (λ e. e
        ≡ Refusal.NoMemory) }
{
    match list.push(item) {
        Ok(()) => Ok(()),
        Err(_) => Err(Refusal::NoMemory),
    }
}

/// What a tag means, apart from the table that has it.
fn copied(found: Option<Option<&Tag>>) -> Option<Option<Tag>>
    ensures { result ≡ option_map (λ m. option_map (λ x. x.now) m) found.entry }
{
    match found {
        Some(Some(tag)) => Some(Some(*tag)),
        Some(None) => Some(None),
        None => None,
    }
}

#[tactic(auto, unfolding(crate::specs::States::state_of), using(crate::proofs::Views::views))]
impl<'a> State<'a> {
    /// Nothing is read so far.
    pub fn new(alloc: Global) -> State<'a>
        ensures { state_of result ≡ rule.start }
    {
        State {
            names: Scopes::new(alloc),
            tags: Scopes::new(alloc),
            structs: Vec::new(alloc),
            locals: Vec::new(alloc),
            results: Vec::new(alloc),
            loops: 0,
            calls: 0,
            mentions: Vec::new(alloc),
        }
    }

    /// What a name means: `Some(None)` where it is hidden, none where it is not declared.
    pub fn meaning(&self, name: &[u8]) -> Option<Option<&Meaning>>
        ensures { option_map (λ m. seen_meaning (option_map (λ x. x.now) m)) result ≡ rule.in_scope
            (state_of self.now).names name.now }
    {
        self.names.find(name)
    }

    /// What the innermost scope says of a name.
    pub fn innermost_meaning(&self, name: &[u8]) -> Option<Option<&Meaning>>
        ensures { option_map (λ m. seen_meaning (option_map (λ x. x.now) m)) result
            ≡ rule.in_innermost (state_of self.now).names name.now }
    {
        self.names.find_innermost(name)
    }

    /// What the file scope says of a name.
    pub fn meaning_in_file(&self, name: &[u8]) -> Option<Option<&Meaning>>
        ensures { option_map (λ m. seen_meaning (option_map (λ x. x.now) m)) result ≡ entry_of
            (state_of self.now).names.file name.now }
    {
        self.names.find_in_file(name)
    }

    /// What a tag means: `Some(None)` where it is hidden, none where it is not declared.
    pub fn tag(&self, tag: &[u8]) -> Option<Option<Tag>>
        ensures { option_map seen_tag result ≡ rule.in_scope (state_of self.now).tags tag.now }
    {
        copied(self.tags.find(tag))
    }

    /// What the innermost scope says of a tag.
    pub fn innermost_tag(&self, tag: &[u8]) -> Option<Option<Tag>>
        ensures { option_map seen_tag result ≡ rule.in_innermost (state_of self.now).tags tag.now }
    {
        copied(self.tags.find_innermost(tag))
    }

    /// The structs by their numbers.
    pub fn structs(&self) -> &[Definition<'a>]
        ensures { structs_of result.now ≡ (state_of self.now).structs }
    {
        self.structs.as_slice()
    }

    /// Declares a name in the innermost scope.
    pub fn declare(&mut self, name: &'a [u8], meaning: Meaning) -> Result<(), Refusal<TypeFault>>
        ensures { Runs nothing result self.new (rule.declare name.now (meaning_of meaning)
            (state_of self.old)) }
    {
        match self.names.declare(name, meaning) {
            Ok(()) => Ok(()),
            Err(_) => Err(Refusal::NoMemory),
        }
    }

    /// Declares a name in the file scope.
    pub fn declare_in_file(
        &mut self,
        name: &'a [u8],
        meaning: Meaning,
    ) -> Result<(), Refusal<TypeFault>>
        ensures { Runs nothing result self.new (rule.change (λ st. record st {
          names = rule.declared_in_file name.now (meaning_of meaning) st.names;
        }) (state_of
            self.old)) }
    {
        match self.names.declare_in_file(name, meaning) {
            Ok(()) => Ok(()),
            Err(_) => Err(Refusal::NoMemory),
        }
    }

    /// Declares a tag in the innermost scope.
    pub fn declare_tag(&mut self, tag: &'a [u8], meaning: Tag) -> Result<(), Refusal<TypeFault>>
        ensures { Runs nothing result self.new (rule.declare_tag tag.now (tag_of meaning)
            (state_of self.old)) }
    {
        match self.tags.declare(tag, meaning) {
            Ok(()) => Ok(()),
            Err(_) => Err(Refusal::NoMemory),
        }
    }

    /// Opens a block.
    pub fn open(&mut self) -> Result<(), Refusal<TypeFault>>
        ensures { Runs nothing result self.new (rule.change rule.open_block (state_of self.old)) }
    {
        or_memory(self.names.open())?;
        or_memory(self.tags.open())?;
        Ok(())
    }

    /// Closes the innermost block.
    pub fn close(&mut self)
        ensures { state_of self.new ≡ rule.close_block (state_of self.old) }
    {
        self.names.close();
        self.tags.close();
    }

    /// Closes the innermost block, and hides its names until the block around it is closed.
    pub fn close_hidden(&mut self)
        ensures { state_of self.new ≡ rule.hide_block (state_of self.old) }
    {
        self.names.close_hidden();
        self.tags.close_hidden();
    }

    /// One more struct, and its number.
    pub fn new_struct(&mut self, definition: Definition<'a>) -> Result<usize, Refusal<TypeFault>>
        ensures { Runs (λ n. n) result self.new (rule.new_struct (definition_of definition.entry)
            (state_of self.old)) }
    {
        let number = self.structs.len();
        attempt!(push(&mut self.structs, definition));
        Ok(number)
    }

    /// Defines the struct of a number.
    pub fn define_struct(&mut self, number: usize, definition: Definition<'a>)
        ensures { rule.define_struct number (definition_of definition.entry) (state_of self.old)
            ≡ Ok (tt, state_of self.new) }
    {
        if number < self.structs.len() {
            self.structs[number] = definition;
        }
    }

    /// One more local, and its number.
    pub fn new_local(&mut self, of: CType) -> Result<usize, Refusal<TypeFault>>
        ensures { Runs (λ n. n) result self.new (rule.new_local (type_of of) (state_of self.old)) }
    {
        let number = self.locals.len();
        attempt!(push(&mut self.locals, of));
        Ok(number)
    }

    /// One more local for the result of a call, and its number among these.
    pub fn new_result(&mut self, of: CType) -> Result<usize, Refusal<TypeFault>>
        ensures { Runs (λ n. n) result self.new (rule.new_result (type_of of) (state_of self.old)) }
    {
        let number = self.results.len();
        attempt!(push(&mut self.results, of));
        Ok(number)
    }

    /// One more loop, and its number; out of memory exactly where no `usize` counts them.
    pub fn new_loop(&mut self) -> Result<usize, AllocError>
        ensures { MatchResult result (λ n. rule.new_loop (state_of self.old)
            ≡ Ok (n, state_of self.new)) (λ _. 2 ^ 64 ≤ self.old.loops + 1) }
    {
        let number = self.loops;
        self.loops = attempt!(sum(number, 1));
        Ok(number)
    }

    /// One more call, and its number; out of memory exactly where no `usize` counts them.
    pub fn new_call(&mut self) -> Result<usize, AllocError>
        ensures { MatchResult result (λ n. rule.new_call (state_of self.old)
            ≡ Ok (n, state_of self.new)) (λ _. 2 ^ 64 ≤ self.old.calls + 1) }
    {
        let number = self.calls;
        self.calls = attempt!(sum(number, 1));
        Ok(number)
    }

    /// One more global that is named.
    pub fn mention(&mut self, name: &'a [u8]) -> Result<(), Refusal<TypeFault>>
        ensures { Runs nothing result self.new (rule.mention name.now (state_of self.old)) }
    {
        push(&mut self.mentions, name)
    }

    /// A body is read next.
    pub fn start_body(&mut self)
        ensures { state_of self.new ≡ rule.start_body (state_of self.old) }
    {
        self.mentions.clear();
    }

    /// A function is read next.
    pub fn start_function(&mut self)
        ensures { state_of self.new ≡ rule.start_function (state_of self.old) }
    {
        self.locals.clear();
        self.results.clear();
        self.loops = 0;
        self.calls = 0;
    }
}
