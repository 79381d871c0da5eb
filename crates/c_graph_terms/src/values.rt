//! What is known of a value, and what it is evaluated in.

use c_run_value::setting;
use std::alloc::Global;
use term_bank::TermId;

/// The terms of a value.
#[derive(Clone, Copy)]
pub struct ValueIds {
    /// The word of the value, of the width of its type.
    pub word: TermId,
    /// Whether it is not 0.
    pub truth: TermId,
}

/// The terms of two values.
#[derive(Clone, Copy)]
pub struct Operands {
    /// Those of the first.
    pub first: ValueIds,
    /// Those of the second.
    pub second: ValueIds,
}

/// An object in memory: so many bytes past an address.
#[derive(Clone, Copy)]
pub struct Object {
    /// The address.
    pub base: TermId,
    /// How many bytes past it.
    pub displacement: usize,
}

/// What an expression is evaluated in.
#[derive(Clone, Copy)]
pub struct Scene<'a> {
    /// The allocator.
    pub alloc: Global,
    /// The globals; of two with one name the first counts.
    pub globals: &'a [setting::Global<'a>],
    /// The object that the assignment around the expression stores to.
    pub target: Object,
}
