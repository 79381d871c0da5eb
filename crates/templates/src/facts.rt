//! What is known of a function at a point.

use c_types_spec::Scalar;
use term_core_spec::Variable;

/// A parameter or a local.
#[derive(Clone, Copy)]
pub struct Known {
    /// Its variable.
    pub variable: Variable,
    /// Its type.
    pub scalar: Scalar,
}

/// What is known of a function at a point.
#[derive(Drop)]
pub struct Facts {
    /// By how many bytes the stack pointer may be below where it was at entry, outermost first.
    pub depths: Vec<u32>,
    /// At which offsets from it, or from the frame pointer, words are saved.
    pub saved: Vec<i32>,
    /// How many bytes of stack there are.
    pub stack: u32,
    /// The numbers of the registers whose value at entry is known.
    pub entries: Vec<u32>,
    /// The parameters.
    pub parameters: Vec<Known>,
    /// The addresses of the globals that are reached.
    pub globals: Vec<u32>,
    /// The locals in scope.
    pub locals: Vec<Known>,
    /// The locals that the tests of loops compare.
    pub compared: Vec<(Known, Known)>,
}
