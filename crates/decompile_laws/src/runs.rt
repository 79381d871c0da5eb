//! The law that the machine and the graphs of its code step together.
//!
//! `specs/Together.antt` says how a machine corresponds to a run of graphs; the graphs are those of
//! `decompile_spec`, their runs those of `graph_core_spec`, the machine that of `rv_machine_spec`.
//! Nothing of the crate runs: each function's clause is one law, and its body is empty.

ghost use Rattle.decompile_laws.specs.Together.{StepsTogether, ReturnsTogether};
ghost use Rattle.decompile_laws.specs.Together.{InstructionsAreCounted};

/// From every machine at the entry of a function that holds the fixed bytes, and a run of the
/// function's graph whose variables are like it: however many steps the machine goes, the run of
/// the graphs comes to correspond to it, and however many steps the graphs go, the machine
/// corresponds to them, until the graphs have failed or returned. A call runs the callee's graph.
pub fn machine_and_graphs_step_together()
    ensures { StepsTogether }
{}

/// Where the return address is a multiple of 4 outside of every function that is reached, the
/// machine comes to it exactly where the graphs return, with the same registers and memory, unless
/// the graphs fail; and after every number of steps the machine is there and holds the fixed bytes,
/// so where it traps the graphs fail.
pub fn machine_and_graphs_return_together()
    ensures { ReturnsTogether }
{}

/// Where the graphs return, the machine has come home by as many instructions as the run has passed
/// nodes at which an instruction begins.
pub fn instructions_are_counted()
    ensures { InstructionsAreCounted }
{}
