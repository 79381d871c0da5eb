//! The laws of proofs: each function's clause is one law, and its body is empty.

ghost use Rattle.validity_laws.specs.Statements.{CodeGraphsAreOwn, FunctionsAgree};
ghost use Rattle.validity_laws.specs.Statements.{FunctionsAreValid};
ghost use Rattle.validity_laws.specs.Statements.{ProofsSimulate, SourceGraphsAreOwn};

/// Where the functions that a proof calls are simulated at their entries, the frame that it
/// proves is simulated, wherever the zone is.
pub fn proofs_simulate()
    ensures { ProofsSimulate }
{}

/// Functions that are proved in order agree with their sources: the code at each entry does what
/// the body does, whenever it is called by the convention and the C run breaks no guard.
pub fn functions_proved_in_order_agree()
    ensures { FunctionsAgree }
{}

/// Functions that are proved in order are valid: of each of the list that the file has at its
/// name, and that takes this much stack, the code agrees with the source.
pub fn functions_proved_in_order_are_valid()
    ensures { FunctionsAreValid }
{}

/// Each graph of code speaks of registers, their values at entry and the binary's memory alone.
pub fn graphs_of_code_speak_of_the_binary()
    ensures { CodeGraphsAreOwn }
{}

/// Each graph of a typed unit speaks of locals, whether they are set, the source's memory, the
/// zone's ends and a result alone.
pub fn graphs_of_units_speak_of_the_source()
    ensures { SourceGraphsAreOwn }
{}
