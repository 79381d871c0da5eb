//! The laws of the entry: each function's clause is one law, and its body is empty.

ghost use Rattle.agreement_laws.specs.Callers.{CalleesAreRight};
ghost use Rattle.agreement_laws.specs.Statements.{EntriesAgree, EntryOpens, OneStack};
ghost use Rattle.agreement_laws.specs.Statements.{SimulatedIsInner, SimulatedIsValid};
ghost use Rattle.agreement_laws.specs.Statements.{SimulationAgrees};

/// From two states at the entry of a function, one of its code's graphs and one of its C graphs,
/// that are like a machine that is called by the convention and the call in C: where the frame at
/// the entry is simulated and the C run breaks no guard, the machine never traps and keeps the
/// fixed bytes, it returns exactly if the C run returns, and then it gives the result, the memory
/// outside the dead stack and the kept registers. Calls on either side run the callees' graphs.
pub fn entries_agree()
    ensures { EntriesAgree }
{}

/// Where the frame at the entry of a function is simulated, its code does what its source says, for
/// every machine that is called by the convention and every values of its parameters' types.
pub fn simulation_gives_agreement()
    ensures { SimulationAgrees }
{}

/// A function takes one number of bytes of stack at most.
pub fn a_function_has_one_stack()
    ensures { OneStack }
{}

/// Where the frame at the entry is simulated, and the file has one function of the name there,
/// which takes this much stack, the function is valid.
pub fn a_simulated_function_is_valid()
    ensures { SimulatedIsValid }
{}

/// The terms of the opening at the entry are well sorted, and two states of which its facts are
/// known have their values: what the rules of a proof ask of the frame that starts there.
pub fn the_entry_opens()
    ensures { EntryOpens }
{}

/// Where the frame at the entry is simulated, wherever the function's own stack is, it is
/// simulated in each wider zone without fixed bytes that is barred in a caller, and the bytes of
/// that zone are kept beside the function's own stack.
pub fn a_simulated_function_serves_its_callers()
    ensures { SimulatedIsInner }
{}

/// Where the frame at the entry is simulated, the function is right as the callee of every call
/// of it in another function of the executable and the unit: what the rule Call asks of it beside
/// its two obligations.
pub fn a_simulated_function_is_a_right_callee()
    ensures { CalleesAreRight }
{}
