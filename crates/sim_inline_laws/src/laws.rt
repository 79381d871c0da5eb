//! The laws: each function's clause is one law, and its body is empty.

ghost use Rattle.sim_inline_laws.specs.Frames.{BinaryIsSound, SourceIsSound};
ghost use Rattle.sim_inline_laws.specs.Runs.{CalleesRunOn, FixedBytesAreKept, RunsAreKept};

/// From each node of the function at which no function waits: its run fails exactly if the run of
/// the graph with inlined calls does, and returns exactly if that returns, with the same values of
/// the function's variables.
pub fn runs_are_kept()
    ensures { RunsAreKept }
{}

/// Where a memory always holds the fixed bytes in the function's run, it always does in the run of
/// the graph with inlined calls.
pub fn fixed_bytes_are_kept()
    ensures { FixedBytesAreKept }
{}

/// A function of the set runs beside the further graph as it does in the set: at each moment both
/// are in one state, or it has failed in the set and does so beside the graph at the next step.
pub fn callees_run_on()
    ensures { CalleesRunOn }
{}

/// Where a frame is simulated with calls of the binary inlined, the frame of the function is.
pub fn binary_inlining_is_sound()
    ensures { BinaryIsSound }
{}

/// Where a frame is simulated with calls of the source inlined, the frame of the function is.
pub fn source_inlining_is_sound()
    ensures { SourceIsSound }
{}
