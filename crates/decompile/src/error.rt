//! Why there is no graph.

ghost use Rattle.std.specs.Prelude.{◌≡◌};
ghost use Rattle.decompile.specs.Errors.{error_of};
ghost use Rattle.attempt.specs.declared.refusal.Refusal.TheVariants.{NoMemory};

use attempt::Refusal;
use code_reach::CodeFault;
use thiserror::Error;

/// Why there is no graph of a function.
#[derive(Clone, Copy, Debug, Error)]
pub enum GraphFault {
    /// The function's code has a fault; this is the first.
    #[error(transparent)]
    Code(CodeFault),
    /// The instruction at `address` calls the function at `callee`, which is not among the entries
    /// given; it is the first such call.
    #[error("{callee}, called at {address}, is not listed")]
    Unlisted { address: u32, callee: u32 },
    /// The graph has more nodes than the maximum: at least this many.
    #[error("at least {0} nodes")]
    Large(usize),
}

/// Why there is no graph, where the code isn't given.
pub(crate) fn without_code(refusal: Refusal<CodeFault>) -> Refusal<GraphFault>
    ensures { result ≡ error_of refusal }
{
    match refusal {
        Refusal::Fault(fault) => Refusal::Fault(GraphFault::Code(fault)),
        Refusal::NoMemory => Refusal::NoMemory,
    }
}
