//! What is decided of the words and the files.

ghost use Rattle.tv_core.specs.Decisions.{IsFromMemory, IsPlain, IsPlainFromMemory, IsPlainly};

use attempt::Refusal;
use prove_run::Trails;
use report_text::Verdict;
use std::alloc::{AllocError, Global};
use tv_base::OutsideFault;

/// The verdict, and what is written and handed out beside its report.
#[derive(Drop)]
pub(crate) struct Decision {
    pub(crate) verdict: Verdict,
    /// The text of the certificate that is written, if one is.
    pub(crate) certificate: Option<Vec<u8>>,
    /// Why functions are unproved; or a certificate that is too large to be written.
    pub(crate) trails: Trails,
}

/// A verdict and nothing else.
pub(crate) fn plain(alloc: Global, verdict: Verdict) -> Decision
    ensures { IsPlain verdict result }
{
    Decision {
        verdict,
        certificate: None,
        trails: Trails::new(alloc),
    }
}

/// The same of an answer of a call with input and output.
pub(crate) fn plainly(
    alloc: Global,
    answer: Result<Verdict, Refusal<OutsideFault>>,
) -> Result<Decision, Refusal<OutsideFault>>
    ensures { IsPlainly answer result }
{
    match answer {
        Ok(verdict) => Ok(plain(alloc, verdict)),
        Err(fault) => Err(fault),
    }
}

/// The same of an answer that fails only out of memory.
pub(crate) fn plain_from_memory(
    alloc: Global,
    answer: Result<Verdict, AllocError>,
) -> Result<Decision, Refusal<OutsideFault>>
    ensures { IsPlainFromMemory answer result }
{
    match answer {
        Ok(verdict) => Ok(plain(alloc, verdict)),
        Err(_) => Err(Refusal::NoMemory),
    }
}

/// An answer that fails only out of memory, as one of a call with input and output.
pub(crate) fn from_memory(
    answer: Result<Decision, AllocError>,
) -> Result<Decision, Refusal<OutsideFault>>
    ensures { IsFromMemory answer result }
{
    match answer {
        Ok(decision) => Ok(decision),
        Err(_) => Err(Refusal::NoMemory),
    }
}
