//! Whether the goals of a frame allow a cut.

ghost use Rattle.std.specs.Prelude.{◌↔◌, IfOk, IsTrue, length};
ghost use Rattle.proof_tree_spec.specs.Frames.{IsAllowed};
ghost use Rattle.cert_check_frames.specs.Listed.{frame_at};
ghost use Rattle.cert_check_jobs.specs.Extras.{IsBelow, added_at, frame_added};

use crate::extra::Extra;
use crate::frames::{extra_trees, frame_with};
use attempt::attempt;
use cert_check_frames::Listed;
use proof_tree_spec::Cut;
use sim_cut::cut_allowed;
use std::alloc::{AllocError, Global};
use term_bank::Bank;

/// Whether the goals of a frame allow a cut (`sim_cut`).
pub fn is_allowed(
    alloc: Global,
    function: &Listed<'_>,
    bank: &Bank,
    extra: &Extra,
    cut: Cut,
) -> Result<bool, AllocError>
    requires { IsBelow (length bank.now) extra.now }
    ensures { IfOk result (λ allowed. IsTrue allowed
        ↔ IsAllowed (frame_added (frame_at function.now) (added_at bank.now extra.now)) cut) }
{
    let trees = attempt!(extra_trees(alloc, bank, extra));
    let frame = attempt!(frame_with(alloc, &*function, extra, &trees));
    Ok(cut_allowed(&frame, cut))
}
