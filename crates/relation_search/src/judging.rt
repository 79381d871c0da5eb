ghost use Rattle.std.specs.Prelude.{◌≡◌, ◌↔◌, ℕ, List, IfOk};
ghost use Rattle.relation_search.specs.Greatest.{IsMonotone};
ghost use Rattle.relation_search.specs.Answers.{IsAnswer, left_by, limits_after};

use crate::answers::Judged;
use std::alloc::{AllocError, Global};

/// Judges lines, which are known by their numbers.
pub trait Judge {
    // Where these lines hold, an assignment makes this line false where it is to be shown.
    ghost refutes: { Self → List ℕ → ℕ → Type 0 };

    // The lines that its answers have left: it is asked of these next.
    ghost left: { Self → List ℕ };

    // How often it gave up: 0 or 1.
    ghost limits: { Self → ℕ };

    /// Judges the lines that are left.
    fn judge(&mut self, alloc: Global, lines: &[usize]) -> Result<Judged, AllocError>
        requires lines_left { lines.now ≡ left self.old }
        requires no_limit { limits self.old ≡ 0 }
        ensures answer { IfOk result (IsAnswer (refutes self.old) lines.now) }
        ensures leaves { IfOk result (λ judged. left self.new ≡ left_by judged lines.now) }
        ensures limit { limits self.new ≡ limits_after result }
        ensures same { (some : List ℕ) (line : ℕ)
            → refutes self.old some line ↔ refutes self.new some line };

    ghost monotone: { (j : Self) → IsMonotone (refutes j) };
}
