//! The sizes of functions, by their entries.

ghost use Rattle.std.specs.Prelude.{◌≡◌, ℕ, map, max, unwrap_or, IfOk};
ghost use Rattle.std.specs.Ordering.{nat_cmp};
ghost use Rattle.std.specs.BTreeMap.{get};
ghost use Rattle.elf_read_spec.specs.Image as spec;
ghost use Rattle.elf_read.specs.Values.{symbol_of};

use crate::Symbol;
use elf_read_spec::fields::STT_FUNC;
use std::alloc::{AllocError, Global};
use std::collections::BTreeMap;

/// The size of each function: the greatest of the symbols of type `STT_FUNC` at its entry.
pub(crate) fn sizes(alloc: Global, symbols: &[Symbol]) -> Result<BTreeMap<u32, u32>, AllocError>
    ensures { IfOk result (λ sizes. (entry : ℕ)
        → get nat_cmp sizes entry ≡ spec.size_among (map symbol_of symbols.now) entry) }
{
    let mut sizes = BTreeMap::new(alloc);
    let mut at = symbols.len();
    while at > 0 {
        at -= 1;
        if symbols[at].kind == STT_FUNC {
            let following = sizes.get(&symbols[at].value).copied().unwrap_or(0);
            sizes.insert(symbols[at].value, symbols[at].size.max(following))?;
        }
    }
    Ok(sizes)
}
