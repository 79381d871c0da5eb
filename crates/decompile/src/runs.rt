//! The runs of fixed bytes.

ghost use Rattle.std.specs.Prelude.{IfOk, OnOk};
ghost use Rattle.decompile.specs.Settings.{HaveExtents};

use elf_read::{Extent, Image};
use std::alloc::{AllocError, Global};

/// The addresses of all runs of fixed bytes, ascending.
pub(crate) fn runs(alloc: Global, image: &Image<'_>) -> Result<Vec<Extent>, AllocError>
    ensures { IfOk result (λ runs. HaveExtents image.now runs.items) }
{
    let mut runs = Vec::new(alloc);
    while let Some(run) = image.run(runs.len()) {
        runs.push(run)?;
    }
    Ok(runs)
}
