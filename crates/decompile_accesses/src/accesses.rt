//! The tests before loads and stores.

ghost use Rattle.std.specs.Prelude.{◌≡◌, ◌++◌, ◌∷◌, [], ◌≤◌, map, All, OnOk};
ghost use Rattle.term_core.specs.Trees.{term_of};
ghost use Rattle.graph_core.specs.Graphs.{boxed_term};
ghost use Rattle.decompile_spec.specs.InstructionTerms as spec;
ghost use Rattle.decompile_accesses.specs.Runs.{run_of, BuildsTests};

use attempt::attempt;
use decompile_terms::{address, avoids, is_multiple, last_written};
use elf_read::Extent;
use rv_instr::{Instr, LoadKind, StoreKind};
use std::alloc::{AllocError, Global};
use term_core::Term;

/// The one test that an address is a multiple of a power of 2, of which 1 is taken here.
fn alignment(alloc: Global, mask: u32, a: &Term) -> Result<Vec<Box<Term>>, AllocError>
    ensures { BuildsTests result (spec.is_multiple mask (term_of a.now) ∷ []) }
{
    let test = attempt!(is_multiple(alloc, mask, a));
    let mut tests = Vec::new(alloc);
    tests.push(test)?;
    Ok(tests)
}

/// The tests before a load.
fn load_tests(alloc: Global, kind: LoadKind, a: &Term) -> Result<Vec<Box<Term>>, AllocError>
    ensures { BuildsTests result (spec.load_tests kind (term_of a.now)) }
{
    match kind {
        LoadKind::Byte | LoadKind::ByteUnsigned => Ok(Vec::new(alloc)),
        LoadKind::Half | LoadKind::HalfUnsigned => alignment(alloc, 1, a),
        LoadKind::Word => alignment(alloc, 3, a),
    }
}

/// The test of a store's alignment.
fn store_alignment(alloc: Global, kind: StoreKind, a: &Term) -> Result<Vec<Box<Term>>, AllocError>
    ensures { BuildsTests result (spec.aligned_for kind (term_of a.now)) }
{
    match kind {
        StoreKind::Byte => Ok(Vec::new(alloc)),
        StoreKind::Half => alignment(alloc, 1, a),
        StoreKind::Word => alignment(alloc, 3, a),
    }
}

/// Adds the tests that the bytes from an address to another meet none of some runs of fixed bytes.
fn avoid(
    alloc: Global,
    tests: &mut Vec<Box<Term>>,
    runs: &[Extent],
    a: &Term,
    e: &Term,
) -> Result<(), AllocError>
    requires { All (λ run. run.first ≤ run.last) runs.now }
    ensures { OnOk result (map boxed_term tests.new.items
        ≡ map boxed_term tests.old.items ++ map (spec.avoids (term_of a.now) (term_of e.now))
        (map run_of runs.now)) }
{
    for run in runs {
        let test = avoids(alloc, a, e, run.first, run.last)?;
        tests.push(test)?;
    }
    Ok(())
}

/// The tests before a store: its alignment, then each run of fixed bytes.
fn store_tests(
    alloc: Global,
    runs: &[Extent],
    kind: StoreKind,
    a: &Term,
) -> Result<Vec<Box<Term>>, AllocError>
    requires { All (λ run. run.first ≤ run.last) runs.now }
    ensures { BuildsTests result (spec.store_tests (map run_of runs.now) kind (term_of a.now)) }
{
    let mut tests = attempt!(store_alignment(alloc, kind, a));
    let last = attempt!(last_written(alloc, kind, a));
    attempt!(avoid(alloc, &mut tests, runs, a, &last));
    Ok(tests)
}

/// What has to hold before an instruction that continues at the next one.
pub fn access_tests(
    alloc: Global,
    runs: &[Extent],
    instruction: &Instr,
) -> Result<Vec<Box<Term>>, AllocError>
    requires { All (λ run. run.first ≤ run.last) runs.now }
    ensures { BuildsTests result (spec.access_tests (map run_of runs.now) instruction.now) }
{
    match *instruction {
        Instr::Load {
            kind,
            base,
            offset,
            ..
        } => {
            let a = attempt!(address(alloc, base, offset));
            load_tests(alloc, kind, &a)
        }
        Instr::Store {
            kind,
            base,
            offset,
            ..
        } => {
            let a = attempt!(address(alloc, base, offset));
            store_tests(alloc, runs, kind, &a)
        }
        Instr::Lui { .. }
        | Instr::Auipc { .. }
        | Instr::Jal { .. }
        | Instr::Jalr { .. }
        | Instr::Branch { .. }
        | Instr::Immediate { .. }
        | Instr::Shift { .. }
        | Instr::Arithmetic { .. }
        | Instr::Fence { .. }
        | Instr::Ecall
        | Instr::Ebreak => Ok(Vec::new(alloc)),
    }
}
