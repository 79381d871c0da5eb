ghost use Rattle.std.specs.Prelude.{◌≡◌, ◌++◌, ◌∷◌, [], filter, map, IfOk, OnOk};
ghost use Rattle.c_types.specs.Typed.{typed_of};
ghost use Rattle.tv_words.specs.Jobs.{job_of};
ghost use Rattle.tv_core.specs.Tasks.{task_of};
ghost use Rattle.tv_core_spec.specs.Listing as spec;

use attempt::attempt;
use c_types::typed::Typed;
use elf_read::Image;
use elf_read_spec::SymbolValues;
use std::alloc::{AllocError, Global};
use tv_base::Bytes;
use tv_words::Job;

/// The names that a command gives.
fn given_names(alloc: Global, functions: &[&str]) -> Result<Vec<Bytes>, AllocError>
    ensures { IfOk result (λ names. names.items ≡ map (λ name. name.now) functions.now) }
{
    let mut names = Vec::new(alloc);
    for name in functions {
        names.push(Bytes::copied(alloc, name.as_bytes())?)?;
    }
    Ok(names)
}

/// Adds a name, if it has a symbol.
fn push_listed(
    alloc: Global,
    image: &Image<'_>,
    name: &[u8],
    names: &mut Vec<Bytes>,
) -> Result<(), AllocError>
    ensures { OnOk result (names.new.items
        ≡ names.old.items ++ filter (spec.has_symbol image.now) (name.now ∷ [])) }
{
    if image.function(name) == SymbolValues::Absent {
        return Ok(());
    }
    names.push(Bytes::copied(alloc, name)?)?;
    Ok(())
}

/// The names with a body and a symbol, in source order.
fn listed_names(
    alloc: Global,
    image: &Image<'_>,
    unit: &Typed<'_>,
) -> Result<Vec<Bytes>, AllocError>
    ensures { IfOk result (λ names. names.items ≡ spec.listed image.now (typed_of unit.now)) }
{
    let mut names = Vec::new(alloc);
    for name in unit.bodies.keys() {
        attempt!(push_listed(alloc, image, name, &mut names));
    }
    Ok(names)
}

/// The list of one name.
fn one_name(alloc: Global, name: &str) -> Result<Vec<Bytes>, AllocError>
    ensures { IfOk result (λ names. names.items ≡ name.now ∷ []) }
{
    let mut names = Vec::new(alloc);
    names.push(Bytes::copied(alloc, name.as_bytes())?)?;
    Ok(names)
}

/// The list, in its order.
pub(crate) fn names(
    alloc: Global,
    job: &Job<'_>,
    image: &Image<'_>,
    unit: &Typed<'_>,
) -> Result<Vec<Bytes>, AllocError>
    ensures { IfOk result (λ names. names.items
        ≡ spec.names_of (task_of (job_of job.now) []) image.now (typed_of unit.now)) }
{
    match job {
        Job::Prove(job) => match &job.functions {
            Some(functions) => given_names(alloc, functions.as_slice()),
            None => listed_names(alloc, image, unit),
        },
        Job::Check(job) => match &job.functions {
            Some(functions) => given_names(alloc, functions.as_slice()),
            None => listed_names(alloc, image, unit),
        },
        Job::Show(job) => one_name(alloc, job.function),
    }
}
