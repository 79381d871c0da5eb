//! What is known of a unit and an executable before the listed functions are looked at.

ghost use Rattle.std.specs.Prelude.{IfOk};
ghost use Rattle.c_types.specs.Typed.{typed_of};
ghost use Rattle.pair_setup_calls.specs.Names.{names_of};
ghost use Rattle.pair_setup.specs.Surveys.{IsSurvey};

use crate::globals::misplaced_globals;
use attempt::attempt;
use c_types::typed::Typed;
use elf_read::Image;
use pair_setup_calls::{call_graph, depths};
use std::alloc::{AllocError, Global};

/// What is known of the names of the file scope, by their numbers.
#[derive(Drop)]
pub(crate) struct Survey {
    /// For each the functions that its body calls.
    pub graph: Vec<Vec<usize>>,
    /// For each how deep its calls go, as far as that is known; a function that reaches a cycle has
    /// no depth.
    pub depths: Vec<Option<u64>>,
    /// For each whether it is a global that isn't placed.
    pub misplaced: Vec<bool>,
}

/// What is known of a unit and an executable.
pub(crate) fn surveyed(
    alloc: Global,
    image: &Image<'_>,
    unit: &Typed<'_>,
) -> Result<Survey, AllocError>
    ensures { IfOk result (IsSurvey image.now (typed_of unit.now) (names_of unit.now)) }
{
    let graph = attempt!(call_graph(alloc, unit));
    let depths = attempt!(depths(alloc, graph.as_slice(), &[]));
    let misplaced = attempt!(misplaced_globals(alloc, image, unit));
    Ok(Survey {
        graph,
        depths,
        misplaced,
    })
}
