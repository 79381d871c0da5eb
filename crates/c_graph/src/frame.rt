//! What the nodes of a body are written in.

ghost use Rattle.std.specs.Prelude.{◌≡◌};
ghost use Rattle.c_graph_spec.specs.SourceGraph.{body_number, type_named};
ghost use Rattle.c_types.specs.Typed.{typed_of};
ghost use Rattle.c_graph.specs.Frames.{local_in};

use c_run_value::setting::Place;
use c_types::typed::Typed;
use c_types_core::constants::INT;
use c_types_spec::Scalar;
use std::alloc::Global;

/// What is read of a unit while the nodes of a body are written.
#[derive(Clone, Copy)]
pub(crate) struct Frame<'a, 'u> {
    /// The allocator.
    pub alloc: Global,
    /// Where globals and fixed bytes are.
    pub place: &'a Place<'a, 'a>,
    /// The unit.
    pub unit: &'a Typed<'u>,
    /// The types of the body's locals, the parameters first.
    pub locals: &'a [Scalar],
}

/// The number of a function's graph: that of its body in the unit.
#[tactic(auto, using(crate::proofs::Numbers::numbers))]
pub fn source_number(unit: &Typed<'_>, name: &[u8]) -> usize
    ensures { result ≡ body_number name.now (typed_of unit.now).bodies }
{
    match unit.bodies.get_index_of(name) {
        Some(number) => number,
        None => unit.bodies.len(),
    }
}

/// The type of a function's result, or none.
pub(crate) fn result_type(unit: &Typed<'_>, name: &[u8]) -> Option<Scalar>
    ensures { result ≡ (type_named (typed_of unit.now) name.now).result }
{
    match unit.function(name) {
        Some(signature) => signature.returned.scalar(),
        None => None,
    }
}

/// The type of a local.
pub(crate) fn local_type(locals: &[Scalar], number: usize) -> Scalar
    ensures { result ≡ local_in locals.now number }
{
    match locals.get(number) {
        Some(of) => *of,
        None => INT,
    }
}
