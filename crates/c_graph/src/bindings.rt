//! Bindings over the terms of a bank.

ghost use Rattle.std.specs.Prelude.{◌<◌, [], ◌∷◌, IfOk, List, length};
ghost use Rattle.term_core_spec.specs.Term as tree;
ghost use Rattle.term_bank.specs.Nodes.{tree_at};
ghost use Rattle.c_graph_spec.specs.State as state;
ghost use Rattle.c_graph_spec.specs.Values as values;
ghost use Rattle.c_graph_spec.specs.Layout as spec;
ghost use Rattle.c_graph.specs.Bound.{AddsBindings, AreAdded};
ghost use Rattle.c_graph.specs.Frames.{local_in, setting_in};

use crate::frame::{Frame, local_type, result_type};
use attempt::attempt;
use c_graph_terms::{at_width, is_set, leaf, local, result_of, width_of};
use c_types_spec::Scalar;
use graph_core::SharedBinding;
use std::alloc::AllocError;
use term_bank::{Bank, TermId};
use term_core_spec::{Atom, Variable};

/// Binds a variable.
pub(crate) fn bind(
    bindings: &mut Vec<SharedBinding>,
    variable: Variable,
    term: TermId,
) -> Result<(), AllocError>
    ensures { (trees : List tree.Term) → term < length trees → AddsBindings trees trees
        bindings.old.items bindings.new.items result
        (spec.binding variable (tree_at trees term) ∷ []) }
{
    bindings.push(SharedBinding { variable, term })?;
    Ok(())
}

/// Binds a variable to an atom.
fn bind_atom(
    bank: &mut Bank,
    bindings: &mut Vec<SharedBinding>,
    variable: Variable,
    atom: Atom,
) -> Result<(), AllocError>
    ensures { AddsBindings bank.old bank.new bindings.old.items bindings.new.items result
        (spec.binding variable (tree.Leaf atom) ∷ []) }
{
    let term = attempt!(leaf(bank, atom));
    bind(bindings, variable, term)
}

/// Binds a local, which is set then.
pub(crate) fn bind_local(
    bank: &mut Bank,
    bindings: &mut Vec<SharedBinding>,
    number: usize,
    of: Scalar,
    term: TermId,
) -> Result<(), AllocError>
    requires { term < length bank.old }
    ensures { AddsBindings bank.old bank.new bindings.old.items bindings.new.items result
        (spec.set_local number of (tree_at bank.old term)) }
{
    attempt!(bind(bindings, local(number, of), term));
    bind_atom(bank, bindings, is_set(number), Atom::Truth(true))
}

/// Binds a local to the result of a call, converted to the local's type.
fn bind_result(
    frame: &Frame<'_, '_>,
    bank: &mut Bank,
    bindings: &mut Vec<SharedBinding>,
    number: usize,
    of: Scalar,
) -> Result<(), AllocError>
    ensures { AddsBindings bank.old bank.new bindings.old.items bindings.new.items result
        (spec.set_local number (local_in frame.now.locals.now number)
        (values.at_width of (state.width_of (local_in frame.now.locals.now number))
        (tree.open_term (state.result of)))) }
{
    let own = local_type(frame.locals, number);
    let given = attempt!(leaf(bank, Atom::Open(result_of(of))));
    let term = attempt!(at_width(frame.alloc, bank, of, width_of(own), given));
    bind_local(bank, bindings, number, own, term)
}

/// What a call binds when it returns.
pub(crate) fn outputs(
    frame: &Frame<'_, '_>,
    bank: &mut Bank,
    function: &[u8],
    into: Option<usize>,
) -> Result<Vec<SharedBinding>, AllocError>
    ensures { IfOk result (λ made. AreAdded bank.old bank.new [] made.items
        (spec.outputs (setting_in frame.now) function.now into)) }
{
    let mut bindings = Vec::new(frame.alloc);
    match into {
        Some(number) => match result_type(frame.unit, function) {
            Some(of) => {
                attempt!(bind_result(frame, bank, &mut bindings, number, of));
                Ok(bindings)
            }
            None => Ok(bindings),
        },
        None => Ok(bindings),
    }
}
