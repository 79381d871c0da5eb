//! What the variables of a function are.

ghost use Rattle.std.specs.Prelude.{◌≡◌, IfOk, OnOk, ◌++◌, map};
ghost use Rattle.c_graph_spec.specs.State.{sort_of_scalar};
ghost use Rattle.proof_tree.specs.Scope.{body_of, setting_of};
ghost use Rattle.cert_check_frames.specs.Scopes.{bodies_with, scope_with};

use attempt::attempt;
use c_graph_terms::width_of;
use c_types_spec::Scalar;
use proof_tree::{Body, Setting};
use std::alloc::{AllocError, Global};
use term_core_spec::Sort;

fn sort_of(of: Scalar) -> Sort
    ensures { result ≡ sort_of_scalar of }
{
    Sort::Word(width_of(of))
}

// Adds the sorts of values of these types.
fn add_sorts(sorts: &mut Vec<Sort>, types: &[Scalar]) -> Result<(), AllocError>
    ensures { OnOk result (sorts.new.items ≡ sorts.old.items ++ map sort_of_scalar types.now) }
{
    for index in 0..types.len() {
        attempt!(sorts.push(sort_of(types[index])), AllocError);
    }
    Ok(())
}

// The sorts of values of these types.
fn sorts(alloc: Global, types: &[Scalar]) -> Result<Vec<Sort>, AllocError>
    ensures { IfOk result (λ sorts. sorts.items ≡ map sort_of_scalar types.now) }
{
    let mut sorts = Vec::new(alloc);
    attempt!(add_sorts(&mut sorts, types));
    Ok(sorts)
}

// The function's own body: nothing is inlined in it.
fn bodies(alloc: Global, locals: &[Scalar]) -> Result<Vec<Body>, AllocError>
    ensures { IfOk result (λ bodies. map body_of bodies.items ≡ bodies_with locals.now) }
{
    let locals = attempt!(sorts(alloc, locals));
    let mut bodies = Vec::new(alloc);
    let body = Body {
        path: Vec::new(alloc),
        instance: 0,
        locals,
    };
    attempt!(bodies.push(body), AllocError);
    Ok(bodies)
}

/// What the variables of a function are whose parameters and locals have these types.
pub(crate) fn setting_for(
    alloc: Global,
    parameters: &[Scalar],
    locals: &[Scalar],
) -> Result<Setting, AllocError>
    ensures { IfOk result (λ s. setting_of s ≡ scope_with parameters.now locals.now) }
{
    let argument_words = parameters.len();
    let bodies = attempt!(bodies(alloc, locals));
    let parameters = attempt!(sorts(alloc, parameters));
    Ok(Setting {
        argument_words,
        parameters,
        bodies,
    })
}
