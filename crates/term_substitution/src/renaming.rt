// Variables of some families renamed to an instance.

ghost use Rattle.std.specs.Prelude.{◌≡◌, IfOk};
ghost use Rattle.term_core_spec.specs.Term as tree;
ghost use Rattle.term_core_spec.specs.Substitution.{renamed, renamed_atom};
ghost use Rattle.term_core.specs.Trees.{term_of};
ghost use Rattle.term_substitution.specs.Renaming.{in_instance};

use std::alloc::{AllocError, Global};
use term_core::Term;
use term_core_spec::{Atom, Family, Variable};

fn rename_variable(variable: Variable, own: &[Family], instance: usize) -> Variable
    ensures { result ≡ in_instance own.now instance variable }
{
    if own.contains(&variable.family) {
        Variable {
            family: variable.family,
            index: variable.index,
            instance,
            sort: variable.sort,
        }
    } else {
        variable
    }
}

fn rename_atom(atom: Atom, own: &[Family], instance: usize) -> Atom
    ensures { result ≡ renamed_atom (in_instance own.now instance) atom }
{
    match atom {
        Atom::Truth(value) => Atom::Truth(value),
        Atom::Constant(width, number) => Atom::Constant(width, number),
        Atom::Open(variable) => Atom::Open(rename_variable(variable, own, instance)),
    }
}

// Two terms, where both were made.
fn two(
    first: Result<Box<Term>, AllocError>,
    second: Result<Box<Term>, AllocError>,
) -> Result<(Box<Term>, Box<Term>), AllocError>
    ensures { (s t : tree.Term) → IfOk first (λ x. term_of x.value ≡ s)
        → IfOk second (λ x. term_of x.value ≡ t)
        → IfOk result (λ p. (term_of p.0.value ≡ s) × (term_of p.1.value ≡ t)) }
{
    Ok((first?, second?))
}

/// A copy of the term in which each variable of the families `own` belongs to `instance`; every
/// other variable stays. Where a call is inlined, `own` lists the families of the function's own
/// variables (parameters, locals, values at entry), and leaves out those that caller and callee
/// share (registers, memories). It calls itself once a level of the term: terms of certificates
/// nest at most `NESTING_LIMIT` levels deep (`tv_limits`).
#[tactic(auto, unfolding(term_core_spec::specs::Substitution::renamed))]
pub fn rename(
    alloc: Global,
    term: &Term,
    own: &[Family],
    instance: usize,
) -> Result<Box<Term>, AllocError>
    ensures { IfOk result (λ t. term_of t.value
        ≡ renamed (in_instance own.now instance) (term_of term.now)) }
{
    match term {
        Term::Leaf(atom) => Term::leaf(alloc, rename_atom(*atom, own, instance)),
        Term::Unary(operator, a) => {
            Term::unary(alloc, *operator, rename(alloc, a, own, instance)?)
        }
        Term::Binary(operator, a, b) => {
            let (a, b) = two(
                rename(alloc, a, own, instance),
                rename(alloc, b, own, instance),
            )?;
            Term::binary(alloc, *operator, a, b)
        }
        Term::Ternary(operator, a, b, c) => {
            let (a, b) = two(
                rename(alloc, a, own, instance),
                rename(alloc, b, own, instance),
            )?;
            let c = rename(alloc, c, own, instance)?;
            Term::ternary(alloc, *operator, a, b, c)
        }
        Term::Quaternary(operator, a, b, c, d) => {
            let (a, b) = two(
                rename(alloc, a, own, instance),
                rename(alloc, b, own, instance),
            )?;
            let (c, d) = two(
                rename(alloc, c, own, instance),
                rename(alloc, d, own, instance),
            )?;
            Term::quaternary(alloc, *operator, a, b, c, d)
        }
        Term::Octonary(a, b, c, d, e, f, g, h) => {
            let (a, b) = two(
                rename(alloc, a, own, instance),
                rename(alloc, b, own, instance),
            )?;
            let (c, d) = two(
                rename(alloc, c, own, instance),
                rename(alloc, d, own, instance),
            )?;
            let (e, f) = two(
                rename(alloc, e, own, instance),
                rename(alloc, f, own, instance),
            )?;
            let (g, h) = two(
                rename(alloc, g, own, instance),
                rename(alloc, h, own, instance),
            )?;
            Term::octonary(alloc, a, b, c, d, e, f, g, h)
        }
    }
}
