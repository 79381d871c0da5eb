//! Which terms may be lines of a proof.

ghost use Rattle.std.specs.Prelude.{◌≡◌, ◌⊎◌, ◌+◌, ◌<◌, ◌≤◌, ◌↔◌, Any, IsTrue, Some, map};
ghost use Rattle.std.specs.Prelude.{slice_get};
ghost use Rattle.term_core_spec.specs.Term.{Occurs, OccursInAtom};
ghost use Rattle.term_core.specs.Trees.{term_of};
ghost use Rattle.proof_tree_spec.specs.Scope as spec;
ghost use Rattle.proof_tree.specs.Scope.{body_of, setting_of, Owns};

use term_core::{Term, sort};
use term_core_spec::{Atom, Family, Sort, Variable, Width};

/// The body of the source's function, or of a call that is inlined in it.
#[derive(Drop)]
pub struct Body {
    /// The numbers of the calls that lead to it, outermost first; none for the function itself.
    pub path: Vec<u32>,
    /// The instance of its own variables.
    pub instance: usize,
    /// The sort of each of its locals.
    pub locals: Vec<Sort>,
}

/// What the variables of a proof are.
#[derive(Drop)]
pub struct Setting {
    /// How many argument words the function has.
    pub argument_words: usize,
    /// The sort of each of its parameters.
    pub parameters: Vec<Sort>,
    /// The bodies of the function and of the inlined calls.
    pub bodies: Vec<Body>,
}

/// Whether a term may be a line where a frame starts in the body of this path: it is a truth value,
/// and its variables are in scope there.
pub fn is_line(setting: &Setting, path: &[u32], term: &Term) -> bool
    ensures { IsTrue result ↔ spec.IsLine (setting_of setting.now) path.now (term_of term.now) }
{
    sort(term) == Some(Sort::Truth) && sees_all(setting, path, term)
}

/// Whether each variable of a term is in scope. It calls itself once a level: terms of proofs nest
/// at most `NESTING_LIMIT` levels deep (`tv_limits`).
#[tactic(auto, unfolding(term_core_spec::specs::Term::Occurs))]
fn sees_all(setting: &Setting, path: &[u32], term: &Term) -> bool
    ensures { IsTrue result ↔ ((v : Variable) → Occurs v (term_of term.now)
        → spec.IsInScope (setting_of setting.now) path.now v) }
{
    match term {
        Term::Leaf(atom) => sees_atom(setting, path, *atom),
        Term::Unary(_, a) => sees_all(setting, path, a),
        Term::Binary(_, a, b) => sees_all(setting, path, a) && sees_all(setting, path, b),
        Term::Ternary(_, a, b, c) => {
            sees_all(setting, path, a) && sees_all(setting, path, b) && sees_all(setting, path, c)
        }
        Term::Quaternary(_, a, b, c, d) => {
            sees_all(setting, path, a)
                && sees_all(setting, path, b)
                && sees_all(setting, path, c)
                && sees_all(setting, path, d)
        }
        Term::Octonary(a, b, c, d, e, f, g, h) => {
            sees_all(setting, path, a)
                && sees_all(setting, path, b)
                && sees_all(setting, path, c)
                && sees_all(setting, path, d)
                && sees_all(setting, path, e)
                && sees_all(setting, path, f)
                && sees_all(setting, path, g)
                && sees_all(setting, path, h)
        }
    }
}

/// Whether the variable that an atom is, if it is one, is in scope.
fn sees_atom(setting: &Setting, path: &[u32], atom: Atom) -> bool
    ensures { IsTrue result ↔ ((v : Variable) → OccursInAtom v atom
        → spec.IsInScope (setting_of setting.now) path.now v) }
{
    match atom {
        Atom::Truth(_) | Atom::Constant(_, _) => true,
        Atom::Open(variable) => is_in_scope(setting, path, variable),
    }
}

/// Whether a variable is in scope.
fn is_in_scope(setting: &Setting, path: &[u32], v: Variable) -> bool
    ensures { IsTrue result ↔ spec.IsInScope (setting_of setting.now) path.now v }
{
    match v.family {
        Family::Register => is_register(v),
        Family::Entry => is_entry(setting.argument_words, v),
        Family::Parameter => is_parameter(setting.parameters.as_slice(), v),
        Family::Local => is_own(setting.bodies.as_slice(), path, v),
        Family::IsSet => v.sort == Sort::Truth && is_own(setting.bodies.as_slice(), path, v),
        Family::SourceMemory | Family::BinaryMemory | Family::ZoneMemory => is_memory(v),
        Family::Address | Family::LoadedByte | Family::Further => false,
    }
}

/// Whether a variable is one of x1 to x31.
fn is_register(v: Variable) -> bool
    ensures { IsTrue result ↔ spec.IsRegister v }
{
    1 <= v.index && v.index < 32 && v.instance == 0 && v.sort == Sort::Word(Width::W32)
}

/// Whether a variable is a register's value at entry that no argument word has.
fn is_entry(argument_words: usize, v: Variable) -> bool
    ensures { IsTrue result ↔ (spec.IsRegister v
        × ((v.index < 10) ⊎ (10 + argument_words ≤ v.index))) }
{
    is_register(v) && (v.index < 10 || argument_words <= v.index - 10)
}

/// Whether a variable is a parameter.
fn is_parameter(parameters: &[Sort], v: Variable) -> bool
    ensures { IsTrue result ↔ ((v.instance ≡ 0)
        × (slice_get parameters.now v.index ≡ Some v.sort)) }
{
    v.instance == 0 && v.index < parameters.len() && parameters[v.index] == v.sort
}

/// Whether a variable is the only one of its family.
fn is_memory(v: Variable) -> bool
    ensures { IsTrue result ↔ spec.IsMemory v }
{
    v.index == 0 && v.instance == 0 && v.sort == Sort::Memory
}

/// Whether a variable is a local of a body that the path leads through, or whether it is set.
fn is_own(bodies: &[Body], path: &[u32], v: Variable) -> bool
    ensures { IsTrue result ↔ Any (Owns path.now v) (map body_of bodies.now) }
{
    for body in bodies {
        if owns(body, path, v) {
            return true;
        }
    }
    false
}

/// Whether a body that the path leads through has this local.
fn owns(body: &Body, path: &[u32], v: Variable) -> bool
    ensures { IsTrue result ↔ Owns path.now v (body_of body.now) }
{
    if body.instance != v.instance || !path.starts_with(body.path.as_slice()) {
        return false;
    }
    let locals = body.locals.as_slice();
    v.index < locals.len() && (v.family == Family::IsSet || locals[v.index] == v.sort)
}
