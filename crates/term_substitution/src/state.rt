// Terms of a bank in place of the variables of a tree.

ghost use Rattle.std.specs.Prelude.{◌≤◌, List, length};
ghost use Rattle.term_core_spec.specs.Term as tree;
ghost use Rattle.term_core_spec.specs.Substitution.{substituted, substituted_atom};
ghost use Rattle.term_core.specs.Trees.{term_of};
ghost use Rattle.term_bank.specs.Nodes.{Extends};
ghost use Rattle.term_substitution.specs.States.{state_of, IsStateOf, AreBelow, IsAt, IsFound};

use crate::lookup::Lookup;
use std::alloc::{AllocError, Global};
use std::collections::HashMap;
use term_bank::{Bank, TermId, TermNode};
use term_core::Term;
use term_core_spec::{
    Atom, BinaryOperator, QuaternaryOperator, TernaryOperator, UnaryOperator, Variable,
};

/// The term of a variable, or a constant; `size` is above the ids of the state.
pub(crate) fn put_atom<L: Lookup>(
    bank: &mut Bank,
    atom: Atom,
    state: &L,
    size: usize,
) -> Result<TermId, AllocError>
    requires state { AreBelow size (L.terms state.now) }
    requires size { size ≤ length bank.old }
    ensures tree { (base : List tree.Term) → Extends base bank.old
        → IsStateOf base (L.terms state.now)
        → IsAt bank.new result (substituted_atom (state_of base (L.terms state.now)) atom) }
    ensures within { IsFound bank.new result }
    ensures extends { Extends bank.old bank.new }
    ensures longer { length bank.old ≤ length bank.new }
{
    if let Atom::Open(variable) = atom {
        if let Some(id) = state.term(&variable) {
            return Ok(id);
        }
    }
    bank.add(TermNode::Leaf(atom))
}

fn over_one(
    bank: &mut Bank,
    operator: UnaryOperator,
    a: Result<TermId, AllocError>,
) -> Result<TermId, AllocError>
    requires { IsFound bank.old a }
    ensures tree { (t0 : tree.Term)
        → IsAt bank.old a t0
        → IsAt bank.new result (tree.Unary operator t0) }
    ensures within { IsFound bank.new result }
    ensures extends { Extends bank.old bank.new }
    ensures longer { length bank.old ≤ length bank.new }
{
    let a = a?;
    bank.add(TermNode::Unary(operator, a))
}

fn over_two(
    bank: &mut Bank,
    operator: BinaryOperator,
    a: Result<TermId, AllocError>,
    b: Result<TermId, AllocError>,
) -> Result<TermId, AllocError>
    requires a_within { IsFound bank.old a }
    requires b_within { IsFound bank.old b }
    ensures tree { (t0 t1 : tree.Term)
        → IsAt bank.old a t0
        → IsAt bank.old b t1
        → IsAt bank.new result (tree.Binary operator t0 t1) }
    ensures within { IsFound bank.new result }
    ensures extends { Extends bank.old bank.new }
    ensures longer { length bank.old ≤ length bank.new }
{
    let a = a?;
    let b = b?;
    bank.add(TermNode::Binary(operator, a, b))
}

fn over_three(
    bank: &mut Bank,
    operator: TernaryOperator,
    a: Result<TermId, AllocError>,
    b: Result<TermId, AllocError>,
    c: Result<TermId, AllocError>,
) -> Result<TermId, AllocError>
    requires a_within { IsFound bank.old a }
    requires b_within { IsFound bank.old b }
    requires c_within { IsFound bank.old c }
    ensures tree { (t0 t1 t2 : tree.Term)
        → IsAt bank.old a t0
        → IsAt bank.old b t1
        → IsAt bank.old c t2
        → IsAt bank.new result (tree.Ternary operator t0 t1 t2) }
    ensures within { IsFound bank.new result }
    ensures extends { Extends bank.old bank.new }
    ensures longer { length bank.old ≤ length bank.new }
{
    let a = a?;
    let b = b?;
    let c = c?;
    bank.add(TermNode::Ternary(operator, a, b, c))
}

fn over_four(
    bank: &mut Bank,
    operator: QuaternaryOperator,
    a: Result<TermId, AllocError>,
    b: Result<TermId, AllocError>,
    c: Result<TermId, AllocError>,
    d: Result<TermId, AllocError>,
) -> Result<TermId, AllocError>
    requires a_within { IsFound bank.old a }
    requires b_within { IsFound bank.old b }
    requires c_within { IsFound bank.old c }
    requires d_within { IsFound bank.old d }
    ensures tree { (t0 t1 t2 t3 : tree.Term)
        → IsAt bank.old a t0
        → IsAt bank.old b t1
        → IsAt bank.old c t2
        → IsAt bank.old d t3
        → IsAt bank.new result (tree.Quaternary operator t0 t1 t2 t3) }
    ensures within { IsFound bank.new result }
    ensures extends { Extends bank.old bank.new }
    ensures longer { length bank.old ≤ length bank.new }
{
    let a = a?;
    let b = b?;
    let c = c?;
    let d = d?;
    bank.add(TermNode::Quaternary(operator, a, b, c, d))
}

fn over_eight(
    bank: &mut Bank,
    a: Result<TermId, AllocError>,
    b: Result<TermId, AllocError>,
    c: Result<TermId, AllocError>,
    d: Result<TermId, AllocError>,
    e: Result<TermId, AllocError>,
    f: Result<TermId, AllocError>,
    g: Result<TermId, AllocError>,
    h: Result<TermId, AllocError>,
) -> Result<TermId, AllocError>
    requires a_within { IsFound bank.old a }
    requires b_within { IsFound bank.old b }
    requires c_within { IsFound bank.old c }
    requires d_within { IsFound bank.old d }
    requires e_within { IsFound bank.old e }
    requires f_within { IsFound bank.old f }
    requires g_within { IsFound bank.old g }
    requires h_within { IsFound bank.old h }
    ensures tree { (t0 t1 t2 t3 t4 t5 t6 t7 : tree.Term)
        → IsAt bank.old a t0
        → IsAt bank.old b t1
        → IsAt bank.old c t2
        → IsAt bank.old d t3
        → IsAt bank.old e t4
        → IsAt bank.old f t5
        → IsAt bank.old g t6
        → IsAt bank.old h t7
        → IsAt bank.new result (tree.Octonary t0 t1 t2 t3 t4 t5 t6 t7) }
    ensures within { IsFound bank.new result }
    ensures extends { Extends bank.old bank.new }
    ensures longer { length bank.old ≤ length bank.new }
{
    let a = a?;
    let b = b?;
    let c = c?;
    let d = d?;
    let e = e?;
    let f = f?;
    let g = g?;
    let h = h?;
    bank.add(TermNode::Octonary(a, b, c, d, e, f, g, h))
}

// The index of a tree with the terms of the state in place of its variables. It calls itself once a
// level of the tree: trees come from certificates, whose terms nest at most `NESTING_LIMIT` levels
// deep (`tv_limits`), from instructions and from frames, whose terms nest less than 16.
fn put<L: Lookup>(
    bank: &mut Bank,
    term: &Term,
    state: &L,
    size: usize,
) -> Result<TermId, AllocError>
    requires state { AreBelow size (L.terms state.now) }
    requires size { size ≤ length bank.old }
    ensures tree { (base : List tree.Term) → Extends base bank.old
        → IsStateOf base (L.terms state.now)
        → IsAt bank.new result
        (substituted (state_of base (L.terms state.now)) (term_of term.now)) }
    ensures within { IsFound bank.new result }
    ensures extends { Extends bank.old bank.new }
    ensures longer { length bank.old ≤ length bank.new }
{
    match term {
        Term::Leaf(atom) => put_atom(bank, *atom, state, size),
        Term::Unary(operator, a) => {
            let x = put(bank, a, state, size);
            over_one(bank, *operator, x)
        }
        Term::Binary(operator, a, b) => {
            let x = put(bank, a, state, size);
            let y = put(bank, b, state, size);
            over_two(bank, *operator, x, y)
        }
        Term::Ternary(operator, a, b, c) => {
            let x = put(bank, a, state, size);
            let y = put(bank, b, state, size);
            let z = put(bank, c, state, size);
            over_three(bank, *operator, x, y, z)
        }
        Term::Quaternary(operator, a, b, c, d) => {
            let x = put(bank, a, state, size);
            let y = put(bank, b, state, size);
            let z = put(bank, c, state, size);
            let w = put(bank, d, state, size);
            over_four(bank, *operator, x, y, z, w)
        }
        Term::Octonary(a, b, c, d, e, f, g, h) => {
            let x = put(bank, a, state, size);
            let y = put(bank, b, state, size);
            let z = put(bank, c, state, size);
            let w = put(bank, d, state, size);
            let s = put(bank, e, state, size);
            let t = put(bank, f, state, size);
            let u = put(bank, g, state, size);
            let v = put(bank, h, state, size);
            over_eight(bank, x, y, z, w, s, t, u, v)
        }
    }
}

/// The index of a tree with the terms of `state` in place of its variables, all at once; a variable
/// that has none stays. Out of memory, the bank may have some more terms.
pub fn substitute<L: Lookup>(bank: &mut Bank, term: &Term, state: &L) -> Result<TermId, AllocError>
    requires { AreBelow (length bank.old) (L.terms state.now) }
    ensures tree { IsAt bank.new result
        (substituted (state_of bank.old (L.terms state.now)) (term_of term.now)) }
    ensures within { IsFound bank.new result }
    ensures extends { Extends bank.old bank.new }
{
    let size = bank.len();
    put(bank, term, state, size)
}

/// The index of a tree. Out of memory, the bank may have some more terms.
pub fn intern(alloc: Global, bank: &mut Bank, term: &Term) -> Result<TermId, AllocError>
    ensures tree { IsAt bank.new result (term_of term.now) }
    ensures within { IsFound bank.new result }
    ensures extends { Extends bank.old bank.new }
{
    let none: HashMap<Variable, TermId> = HashMap::new(alloc);
    substitute(bank, term, &none)
}
