// Terms as trees, their sorts and their values.

ghost use Rattle.std.specs.Prelude.{◌≡◌, IfOk};
ghost use Rattle.term_core_spec.specs.Sort as spec_sort;
ghost use Rattle.term_core_spec.specs.Term as tree;
ghost use Rattle.term_core_spec.specs.Value as spec;
ghost use Rattle.term_core.specs.Trees.{term_of};
ghost use Rattle.term_core.specs.Values.{value_of};
ghost use Rattle.term_core.specs.Assignment.{assignment_of};

use crate::assignment::Assignment;
use crate::sorts::{
    sort_of_atom, sort_of_binary, sort_of_octonary, sort_of_quaternary, sort_of_ternary,
    sort_of_unary,
};
use crate::value::{Value, binary, byte_of, octonary, quaternary, ternary, unary};
use attempt::attempt;
use std::alloc::{AllocError, Global};
use term_core_spec::{
    Atom, BinaryOperator, QuaternaryOperator, Sort, TernaryOperator, UnaryOperator, Width,
};

/// A term: an operator and its arguments. What goes over one, and what lets go of it, calls itself
/// once a level: terms of certificates nest at most `NESTING_LIMIT` levels deep (`tv_limits`),
/// those of instructions and of frames less than 16. Terms of any depth are in banks (`term_bank`).
#[derive(Drop)]
pub enum Term {
    /// a term without arguments
    Leaf(Atom),
    /// an operator with one argument
    Unary(UnaryOperator, Box<Term>),
    /// an operator with two arguments
    Binary(BinaryOperator, Box<Term>, Box<Term>),
    /// an operator with three arguments
    Ternary(TernaryOperator, Box<Term>, Box<Term>, Box<Term>),
    /// an operator with four arguments
    Quaternary(QuaternaryOperator, Box<Term>, Box<Term>, Box<Term>, Box<Term>),
    /// the word of eight bytes, the lowest first
    Octonary(
        Box<Term>,
        Box<Term>,
        Box<Term>,
        Box<Term>,
        Box<Term>,
        Box<Term>,
        Box<Term>,
        Box<Term>,
    ),
}

/// The term in a box of its own.
fn boxed(alloc: Global, term: Term) -> Result<Box<Term>, AllocError>
    ensures { IfOk result (λ t. term_of t.value ≡ term_of term) }
{
    Ok(Box::new(alloc, term)?)
}

impl Term {
    /// A term without arguments.
    pub fn leaf(alloc: Global, atom: Atom) -> Result<Box<Term>, AllocError>
        ensures { IfOk result (λ t. term_of t.value ≡ tree.Leaf atom) }
    {
        boxed(alloc, Term::Leaf(atom))
    }

    /// An operator with one argument.
    pub fn unary(
        alloc: Global,
        operator: UnaryOperator,
        first: Box<Term>,
    ) -> Result<Box<Term>, AllocError>
        ensures { IfOk result (λ t. term_of t.value ≡ tree.Unary operator (term_of first.value)) }
    {
        boxed(alloc, Term::Unary(operator, first))
    }

    /// An operator with two arguments.
    pub fn binary(
        alloc: Global,
        operator: BinaryOperator,
        first: Box<Term>,
        second: Box<Term>,
    ) -> Result<Box<Term>, AllocError>
        ensures { IfOk result (λ t. term_of t.value
            ≡ tree.Binary operator (term_of first.value) (term_of second.value)) }
    {
        boxed(alloc, Term::Binary(operator, first, second))
    }

    /// An operator with three arguments.
    pub fn ternary(
        alloc: Global,
        operator: TernaryOperator,
        first: Box<Term>,
        second: Box<Term>,
        third: Box<Term>,
    ) -> Result<Box<Term>, AllocError>
        ensures { IfOk result (λ t. term_of t.value
            ≡ tree.Ternary operator (term_of first.value) (term_of second.value)
            (term_of third.value)) }
    {
        boxed(alloc, Term::Ternary(operator, first, second, third))
    }

    /// An operator with four arguments.
    pub fn quaternary(
        alloc: Global,
        operator: QuaternaryOperator,
        a: Box<Term>,
        b: Box<Term>,
        c: Box<Term>,
        d: Box<Term>,
    ) -> Result<Box<Term>, AllocError>
        ensures { IfOk result (λ t. term_of t.value
            ≡ tree.Quaternary operator (term_of a.value) (term_of b.value) (term_of c.value)
            (term_of d.value)) }
    {
        boxed(alloc, Term::Quaternary(operator, a, b, c, d))
    }

    /// The word of eight bytes, the lowest first.
    pub fn octonary(
        alloc: Global,
        a: Box<Term>,
        b: Box<Term>,
        c: Box<Term>,
        d: Box<Term>,
        e: Box<Term>,
        f: Box<Term>,
        g: Box<Term>,
        h: Box<Term>,
    ) -> Result<Box<Term>, AllocError>
        ensures { IfOk result (λ t. term_of t.value
            ≡ tree.Octonary (term_of a.value) (term_of b.value) (term_of c.value) (term_of d.value)
            (term_of e.value) (term_of f.value) (term_of g.value) (term_of h.value)) }
    {
        boxed(alloc, Term::Octonary(a, b, c, d, e, f, g, h))
    }

    /// The same term, in memory of its own.
    pub fn copy(&self, alloc: Global) -> Result<Box<Term>, AllocError>
        ensures { IfOk result (λ t. term_of t.value ≡ term_of self.now) }
    {
        match self {
            Term::Leaf(atom) => Term::leaf(alloc, *atom),
            Term::Unary(operator, a) => Term::unary(alloc, *operator, a.copy(alloc)?),
            Term::Binary(operator, a, b) => {
                let (a, b) = two(a.copy(alloc), b.copy(alloc))?;
                Term::binary(alloc, *operator, a, b)
            }
            Term::Ternary(operator, a, b, c) => {
                let (a, b) = two(a.copy(alloc), b.copy(alloc))?;
                let c = c.copy(alloc)?;
                Term::ternary(alloc, *operator, a, b, c)
            }
            Term::Quaternary(operator, a, b, c, d) => {
                let (a, b) = two(a.copy(alloc), b.copy(alloc))?;
                let (c, d) = two(c.copy(alloc), d.copy(alloc))?;
                Term::quaternary(alloc, *operator, a, b, c, d)
            }
            Term::Octonary(a, b, c, d, e, f, g, h) => {
                let (a, b) = two(a.copy(alloc), b.copy(alloc))?;
                let (c, d) = two(c.copy(alloc), d.copy(alloc))?;
                let (e, f) = two(e.copy(alloc), f.copy(alloc))?;
                let (g, h) = two(g.copy(alloc), h.copy(alloc))?;
                Term::octonary(alloc, a, b, c, d, e, f, g, h)
            }
        }
    }
}

// Two copies, where both were made.
fn two(
    first: Result<Box<Term>, AllocError>,
    second: Result<Box<Term>, AllocError>,
) -> Result<(Box<Term>, Box<Term>), AllocError>
    ensures { (s t : tree.Term) → IfOk first (λ x. term_of x.value ≡ s)
        → IfOk second (λ x. term_of x.value ≡ t)
        → IfOk result (λ p. (term_of p.0.value ≡ s) × (term_of p.1.value ≡ t)) }
{
    Ok((first?, second?))
}

fn sort_with_one(operator: UnaryOperator, first: Option<Sort>) -> Option<Sort>
    ensures { result ≡ spec_sort.with_one (spec_sort.sort_of_unary operator) first }
{
    sort_of_unary(operator, first?)
}

fn sort_with_two(
    operator: BinaryOperator,
    first: Option<Sort>,
    second: Option<Sort>,
) -> Option<Sort>
    ensures { result ≡ spec_sort.with_two (spec_sort.sort_of_binary operator) first second }
{
    sort_of_binary(operator, first?, second?)
}

fn sort_with_three(
    operator: TernaryOperator,
    first: Option<Sort>,
    second: Option<Sort>,
    third: Option<Sort>,
) -> Option<Sort>
    ensures { result ≡ spec_sort.with_three
        (spec_sort.sort_of_ternary operator) first second third }
{
    sort_of_ternary(operator, first?, second?, third?)
}

fn sort_with_four(
    operator: QuaternaryOperator,
    first: Option<Sort>,
    second: Option<Sort>,
    third: Option<Sort>,
    fourth: Option<Sort>,
) -> Option<Sort>
    ensures { result ≡ spec_sort.with_four
        (spec_sort.sort_of_quaternary operator) first second third fourth }
{
    sort_of_quaternary(operator, first?, second?, third?, fourth?)
}

/// The sort of a term, or none where it is not well sorted.
#[tactic(auto, unfolding(term_core_spec::specs::Sort::sort_of))]
pub fn sort(term: &Term) -> Option<Sort>
    ensures { result ≡ spec_sort.sort_of (term_of term.now) }
{
    match term {
        Term::Leaf(atom) => sort_of_atom(*atom),
        Term::Unary(operator, a) => sort_with_one(*operator, sort(a)),
        Term::Binary(operator, a, b) => sort_with_two(*operator, sort(a), sort(b)),
        Term::Ternary(operator, a, b, c) => {
            sort_with_three(*operator, sort(a), sort(b), sort(c))
        }
        Term::Quaternary(operator, a, b, c, d) => {
            sort_with_four(*operator, sort(a), sort(b), sort(c), sort(d))
        }
        Term::Octonary(a, b, c, d, e, f, g, h) => sort_of_octonary([
            sort(a),
            sort(b),
            sort(c),
            sort(d),
            sort(e),
            sort(f),
            sort(g),
            sort(h),
        ]),
    }
}

// A value in a box of its own, where there is one.
fn boxed_value(alloc: Global, value: Result<Value, AllocError>) -> Result<Box<Value>, AllocError>
    ensures { (x : spec.Value) → IfOk value (λ v. value_of v ≡ x)
        → IfOk result (λ v. value_of v.value ≡ x) }
{
    Ok(Box::new(alloc, value?)?)
}

// Two values, where both are there.
fn two_values(
    first: Result<Box<Value>, AllocError>,
    second: Result<Box<Value>, AllocError>,
) -> Result<(Box<Value>, Box<Value>), AllocError>
    ensures { (x y : spec.Value) → IfOk first (λ v. value_of v.value ≡ x)
        → IfOk second (λ v. value_of v.value ≡ y)
        → IfOk result (λ p. (value_of p.0.value ≡ x) × (value_of p.1.value ≡ y)) }
{
    Ok((first?, second?))
}

// The bytes of two values, where both are there.
fn two_bytes(
    first: Result<Box<Value>, AllocError>,
    second: Result<Box<Value>, AllocError>,
) -> Result<(Option<u8>, Option<u8>), AllocError>
    ensures { (x y : spec.Value) → IfOk first (λ v. value_of v.value ≡ x)
        → IfOk second (λ v. value_of v.value ≡ y)
        → IfOk result (λ p. (p.0 ≡ spec.byte_of x) × (p.1 ≡ spec.byte_of y)) }
{
    let first = attempt!(first);
    let second = attempt!(second);
    Ok((byte_of(&first), byte_of(&second)))
}

// The value of a term, in a box.
#[tactic(auto, unfolding(term_core_spec::specs::Value::value))]
fn evaluate(alloc: Global, term: &Term, assignment: &Assignment) -> Result<Box<Value>, AllocError>
    ensures { IfOk result (λ v. value_of v.value
        ≡ spec.value (assignment_of assignment.now) (term_of term.now)) }
{
    match term {
        Term::Leaf(atom) => boxed_value(alloc, assignment.atom(alloc, *atom)),
        Term::Unary(operator, a) => {
            let a = evaluate(alloc, a, assignment)?;
            boxed_value(alloc, Ok(unary(*operator, &a)))
        }
        Term::Binary(operator, a, b) => {
            let (a, b) = two_values(
                evaluate(alloc, a, assignment),
                evaluate(alloc, b, assignment),
            )?;
            boxed_value(alloc, Ok(binary(*operator, &a, &b)))
        }
        Term::Ternary(operator, a, b, c) => {
            let (a, b) = two_values(
                evaluate(alloc, a, assignment),
                evaluate(alloc, b, assignment),
            )?;
            let c = evaluate(alloc, c, assignment)?;
            boxed_value(alloc, ternary(*operator, &a, &b, &c))
        }
        Term::Quaternary(operator, a, b, c, d) => {
            let (a, b) = two_values(
                evaluate(alloc, a, assignment),
                evaluate(alloc, b, assignment),
            )?;
            let (c, d) = two_values(
                evaluate(alloc, c, assignment),
                evaluate(alloc, d, assignment),
            )?;
            boxed_value(alloc, quaternary(*operator, &a, &b, &c, &d))
        }
        Term::Octonary(a, b, c, d, e, f, g, h) => {
            let (a, b) = two_bytes(
                evaluate(alloc, a, assignment),
                evaluate(alloc, b, assignment),
            )?;
            let (c, d) = two_bytes(
                evaluate(alloc, c, assignment),
                evaluate(alloc, d, assignment),
            )?;
            let (e, f) = two_bytes(
                evaluate(alloc, e, assignment),
                evaluate(alloc, f, assignment),
            )?;
            let (g, h) = two_bytes(
                evaluate(alloc, g, assignment),
                evaluate(alloc, h, assignment),
            )?;
            boxed_value(alloc, Ok(octonary(a, b, c, d, [e, f, g, h])))
        }
    }
}

/// The value of a term.
pub fn eval(alloc: Global, term: &Term, assignment: &Assignment) -> Result<Value, AllocError>
    ensures { IfOk result (λ v. value_of v
        ≡ spec.value (assignment_of assignment.now) (term_of term.now)) }
{
    let value = attempt!(evaluate(alloc, term, assignment));
    Ok(Box::into_inner(value))
}
