//! What a call relies on at its callee.

ghost use Rattle.std.specs.Prelude.{◌≡◌, ◌∷◌, [], ◌++◌, ◌<◌, ◌^◌, ◌+◌, IfOk, Option, OnOk};
ghost use Rattle.std.specs.Prelude.{option_map};
ghost use Rattle.c_graph_spec.specs.State as state;
ghost use Rattle.graph_core.specs.Graphs.{boxed_term};
ghost use Rattle.proof_tree.specs.Frames.{terms_of};
ghost use Rattle.sim_rules_spec.specs.Calling as calling;
ghost use Rattle.sim_rules_spec.specs.Points as points;
ghost use Rattle.sim_calls.specs.Callees.{IsCalleeOf, argument_lines, callee_by, result_term};
ghost use Rattle.sim_calls.specs.Callees.{widened, zone_lines};
ghost use Rattle.term_core.specs.Trees.{term_of};
ghost use Rattle.term_core_spec.specs.Term as tree;

use crate::variables::{
    ENTRY_GLOBAL_POINTER, FIRST_ARGUMENT, GLOBAL_POINTER, RETURN_ADDRESS, STACK_POINTER,
    machine_register,
};
use c_graph_terms::{local, result_of};
use c_types_spec::Scalar;
use sim_rules_terms::{negated, open, over_two, word};
use std::alloc::{AllocError, Global};
use term_core::Term;
use term_core_spec::{BinaryOperator, UnaryOperator, Variable, Width, WordOperator};

/// The bitwise `and` of two words.
const MASK: BinaryOperator = BinaryOperator::Word(WordOperator::And);

/// The difference of two words.
const SUBTRACT: BinaryOperator = BinaryOperator::Word(WordOperator::Subtract);

/// What a call relies on at its callee (`sim_rules_spec`, `specs/Calls.antt`).
#[derive(Drop)]
pub struct Callee {
    /// How many bytes below its stack pointer it takes.
    pub stack: u32,
    /// What is asked where it begins, beside memory: its arguments, the return address, the stack
    /// pointer, the caller's zone and the global pointer, in this order.
    pub lines: Vec<Box<Term>>,
    /// Its result, widened to a word, over the words of a source's state that has returned.
    pub result: Option<Box<Term>>,
}

// The value of a variable of a type, widened to a word by the sign of the type.
fn widened(alloc: Global, of: Scalar, variable: Variable) -> Result<Box<Term>, AllocError>
    ensures { IfOk result (λ t. term_of t.value ≡ widened of variable) }
{
    let value = open(alloc, variable)?;
    if of.width < 32 {
        if of.is_signed {
            Term::unary(alloc, UnaryOperator::SignExtend(Width::W32), value)
        } else {
            Term::unary(alloc, UnaryOperator::ZeroExtend(Width::W32), value)
        }
    } else if 32 < of.width {
        Term::unary(alloc, UnaryOperator::Low(Width::W32), value)
    } else {
        Ok(value)
    }
}

// The register of an argument has the parameter of that number, widened.
fn argument_line(alloc: Global, number: usize, of: Scalar) -> Result<Box<Term>, AllocError>
    requires { number < 2 ^ 63 }
    ensures { IfOk result (λ t. term_of t.value ≡ tree.equal (calling.register (10 + number))
        (widened of (state.local number of))) }
{
    over_two(
        alloc,
        BinaryOperator::Equal,
        open(alloc, machine_register(FIRST_ARGUMENT + number)),
        widened(alloc, of, local(number, of)),
    )
}

// The bits of a mask are 0 in a register.
fn aligned(alloc: Global, register: usize, mask: u32) -> Result<Box<Term>, AllocError>
    ensures { IfOk result (λ t. term_of t.value ≡ tree.equal
        (tree.bit_and (calling.register register) (calling.word mask)) (calling.word 0)) }
{
    let masked = over_two(
        alloc,
        MASK,
        open(alloc, machine_register(register)),
        word(alloc, mask),
    );
    over_two(alloc, BinaryOperator::Equal, masked, word(alloc, 0))
}

// The first of two words is not below the second.
fn not_below(
    alloc: Global,
    first: Result<Box<Term>, AllocError>,
    second: Result<Box<Term>, AllocError>,
) -> Result<Box<Term>, AllocError>
    ensures { (s t : tree.Term) → IfOk first (λ x. term_of x.value ≡ s)
        → IfOk second (λ x. term_of x.value ≡ t)
        → IfOk result (λ x. term_of x.value ≡ tree.not_term (tree.less s t)) }
{
    let below = over_two(alloc, BinaryOperator::Less, first, second);
    negated(alloc, below)
}

// The stack pointer.
fn stack_pointer(alloc: Global) -> Result<Box<Term>, AllocError>
    ensures { IfOk result (λ t. term_of t.value ≡ calling.register 2) }
{
    open(alloc, machine_register(STACK_POINTER))
}

// The zone has room for the callee's stack.
fn has_room(alloc: Global, from: &Term, stack: u32) -> Result<Box<Term>, AllocError>
    ensures { IfOk result (λ t. term_of t.value ≡ tree.not_term
        (tree.less (tree.subtract (calling.register 2) (term_of from.now))
        (calling.word stack))) }
{
    let room = over_two(alloc, SUBTRACT, stack_pointer(alloc), from.copy(alloc));
    not_below(alloc, room, word(alloc, stack))
}

// The global pointer is as at the caller's entry.
fn global_pointer(alloc: Global) -> Result<Box<Term>, AllocError>
    ensures { IfOk result (λ t. term_of t.value
        ≡ tree.equal (calling.register 3) (calling.at_entry 3)) }
{
    over_two(
        alloc,
        BinaryOperator::Equal,
        open(alloc, machine_register(GLOBAL_POINTER)),
        open(alloc, ENTRY_GLOBAL_POINTER),
    )
}

// Adds a line.
fn add_line(
    lines: &mut Vec<Box<Term>>,
    line: Result<Box<Term>, AllocError>,
) -> Result<(), AllocError>
    ensures { (s : tree.Term) → IfOk line (λ x. term_of x.value ≡ s)
        → OnOk result (terms_of lines.new.items ≡ terms_of lines.old.items ++ s ∷ []) }
{
    let line = line?;
    lines.push(line)?;
    Ok(())
}

// Adds a line for each argument.
fn add_arguments(
    alloc: Global,
    lines: &mut Vec<Box<Term>>,
    parameters: &[Scalar],
) -> Result<(), AllocError>
    ensures { OnOk result (terms_of lines.new.items
        ≡ terms_of lines.old.items ++ argument_lines 0 parameters.now) }
{
    for number in 0..parameters.len() {
        add_line(lines, argument_line(alloc, number, parameters[number]))?;
    }
    Ok(())
}

// Adds the lines on the registers of the return address, the stack and the global pointer.
fn add_zone_lines(
    alloc: Global,
    lines: &mut Vec<Box<Term>>,
    from: &Term,
    to: &Term,
    stack: u32,
) -> Result<(), AllocError>
    ensures { OnOk result (terms_of lines.new.items
        ≡ terms_of lines.old.items ++ zone_lines (term_of from.now) (term_of to.now) stack) }
{
    add_line(lines, aligned(alloc, RETURN_ADDRESS, 3))?;
    add_line(lines, aligned(alloc, STACK_POINTER, 15))?;
    add_line(
        lines,
        not_below(alloc, stack_pointer(alloc), from.copy(alloc)),
    )?;
    add_line(lines, has_room(alloc, from, stack))?;
    add_line(
        lines,
        not_below(alloc, to.copy(alloc), stack_pointer(alloc)),
    )?;
    add_line(lines, global_pointer(alloc))?;
    Ok(())
}

// The result of a function, widened to a word, if it has one.
fn result_term(alloc: Global, of: Option<Scalar>) -> Result<Option<Box<Term>>, AllocError>
    ensures { IfOk result (λ t. option_map boxed_term t ≡ result_term of) }
{
    match of {
        Some(of) => {
            let term = widened(alloc, of, result_of(of))?;
            Ok(Some(term))
        }
        None => Ok(None),
    }
}

impl Callee {
    /// A function with parameters and a result of these types that takes so much stack, as a
    /// caller sees it whose zone is from the first address to below the second (psABI, ILP32).
    pub fn new(
        alloc: Global,
        from: &Term,
        to: &Term,
        stack: u32,
        parameters: &[Scalar],
        result_type: Option<Scalar>,
    ) -> Result<Callee, AllocError>
        ensures { (c : points.Convention) → c.zone_from ≡ term_of from.now
            → c.zone_to ≡ term_of to.now → IfOk result (IsCalleeOf c
            (callee_by stack parameters.now result_type)) }
    {
        let result = result_term(alloc, result_type)?;
        let mut lines = Vec::new(alloc);
        add_arguments(alloc, &mut lines, parameters)?;
        add_zone_lines(alloc, &mut lines, from, to, stack)?;
        Ok(Callee {
            stack,
            lines,
            result,
        })
    }
}
