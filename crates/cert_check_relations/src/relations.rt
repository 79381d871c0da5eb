//! What holds at a function's entry, and where it returns.

ghost use Rattle.std.specs.Prelude.{◌≡◌, ◌++◌, ◌∷◌, [], IfOk, OnOk, map};
ghost use Rattle.std.specs.Prelude.{nat_lt, if◌then◌else◌};
ghost use Rattle.term_core_spec.specs.Term as tree;
ghost use Rattle.term_core.specs.Trees.{term_of};
ghost use Rattle.memory_spec.specs.Viewed.{run_of, runs_of};
ghost use Rattle.proof_tree.specs.Frames.{terms_of};
ghost use Rattle.sim_rules_spec.specs.Calling as calling;
ghost use Rattle.c_graph_spec.specs.State as state;
ghost use Rattle.agreement_laws.specs.EntryFrame as spec;
ghost use Rattle.cert_check_relations.specs.Lines.{first_lines, kept_lines, zone_lines};

use crate::terms::{STACK_POINTER, at_entry, constant, register, widened, zone_from};
use attempt::attempt;
use c_graph_terms::result_of;
use c_types_spec::Scalar;
use memory_spec::Run;
use sim_rules_terms::{negated, over_two, word};
use std::alloc::{AllocError, Global};
use term_core::Term;
use term_core_spec::{BinaryOperator, WordOperator};

const RETURN_ADDRESS: usize = 1;

const GLOBAL_POINTER: usize = 3;

const RESULT: usize = 10;

/// The stack pointer, the global and the thread pointer, and the registers that a callee saves.
const KEPT: [usize; 15] = [2, 3, 4, 8, 9, 18, 19, 20, 21, 22, 23, 24, 25, 26, 27];

/// What holds at a function's entry, and where it returns.
#[derive(Drop)]
pub struct Relations {
    /// What holds at its entry.
    pub lines: Vec<Box<Term>>,
    /// What holds where it returns, beside memory.
    pub returns: Vec<Box<Term>>,
}

// Adds a line.
fn add_line(
    lines: &mut Vec<Box<Term>>,
    line: Result<Box<Term>, AllocError>,
) -> Result<(), AllocError>
    ensures { (s : tree.Term) → IfOk line (λ x. term_of x.value ≡ s)
        → OnOk result (terms_of lines.new.items ≡ terms_of lines.old.items ++ s ∷ []) }
{
    let line = attempt!(line);
    attempt!(lines.push(line), AllocError);
    Ok(())
}

// ---- at the entry

// A register is a multiple of a power of two at entry, of which this is the mask.
fn aligned(alloc: Global, register: usize, mask: u32) -> Result<Box<Term>, AllocError>
    ensures { IfOk result (λ t. term_of t.value ≡ tree.equal
        (tree.bit_and (calling.at_entry register) (calling.word mask)) (calling.word 0)) }
{
    let masked = over_two(
        alloc,
        BinaryOperator::Word(WordOperator::And),
        at_entry(alloc, register),
        word(alloc, mask),
    );
    over_two(alloc, BinaryOperator::Equal, masked, word(alloc, 0))
}

// The stack has room for so many bytes.
fn has_room(alloc: Global, stack: u32) -> Result<Box<Term>, AllocError>
    ensures { IfOk result (λ t. term_of t.value ≡ tree.not_term
        (tree.less (calling.at_entry 2) (calling.word stack))) }
{
    let below = over_two(
        alloc,
        BinaryOperator::Less,
        at_entry(alloc, STACK_POINTER),
        word(alloc, stack),
    );
    negated(alloc, below)
}

// The global pointer has this value.
fn points_to(alloc: Global, pointer: u32) -> Result<Box<Term>, AllocError>
    ensures { IfOk result (λ t. term_of t.value
        ≡ tree.equal (calling.at_entry 3) (calling.word pointer)) }
{
    over_two(
        alloc,
        BinaryOperator::Equal,
        at_entry(alloc, GLOBAL_POINTER),
        word(alloc, pointer),
    )
}

// Adds that the global pointer is the file's, where it has one.
fn add_pointer(
    alloc: Global,
    lines: &mut Vec<Box<Term>>,
    pointer: Option<u32>,
) -> Result<(), AllocError>
    ensures { OnOk result (terms_of lines.new.items
        ≡ terms_of lines.old.items ++ calling.global_pointer_lines pointer) }
{
    match pointer {
        Some(pointer) => add_line(lines, points_to(alloc, pointer)),
        None => Ok(()),
    }
}

// Bytes from the first to the last of these addresses don't meet the zone: it ends at the first or
// below, or begins above the last.
fn outside(alloc: Global, stack: u32, first: u32, last: u64) -> Result<Box<Term>, AllocError>
    ensures { IfOk result (λ t. term_of t.value
        ≡ calling.outside_zone stack (record { first = first; last = last })) }
{
    let begins_below = over_two(
        alloc,
        BinaryOperator::Less,
        word(alloc, first),
        at_entry(alloc, STACK_POINTER),
    );
    let ends_below = over_two(
        alloc,
        BinaryOperator::Less,
        constant(alloc, last),
        zone_from(alloc, stack),
    );
    over_two(
        alloc,
        BinaryOperator::Or,
        negated(alloc, begins_below),
        ends_below,
    )
}

// A run of fixed bytes doesn't meet the zone.
fn run_outside(alloc: Global, stack: u32, run: &Run) -> Result<Box<Term>, AllocError>
    ensures { IfOk result (λ t. term_of t.value
        ≡ calling.outside_zone stack (spec.run_of (run_of run.now))) }
{
    let end = u64::from(run.start) + run.bytes.len() as u64;
    outside(alloc, stack, run.start, end.saturating_sub(1))
}

// Adds that no run of fixed bytes meets the zone.
fn add_runs(
    alloc: Global,
    lines: &mut Vec<Box<Term>>,
    stack: u32,
    runs: &[Run],
) -> Result<(), AllocError>
    ensures { OnOk result (terms_of lines.new.items
        ≡ terms_of lines.old.items ++ zone_lines stack (runs_of runs.now)) }
{
    for index in 0..runs.len() {
        attempt!(add_line(lines, run_outside(alloc, stack, &runs[index])));
    }
    Ok(())
}

// Adds what holds at the entry of a function that takes so much stack, but for its zone.
fn add_entry(
    alloc: Global,
    lines: &mut Vec<Box<Term>>,
    stack: u32,
    pointer: Option<u32>,
) -> Result<(), AllocError>
    ensures { OnOk result (terms_of lines.new.items
        ≡ terms_of lines.old.items ++ first_lines stack pointer) }
{
    attempt!(add_line(lines, aligned(alloc, RETURN_ADDRESS, 3)));
    attempt!(add_line(lines, aligned(alloc, STACK_POINTER, 15)));
    attempt!(add_line(lines, has_room(alloc, stack)));
    attempt!(add_pointer(alloc, lines, pointer));
    Ok(())
}

// Adds that no run of fixed bytes meets the zone, where there is one.
fn add_zone(
    alloc: Global,
    lines: &mut Vec<Box<Term>>,
    stack: u32,
    runs: &[Run],
) -> Result<(), AllocError>
    ensures { OnOk result (terms_of lines.new.items ≡ terms_of lines.old.items
        ++ (if nat_lt 0 stack then zone_lines stack (runs_of runs.now) else [])) }
{
    if 0 < stack {
        add_runs(alloc, lines, stack, runs)
    } else {
        Ok(())
    }
}

// What holds at the entry of a function that takes so much stack.
fn entry_lines(
    alloc: Global,
    stack: u32,
    pointer: Option<u32>,
    runs: &[Run],
) -> Result<Vec<Box<Term>>, AllocError>
    ensures { IfOk result (λ lines. terms_of lines.items
        ≡ calling.entry_lines stack pointer (map spec.run_of (runs_of runs.now))) }
{
    let mut lines = Vec::new(alloc);
    attempt!(add_entry(alloc, &mut lines, stack, pointer));
    attempt!(add_zone(alloc, &mut lines, stack, runs));
    Ok(lines)
}

// ---- where a function returns

// A register has its value at entry.
fn is_kept(alloc: Global, number: usize) -> Result<Box<Term>, AllocError>
    ensures { IfOk result (λ t. term_of t.value
        ≡ tree.equal (calling.register number) (calling.at_entry number)) }
{
    over_two(
        alloc,
        BinaryOperator::Equal,
        register(alloc, number),
        at_entry(alloc, number),
    )
}

// Adds that registers have their values at entry.
fn add_kept(
    alloc: Global,
    lines: &mut Vec<Box<Term>>,
    registers: &[usize],
) -> Result<(), AllocError>
    ensures { OnOk result (terms_of lines.new.items
        ≡ terms_of lines.old.items ++ kept_lines registers.now) }
{
    for index in 0..registers.len() {
        attempt!(add_line(lines, is_kept(alloc, registers[index])));
    }
    Ok(())
}

// The result of a type, widened, is in its register.
fn has_result(alloc: Global, of: Scalar) -> Result<Box<Term>, AllocError>
    ensures { IfOk result (λ t. term_of t.value
        ≡ tree.equal (calling.register 10) (spec.widened of (state.result of))) }
{
    over_two(
        alloc,
        BinaryOperator::Equal,
        register(alloc, RESULT),
        widened(alloc, of, result_of(of)),
    )
}

// Adds where the result is, if there is one.
fn add_result(
    alloc: Global,
    lines: &mut Vec<Box<Term>>,
    result_type: Option<Scalar>,
) -> Result<(), AllocError>
    ensures { OnOk result (terms_of lines.new.items
        ≡ terms_of lines.old.items ++ calling.result_lines (spec.result_term result_type)) }
{
    match result_type {
        Some(of) => add_line(lines, has_result(alloc, of)),
        None => Ok(()),
    }
}

// What holds where a function returns whose result has this type: its result, and the registers
// that a callee keeps (psABI, integer register convention).
fn return_lines(alloc: Global, result_type: Option<Scalar>) -> Result<Vec<Box<Term>>, AllocError>
    ensures { IfOk result (λ lines. terms_of lines.items
        ≡ calling.return_lines (spec.result_term result_type)) }
{
    let mut lines = Vec::new(alloc);
    attempt!(add_result(alloc, &mut lines, result_type));
    attempt!(add_kept(alloc, &mut lines, &KEPT));
    Ok(lines)
}

impl Relations {
    /// Those of a function that takes so much stack and whose result has this type, in a file that
    /// has this global pointer and these fixed bytes.
    pub fn new(
        alloc: Global,
        stack: u32,
        pointer: Option<u32>,
        runs: &[Run],
        result_type: Option<Scalar>,
    ) -> Result<Relations, AllocError>
        ensures lines { IfOk result (λ made. terms_of made.lines.items
            ≡ calling.entry_lines stack pointer (map spec.run_of (runs_of runs.now))) }
        ensures returns { IfOk result (λ made. terms_of made.returns.items
            ≡ calling.return_lines (spec.result_term result_type)) }
    {
        let lines = attempt!(entry_lines(alloc, stack, pointer, runs));
        let returns = attempt!(return_lines(alloc, result_type));
        Ok(Relations { lines, returns })
    }
}
