//! The terms of both sides' variables at a function's entry.

ghost use Rattle.std.specs.Prelude.{◌≡◌, ◌++◌, ◌∷◌, [], ◌<◌, ◌^◌, IfOk, OnOk, Some, None};
ghost use Rattle.std.specs.Prelude.{slice_get};
ghost use Rattle.term_core_spec.specs.Term as tree;
ghost use Rattle.term_core.specs.Trees.{term_of};
ghost use Rattle.decompile_spec.specs.State as code;
ghost use Rattle.agreement_laws.specs.EntryFrame as spec;
ghost use Rattle.agreement_laws.specs.EntryFrame.{argument_facts, zone_facts};
ghost use Rattle.cert_check_frames.specs.Facts.{facts_of, entry_facts, facts_of_local, memory_fact};
ghost use Rattle.cert_check_frames.specs.Facts.{binary_facts_of, source_facts_of};
ghost use Rattle.cert_check_frames.specs.Facts.{memory_over_zone};

use crate::Fact;
use attempt::attempt;
use c_graph_terms::{ZONE_HIGH, ZONE_LOW, is_set, local, width_of};
use c_types_spec::Scalar;
use cert_check_relations::{STACK_POINTER, at_entry, variable, widened, zone_from};
use sim_rules_terms::{open, overlaid};
use std::alloc::{AllocError, Global};
use term_core::Term;
use term_core_spec::{Atom, Family, Sort, Variable, Width};

const FIRST_ARGUMENT: usize = 10;

/// All registers but x0.
const REGISTERS: [usize; 31] = [
    1, 2, 3, 4, 5, 6, 7, 8, 9, 10, 11, 12, 13, 14, 15, 16, 17, 18, 19, 20, 21, 22, 23, 24, 25, 26,
    27, 28, 29, 30, 31,
];

/// The terms of variables at a function's entry, the first of each; others are themselves.
#[derive(Drop)]
pub struct Facts {
    /// Of the binary's variables.
    pub binary: Vec<Fact>,
    /// Of the source's.
    pub source: Vec<Fact>,
}

// Adds that a variable has the value of a term.
fn add_fact(
    facts: &mut Vec<Fact>,
    variable: Variable,
    term: Result<Box<Term>, AllocError>,
) -> Result<(), AllocError>
    ensures { (s : tree.Term) → IfOk term (λ x. term_of x.value ≡ s)
        → OnOk result (facts_of facts.new.items
        ≡ facts_of facts.old.items ++ record { variable = variable; term = s } ∷ []) }
{
    let term = attempt!(term);
    attempt!(facts.push(Fact { variable, term }), AllocError);
    Ok(())
}

fn register(number: usize) -> Variable
    ensures { result ≡ code.register number }
{
    variable(Family::Register, number, Sort::Word(Width::W32))
}

fn parameter(number: usize, of: Scalar) -> Variable
    ensures { result ≡ spec.parameter number of }
{
    variable(Family::Parameter, number, Sort::Word(width_of(of)))
}

// ---- of the binary

// Adds that the register of an argument has the parameter of that number, widened.
fn add_argument(
    alloc: Global,
    facts: &mut Vec<Fact>,
    number: usize,
    of: Scalar,
) -> Result<(), AllocError>
    requires { number < 2 ^ 63 }
    ensures { OnOk result (facts_of facts.new.items
        ≡ facts_of facts.old.items ++ argument_facts number (of ∷ [])) }
{
    let value = widened(alloc, of, parameter(number, of));
    add_fact(facts, register(FIRST_ARGUMENT + number), value)
}

// Adds that the registers of arguments have the parameters.
fn add_arguments(
    alloc: Global,
    facts: &mut Vec<Fact>,
    parameters: &[Scalar],
) -> Result<(), AllocError>
    ensures { OnOk result (facts_of facts.new.items
        ≡ facts_of facts.old.items ++ argument_facts 0 parameters.now) }
{
    for number in 0..parameters.len() {
        attempt!(add_argument(alloc, facts, number, parameters[number]));
    }
    Ok(())
}

// Adds that a register has its value at entry.
fn add_register(alloc: Global, facts: &mut Vec<Fact>, number: usize) -> Result<(), AllocError>
    ensures { OnOk result (facts_of facts.new.items
        ≡ facts_of facts.old.items ++ entry_facts (number ∷ [])) }
{
    add_fact(facts, register(number), at_entry(alloc, number))
}

// Adds that registers have their values at entry.
fn add_registers(
    alloc: Global,
    facts: &mut Vec<Fact>,
    registers: &[usize],
) -> Result<(), AllocError>
    ensures { OnOk result (facts_of facts.new.items
        ≡ facts_of facts.old.items ++ entry_facts registers.now) }
{
    for index in 0..registers.len() {
        attempt!(add_register(alloc, facts, registers[index]));
    }
    Ok(())
}

// The binary's memory at an entry: the source's, with the zone's over it.
fn over_zone(alloc: Global, stack: u32) -> Result<Box<Term>, AllocError>
    ensures { IfOk result (λ t. term_of t.value ≡ memory_over_zone stack) }
{
    overlaid(
        alloc,
        open(alloc, variable(Family::SourceMemory, 0, Sort::Memory)),
        open(alloc, variable(Family::ZoneMemory, 0, Sort::Memory)),
        zone_from(alloc, stack),
        at_entry(alloc, STACK_POINTER),
    )
}

// Adds what the binary's memory is.
fn add_memory(alloc: Global, facts: &mut Vec<Fact>, stack: u32) -> Result<(), AllocError>
    ensures { OnOk result (facts_of facts.new.items
        ≡ facts_of facts.old.items ++ memory_fact stack ∷ []) }
{
    let memory = variable(Family::BinaryMemory, 0, Sort::Memory);
    add_fact(facts, memory, over_zone(alloc, stack))
}

// The binary's: registers of arguments have the parameters, widened, each other register its value
// at entry; and its memory is the source's with the zone's over it.
fn binary_facts(alloc: Global, stack: u32, parameters: &[Scalar]) -> Result<Vec<Fact>, AllocError>
    ensures { IfOk result (λ facts. facts_of facts.items ≡ binary_facts_of stack parameters.now) }
{
    let mut facts = Vec::new(alloc);
    attempt!(add_arguments(alloc, &mut facts, parameters));
    attempt!(add_registers(alloc, &mut facts, &REGISTERS));
    attempt!(add_memory(alloc, &mut facts, stack));
    Ok(facts)
}

// ---- of the source

// Adds that a local is a parameter: it is set, and has its value.
fn add_parameter(
    alloc: Global,
    facts: &mut Vec<Fact>,
    number: usize,
    of: Scalar,
) -> Result<(), AllocError>
    ensures { OnOk result (facts_of facts.new.items
        ≡ facts_of facts.old.items ++ facts_of_local number (Some of)) }
{
    let set = Term::leaf(alloc, Atom::Truth(true));
    attempt!(add_fact(facts, is_set(number), set));
    let value = open(alloc, parameter(number, of));
    add_fact(facts, local(number, of), value)
}

// Adds that a local is not set.
fn add_unset(alloc: Global, facts: &mut Vec<Fact>, number: usize) -> Result<(), AllocError>
    ensures { OnOk result (facts_of facts.new.items
        ≡ facts_of facts.old.items ++ facts_of_local number None) }
{
    add_fact(facts, is_set(number), Term::leaf(alloc, Atom::Truth(false)))
}

// Adds what a local is: parameters are the first.
fn add_local(
    alloc: Global,
    facts: &mut Vec<Fact>,
    number: usize,
    parameters: &[Scalar],
) -> Result<(), AllocError>
    ensures { OnOk result (facts_of facts.new.items
        ≡ facts_of facts.old.items ++ facts_of_local number (slice_get parameters.now number)) }
{
    match parameters.get(number) {
        Some(of) => add_parameter(alloc, facts, number, *of),
        None => add_unset(alloc, facts, number),
    }
}

// Adds what the locals are.
fn add_locals(
    alloc: Global,
    facts: &mut Vec<Fact>,
    parameters: &[Scalar],
    locals: &[Scalar],
) -> Result<(), AllocError>
    ensures { OnOk result (facts_of facts.new.items
        ≡ facts_of facts.old.items ++ spec.local_facts 0 parameters.now locals.now) }
{
    for number in 0..locals.len() {
        attempt!(add_local(alloc, facts, number, parameters));
    }
    Ok(())
}

// Adds where the zone is.
fn add_zone(alloc: Global, facts: &mut Vec<Fact>, stack: u32) -> Result<(), AllocError>
    ensures { OnOk result (facts_of facts.new.items
        ≡ facts_of facts.old.items ++ zone_facts stack) }
{
    attempt!(add_fact(facts, ZONE_LOW, zone_from(alloc, stack)));
    add_fact(facts, ZONE_HIGH, at_entry(alloc, STACK_POINTER))
}

// The source's: its locals, and the ends of the zone.
fn source_facts(
    alloc: Global,
    stack: u32,
    parameters: &[Scalar],
    locals: &[Scalar],
) -> Result<Vec<Fact>, AllocError>
    ensures { IfOk result (λ facts. facts_of facts.items
        ≡ source_facts_of stack parameters.now locals.now) }
{
    let mut facts = Vec::new(alloc);
    attempt!(add_locals(alloc, &mut facts, parameters, locals));
    attempt!(add_zone(alloc, &mut facts, stack));
    Ok(facts)
}

impl Facts {
    /// Those of a function that takes so much stack, and whose parameters and locals have these
    /// types.
    pub(crate) fn new(
        alloc: Global,
        stack: u32,
        parameters: &[Scalar],
        locals: &[Scalar],
    ) -> Result<Facts, AllocError>
        ensures binary { IfOk result (λ made. facts_of made.binary.items
            ≡ binary_facts_of stack parameters.now) }
        ensures source { IfOk result (λ made. facts_of made.source.items
            ≡ source_facts_of stack parameters.now locals.now) }
    {
        let binary = attempt!(binary_facts(alloc, stack, parameters));
        let source = attempt!(source_facts(alloc, stack, parameters, locals));
        Ok(Facts { binary, source })
    }
}
