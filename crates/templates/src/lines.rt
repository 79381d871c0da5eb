//! The lines, in order.

ghost use Rattle.std.specs.Prelude.{◌++◌, [], IfOk, OnOk, length, map};
ghost use Rattle.term_bank.specs.Nodes.{tree_at};
ghost use Rattle.c_graph_terms.specs.Tables.{AreWithin};
ghost use Rattle.templates_spec.specs.Templates as spec;
ghost use Rattle.templates.specs.Added.{AreAdded};
ghost use Rattle.templates.specs.Viewed.{facts_of, place_lines, pointers_at, sums_of};

use crate::adding::{Leaves, add_leaves, add_on_all};
use crate::facts::Facts;
use crate::slots::{slots, widened};
use crate::words::{add_all_words, add_loaded, add_orders};
use attempt::attempt;
use std::alloc::{AllocError, Global};
use term_bank::{Bank, TermId};
use term_core_spec::{BinaryOperator, WordOperator};

const ADD: BinaryOperator = BinaryOperator::Word(WordOperator::Add);

const SUBTRACT: BinaryOperator = BinaryOperator::Word(WordOperator::Subtract);

const MULTIPLY: BinaryOperator = BinaryOperator::Word(WordOperator::Multiply);

/// The stack pointer.
const STACK_POINTER: u64 = 2;

/// The frame pointer.
const FRAME_POINTER: u64 = 8;

/// The registers but x0 and the stack pointer.
const REGISTERS: [u64; 30] = [
    1, 3, 4, 5, 6, 7, 8, 9, 10, 11, 12, 13, 14, 15, 16, 17, 18, 19, 20, 21, 22, 23, 24, 25, 26, 27,
    28, 29, 30, 31,
];

/// By what locals are multiplied in a sum.
const SCALES: [u64; 4] = [1, 2, 4, 8];

// Adds the addresses so far below the stack pointer at entry.
fn add_below(
    alloc: Global,
    bank: &mut Bank,
    ids: &mut Vec<TermId>,
    numbers: &[u64],
) -> Result<(), AllocError>
    requires { AreWithin (length bank.old) ids.old.items }
    ensures { OnOk result (AreAdded bank.old bank.new ids.old.items ids.new.items
        (map spec.below_entry numbers.now)) }
{
    let mut pointer = Vec::new(alloc);
    attempt!(add_leaves(bank, &mut pointer, Leaves::Entries, &[STACK_POINTER]));
    let mut words = Vec::new(alloc);
    attempt!(add_leaves(bank, &mut words, Leaves::Numbers, numbers));
    add_on_all(bank, ids, SUBTRACT, pointer.as_slice(), words.as_slice())
}

// Adds the words of the stack so far below the stack pointer at entry.
fn add_slots(
    alloc: Global,
    bank: &mut Bank,
    ids: &mut Vec<TermId>,
    numbers: &[u64],
) -> Result<(), AllocError>
    requires { AreWithin (length bank.old) ids.old.items }
    ensures { OnOk result (AreAdded bank.old bank.new ids.old.items ids.new.items
        (map spec.slot numbers.now)) }
{
    let mut addresses = Vec::new(alloc);
    attempt!(add_below(alloc, bank, &mut addresses, numbers));
    add_loaded(alloc, bank, ids, addresses.as_slice())
}

// Adds the places: the registers, and words of the stack.
fn add_places(
    alloc: Global,
    bank: &mut Bank,
    ids: &mut Vec<TermId>,
    slots: &[u64],
) -> Result<(), AllocError>
    requires { AreWithin (length bank.old) ids.old.items }
    ensures { OnOk result (AreAdded bank.old bank.new ids.old.items ids.new.items
        (map spec.register spec.registers ++ map spec.slot slots.now)) }
{
    attempt!(add_leaves(bank, ids, Leaves::Registers, &REGISTERS));
    add_slots(alloc, bank, ids, slots)
}

// Adds what a sum may begin with: a parameter, the address of a global, or a local.
fn add_bases(
    alloc: Global,
    bank: &mut Bank,
    ids: &mut Vec<TermId>,
    facts: &Facts,
) -> Result<(), AllocError>
    requires { AreWithin (length bank.old) ids.old.items }
    ensures { OnOk result (AreAdded bank.old bank.new ids.old.items ids.new.items
        (spec.bases (facts_of facts.now))) }
{
    attempt!(add_all_words(alloc, bank, ids, facts.parameters.as_slice()));
    let globals = attempt!(widened(alloc, facts.globals.as_slice()));
    attempt!(add_leaves(bank, ids, Leaves::Numbers, globals.as_slice()));
    add_all_words(alloc, bank, ids, facts.locals.as_slice())
}

// Adds the sums of these with a local, scaled.
fn add_sums(
    alloc: Global,
    bank: &mut Bank,
    ids: &mut Vec<TermId>,
    facts: &Facts,
) -> Result<(), AllocError>
    requires { AreWithin (length bank.old) ids.old.items }
    ensures { OnOk result (AreAdded bank.old bank.new ids.old.items ids.new.items
        (sums_of (facts_of facts.now))) }
{
    let mut bases = Vec::new(alloc);
    attempt!(add_bases(alloc, bank, &mut bases, facts));
    let mut locals = Vec::new(alloc);
    attempt!(add_all_words(alloc, bank, &mut locals, facts.locals.as_slice()));
    let mut scales = Vec::new(alloc);
    attempt!(add_leaves(bank, &mut scales, Leaves::Numbers, &SCALES));
    let mut scaled = Vec::new(alloc);
    attempt!(add_on_all(
        bank,
        &mut scaled,
        MULTIPLY,
        scales.as_slice(),
        locals.as_slice()
    ));
    add_on_all(bank, ids, ADD, bases.as_slice(), scaled.as_slice())
}

// Adds the lines of the stack pointer and the frame pointer.
fn add_pointer_lines(
    alloc: Global,
    bank: &mut Bank,
    lines: &mut Vec<TermId>,
    depths: &[u64],
) -> Result<(), AllocError>
    requires { AreWithin (length bank.old) lines.old.items }
    ensures { OnOk result (AreAdded bank.old bank.new lines.old.items lines.new.items
        (pointers_at depths.now)) }
{
    let mut pointers = Vec::new(alloc);
    let numbers = [STACK_POINTER, FRAME_POINTER];
    attempt!(add_leaves(bank, &mut pointers, Leaves::Registers, &numbers));
    let mut below = Vec::new(alloc);
    attempt!(add_below(alloc, bank, &mut below, depths));
    add_on_all(
        bank,
        lines,
        BinaryOperator::Equal,
        pointers.as_slice(),
        below.as_slice(),
    )
}

// Adds the lines of places that have what a register had at entry.
fn add_entry_lines(
    alloc: Global,
    bank: &mut Bank,
    lines: &mut Vec<TermId>,
    facts: &Facts,
    places: &[TermId],
) -> Result<(), AllocError>
    requires places { AreWithin (length bank.old) places.now }
    requires lines { AreWithin (length bank.old) lines.old.items }
    ensures { OnOk result (AreAdded bank.old bank.new lines.old.items lines.new.items
        (spec.entry_lines (facts_of facts.now) (map (tree_at bank.old) places.now))) }
{
    let numbers = attempt!(widened(alloc, facts.entries.as_slice()));
    let mut entries = Vec::new(alloc);
    attempt!(add_leaves(bank, &mut entries, Leaves::Entries, numbers.as_slice()));
    add_on_all(
        bank,
        lines,
        BinaryOperator::Equal,
        places,
        entries.as_slice(),
    )
}

// Adds the lines of places that have the value of a local.
fn add_local_lines(
    alloc: Global,
    bank: &mut Bank,
    lines: &mut Vec<TermId>,
    facts: &Facts,
    places: &[TermId],
) -> Result<(), AllocError>
    requires places { AreWithin (length bank.old) places.now }
    requires lines { AreWithin (length bank.old) lines.old.items }
    ensures { OnOk result (AreAdded bank.old bank.new lines.old.items lines.new.items
        (spec.local_lines (facts_of facts.now) (map (tree_at bank.old) places.now))) }
{
    let mut locals = Vec::new(alloc);
    attempt!(add_all_words(alloc, bank, &mut locals, facts.locals.as_slice()));
    add_on_all(
        bank,
        lines,
        BinaryOperator::Equal,
        places,
        locals.as_slice(),
    )
}

// Adds the lines of places that have such a sum.
fn add_sum_lines(
    alloc: Global,
    bank: &mut Bank,
    lines: &mut Vec<TermId>,
    facts: &Facts,
    places: &[TermId],
) -> Result<(), AllocError>
    requires places { AreWithin (length bank.old) places.now }
    requires lines { AreWithin (length bank.old) lines.old.items }
    ensures { OnOk result (AreAdded bank.old bank.new lines.old.items lines.new.items
        (spec.sum_lines (facts_of facts.now) (map (tree_at bank.old) places.now))) }
{
    let mut sums = Vec::new(alloc);
    attempt!(add_sums(alloc, bank, &mut sums, facts));
    add_on_all(bank, lines, BinaryOperator::Equal, places, sums.as_slice())
}

// Adds the lines of places.
fn add_place_lines(
    alloc: Global,
    bank: &mut Bank,
    lines: &mut Vec<TermId>,
    facts: &Facts,
) -> Result<(), AllocError>
    requires { AreWithin (length bank.old) lines.old.items }
    ensures { OnOk result (AreAdded bank.old bank.new lines.old.items lines.new.items
        (place_lines (facts_of facts.now))) }
{
    let slots = attempt!(slots(alloc, facts));
    let mut places = Vec::new(alloc);
    attempt!(add_places(alloc, bank, &mut places, slots.as_slice()));
    attempt!(add_entry_lines(alloc, bank, lines, facts, places.as_slice()));
    attempt!(add_local_lines(alloc, bank, lines, facts, places.as_slice()));
    add_sum_lines(alloc, bank, lines, facts, places.as_slice())
}

/// The ids of the lines of a point, in order.
pub fn template(alloc: Global, bank: &mut Bank, facts: &Facts) -> Result<Vec<TermId>, AllocError>
    ensures { IfOk result (λ lines. AreAdded bank.old bank.new [] lines.items
        (spec.template (facts_of facts.now))) }
{
    let depths = attempt!(widened(alloc, facts.depths.as_slice()));
    let mut lines = Vec::new(alloc);
    attempt!(add_pointer_lines(alloc, bank, &mut lines, depths.as_slice()));
    attempt!(add_place_lines(alloc, bank, &mut lines, facts));
    attempt!(add_orders(alloc, bank, &mut lines, facts.compared.as_slice()));
    Ok(lines)
}
