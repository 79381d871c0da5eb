//! Why functions are unproved, as a user reads it.

use crate::notes::{Search, Told};
use crate::values::put_values;
use row_io::Out;
use std::alloc::Global;
use tv_core::{Measure, Side, Trail, Trails};

/// What an obligation of the proof that is tried says, by its number.
fn obligation(number: usize) -> &'static str {
    match number {
        0 => "the code meets no error",
        1 => "the code returns if the source does",
        _ => "result, kept registers and memory are the same at the end",
    }
}

fn side_name(side: Side) -> &'static str {
    match side {
        Side::Binary => "the code",
        Side::Source => "the source",
    }
}

fn put_large(measure: Measure, count: usize, out: &mut Out) {
    match measure {
        Measure::Visits(side) => {
            out.put("visits of ");
            out.put(side_name(side));
        }
        Measure::Obligation(number, _) => {
            out.put("terms or variables of the obligation that ");
            out.put(obligation(number));
        }
    }
    out.put(" are above their limit: at least ");
    out.show(&count);
}

/// A trail; under a refuted obligation the values of a call for which it is false.
fn put_trail(alloc: Global, trail: &Trail, out: &mut Out) {
    match trail {
        Trail::Later(side, node) => {
            out.put(side_name(*side));
            out.put(" has a loop or a call, at node ");
            out.show(node);
        }
        Trail::Large(measure, count) => put_large(*measure, *count, out),
        Trail::Refuted(number, assignment) => {
            out.put("it is refuted that ");
            out.put(obligation(*number));
            put_values(alloc, assignment, out);
        }
        Trail::Spent(number, log) => {
            out.put("no proof was found that ");
            out.put(obligation(*number));
            out.put(", with learnt clauses: ");
            out.show(&log.len());
        }
    }
}

/// The search that took longest of a function of this name, if there was any.
fn longest_of(told: &[Told], name: &[u8]) -> Option<Search> {
    for one in told {
        if one.name.as_slice() == name {
            return one.longest;
        }
    }
    None
}

/// What a search took.
fn put_search(search: &Search, out: &mut Out) {
    out.put("longest was the search for a proof that ");
    out.put(obligation(search.obligation));
    out.put(": variables ");
    out.show(&search.variables);
    out.put(", learnt clauses ");
    out.show(&search.learnt);
    out.put(", assignments ");
    out.show(&search.assignments);
}

/// The beginning of a line about a function.
fn put_name(name: &[u8], out: &mut Out) {
    out.put("why ");
    out.bytes(name);
    out.put(": ");
}

/// A line for each function of which no call meets the premises.
fn put_vacuous(told: &[Told], out: &mut Out) {
    for one in told {
        if one.vacuous {
            put_name(one.name.as_slice(), out);
            out.put("each run of the source breaks a guard, so nothing is asked of the code\n");
        }
    }
}

/// A line for each trail of each unproved function, and one for its longest search; and one for
/// each function of which nothing is asked.
pub(crate) fn put_reasons(alloc: Global, trails: &Trails, told: &[Told], out: &mut Out) {
    for index in 0..trails.len() {
        let function = trails.get(index);
        let name = function.name.as_slice();
        for trail in &function.trails {
            put_name(name, out);
            put_trail(alloc, trail, out);
            out.put("\n");
        }
        if let Some(search) = longest_of(told, name) {
            put_name(name, out);
            put_search(&search, out);
            out.put("\n");
        }
    }
    put_vacuous(told, out);
}
