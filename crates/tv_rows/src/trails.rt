//! Why functions are unproved.

use row_io::Out;
use tv_core::{Measure, Side, Trail, Trails};

fn put_side(side: Side, out: &mut Out) {
    match side {
        Side::Binary => out.put(" binary"),
        Side::Source => out.put(" source"),
    }
}

fn put_number(word: &str, number: usize, out: &mut Out) {
    out.put(word);
    out.show(&number);
}

/// A trail: what it is, and of which side or obligation. What a search found isn't put.
fn put_trail(trail: &Trail, out: &mut Out) {
    match trail {
        Trail::Later(side, node) => {
            out.put(" later");
            put_side(*side, out);
            put_number(" ", *node, out);
        }
        Trail::Large(Measure::Visits(side), _) => {
            out.put(" large visits");
            put_side(*side, out);
        }
        Trail::Large(Measure::Obligation(number, _), _) => put_number(" large ", *number, out),
        Trail::Refuted(number, _) => put_number(" refuted ", *number, out),
        Trail::Spent(number, _) => put_number(" spent ", *number, out),
    }
}

/// Each unproved function with its trails, or that a certificate is too large.
pub(crate) fn put_trails(trails: &Trails, out: &mut Out) {
    for index in 0..trails.len() {
        let function = trails.get(index);
        out.put(" ");
        out.bytes(function.name.as_slice());
        for trail in &function.trails {
            put_trail(trail, out);
        }
    }
    if trails.over().is_some() {
        out.put(" over");
    }
}
