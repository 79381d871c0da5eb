//! The outcomes of calls, as text.

use crate::given::{self, Given};
use c_run::calls::{Call, Outcome, run};
use c_run_spec::Guard;
use c_run_value::memory::Memory;
use c_run_value::setting::Place;
use c_types::typed::Typed;
use row_io::Out;
use std::alloc::Global;

fn named(guard: Guard) -> &'static str {
    match guard {
        Guard::UnsetLocal => "UnsetLocal",
        Guard::SignedOverflow => "SignedOverflow",
        Guard::Division => "Division",
        Guard::ShiftCount => "ShiftCount",
        Guard::Access => "Access",
        Guard::BarredZone => "BarredZone",
        Guard::FixedByte => "FixedByte",
        Guard::PointerRange => "PointerRange",
        Guard::Index => "Index",
        Guard::MissingReturn => "MissingReturn",
    }
}

/// So many bytes from an address on, in hexadecimal.
fn put_bytes(memory: &Memory, at: u32, count: u64, out: &mut Out) {
    let mut next = at;
    out.put(" ");
    for _ in 0..count {
        let byte = memory.byte(next);
        out.hexadecimal(u64::from(byte / 16));
        out.hexadecimal(u64::from(byte % 16));
        next = next.wrapping_add(1);
    }
}

fn put_ended(outcome: &Outcome, shown: &[(u32, u64)], out: &mut Out) {
    match outcome {
        Outcome::More => out.put("More"),
        Outcome::Guard(guard, offset) => {
            out.put(named(*guard));
            out.put(" at ");
            out.show(offset);
        }
        Outcome::Back(value, memory) => {
            match value {
                Some(value) => out.show(value),
                None => out.put("void"),
            }
            for (at, count) in shown {
                put_bytes(memory, *at, *count, out);
            }
        }
    }
}

/// The outcome of a call of a unit's function.
fn put_called<'s, 'a>(alloc: Global, given: &'s Given<'a>, typed: &'s Typed<'a>, out: &mut Out) {
    let place = Place {
        globals: given.globals.as_slice(),
        fixed: given.fixed.as_slice(),
    };
    let call = Call {
        function: given.function,
        arguments: given.arguments.as_slice(),
        memory: &given.memory,
        barred: given.barred,
    };
    match run(alloc, typed, &place, &call, given.turns) {
        Ok(outcome) => put_ended(&outcome, given.shown.as_slice(), out),
        Err(_) => out.fail(),
    }
}

/// What a call of a unit's function gives.
pub(crate) fn put_answer<'a>(alloc: Global, call: &'a str, unit: &Typed<'a>, out: &mut Out) {
    match given::read(alloc, call) {
        Ok(given) => put_called(alloc, &given, unit, out),
        Err(_) => out.fail(),
    }
}
