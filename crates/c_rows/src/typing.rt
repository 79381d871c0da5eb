//! The answers of typing, as text.

use c_types::typed::Typed;
use c_types_core::action::Action;
use c_types_core::constants::type_of;
use c_types_layout::structs::{Definition, alignment, size};
use c_types_layout::types::{Base, CType};
use c_types_scope::meaning::Meaning;
use c_types_spec::Scalar;
use row_io::Out;
use std::alloc::Global;

/// The size of a type, where it has one.
fn put_size(structs: &[Definition<'_>], of: &CType, out: &mut Out) {
    match size(structs, of) {
        Some(size) => out.show(&size),
        None => out.put("-"),
    }
}

/// The size and the alignment of a struct, and the offsets of its members.
fn put_struct(
    alloc: Global,
    structs: &[Definition<'_>],
    number: usize,
    definition: &Definition<'_>,
    out: &mut Out,
) {
    let of = CType::plain(alloc, Base::Struct(number));
    put_size(structs, &of, out);
    out.put("/");
    out.show(&alignment(structs, &of));
    if let Definition::Defined(layout) = definition {
        out.put(":");
        for (_, placed) in layout.members.iter() {
            out.put(" ");
            out.show(&placed.distance);
        }
    }
    out.put("; ");
}

fn put_structs(alloc: Global, structs: &[Definition<'_>], out: &mut Out) {
    for (number, definition) in structs.iter().enumerate() {
        put_struct(alloc, structs, number, definition, out);
    }
}

/// What a name is; of an object and a typedef also the size.
fn put_meaning(structs: &[Definition<'_>], meaning: &Meaning, out: &mut Out) {
    match meaning {
        Meaning::Local(_, _) => out.put("local"),
        Meaning::Object(of) => {
            out.put("object ");
            put_size(structs, of, out);
        }
        Meaning::Function(_, _) => out.put("function"),
        Meaning::Typedef(of) => {
            out.put("typedef ");
            put_size(structs, of, out);
        }
        Meaning::Enumerator(value) => out.show(value),
    }
}

fn put_names(typed: &Typed<'_>, out: &mut Out) {
    for (name, meaning) in typed.names.iter() {
        out.bytes(name);
        out.put("=");
        put_meaning(typed.structs.as_slice(), meaning, out);
        out.put(" ");
    }
}

fn put_bodies(typed: &Typed<'_>, out: &mut Out) {
    for name in typed.bodies.keys() {
        out.bytes(name);
        out.put(" ");
    }
}

fn put_counts(typed: &Typed<'_>, name: &str, out: &mut Out) {
    match typed.counts(name.as_bytes()) {
        Some(counts) => {
            out.put("params=");
            out.show(&counts.params);
            out.put(" loops=");
            out.show(&counts.loops);
            out.put(" calls=");
            out.show(&counts.calls);
        }
        None => out.put("no body"),
    }
}

/// A type: `i` or `u` and its width.
fn put_scalar(of: Scalar, out: &mut Out) {
    out.put(if of.is_signed { "i" } else { "u" });
    out.show(&of.width);
    out.put(" ");
}

/// The types of the values that are dropped, but for those in other statements.
fn put_dropped(action: &Action<'_>, out: &mut Out) {
    match action {
        Action::Block(list) => {
            for inner in list {
                put_dropped(inner, out);
            }
        }
        Action::Evaluate(value) => put_scalar(type_of(value), out),
        _ => {}
    }
}

fn put_types(typed: &Typed<'_>, name: &str, out: &mut Out) {
    match typed.body(name.as_bytes()) {
        Some(body) => put_dropped(&body.action, out),
        None => out.put("no body"),
    }
}

/// What typing a unit gives.
pub(crate) fn put_answer(alloc: Global, asked: &str, name: &str, unit: &Typed<'_>, out: &mut Out) {
    match asked {
        "counts" => put_counts(unit, name, out),
        "bodies" => put_bodies(unit, out),
        "structs" => put_structs(alloc, unit.structs.as_slice(), out),
        "names" => put_names(unit, out),
        "types" => put_types(unit, name, out),
        _ => out.put("fine"),
    }
}
