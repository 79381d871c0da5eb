//! Units as text: `(word part ..)` for each external declaration.

use crate::expressions::{put_declarator, put_dimensions, put_name, put_pointers, put_specifiers};
use crate::statements::put_parts;
use c_syntax::unit::{ExternalDeclaration, FunctionDeclarator, Global, Parameter, TranslationUnit};
use row_io::Out;

fn put_parameter(parameter: &Parameter<'_>, out: &mut Out) {
    out.put(" ,");
    put_specifiers(&parameter.specifiers, out);
    put_pointers(parameter.pointers, out);
    if let Some(name) = parameter.name {
        put_name(name, out);
    }
    put_dimensions(&parameter.dimensions, out);
}

fn put_function(function: &FunctionDeclarator<'_>, out: &mut Out) {
    put_pointers(function.pointers, out);
    put_name(function.name, out);
    out.put(" (parameters");
    for parameter in &function.parameters {
        put_parameter(parameter, out);
    }
    out.put(")");
}

fn put_global(global: &Global<'_>, out: &mut Out) {
    out.put(" ,");
    match global {
        Global::Object(declarator) => put_declarator(declarator, out),
        Global::Function(function) => put_function(function, out),
    }
}

fn put_globals(globals: &[Box<Global<'_>>], out: &mut Out) {
    for global in globals {
        put_global(global, out);
    }
}

fn put_item(item: &ExternalDeclaration<'_>, out: &mut Out) {
    match item {
        ExternalDeclaration::Empty => out.put(" (empty"),
        ExternalDeclaration::Declaration(specifiers, globals) => {
            out.put(" (declare");
            put_specifiers(specifiers, out);
            put_globals(globals.as_slice(), out);
        }
        ExternalDeclaration::Definition(specifiers, function, parts, _) => {
            out.put(" (define");
            put_specifiers(specifiers, out);
            put_function(function, out);
            put_parts(parts.as_slice(), out);
        }
    }
    out.put(")");
}

/// The tree of a unit, where it is asked for; without it that there is no fault.
pub(crate) fn put_unit(is_tree: bool, unit: &TranslationUnit<'_>, out: &mut Out) {
    if !is_tree {
        return out.put("no fault");
    }
    out.put("unit");
    for item in &unit.items {
        put_item(item, out);
    }
}
