//! Symbols as text.

ghost use Rattle.std.specs.Prelude.{◌≡◌, ◌++◌, OnOk};
ghost use Rattle.std.specs.Option.{option_map};
ghost use Rattle.cert_text_spec.specs.Terms as terms;
ghost use Rattle.cert_text.specs.Texts.{optional_text};

use crate::numbers::push_number;
use attempt::attempt;
use cert_text_spec::{Operator, Symbol};
use std::alloc::AllocError;
use term_core_spec::Width;

// The word of an operator.
fn operator_word(operator: Operator) -> &'static [u8]
    ensures { result.now ≡ terms.operator_word operator }
{
    match operator {
        Operator::Equal => b"(eq",
        Operator::Less => b"(ult",
        Operator::Choose => b"(ite",
        Operator::Not => b"(not",
        Operator::And => b"(and",
        Operator::Or => b"(or",
        Operator::Add => b"(add",
        Operator::Subtract => b"(sub",
        Operator::Multiply => b"(mul",
        Operator::BitAnd => b"(band",
        Operator::BitOr => b"(bor",
        Operator::BitXor => b"(bxor",
        Operator::Complement => b"(bnot",
        Operator::ShiftLeft => b"(shl",
        Operator::ShiftRight => b"(shr",
        Operator::ShiftRightSigned => b"(sar",
        Operator::Divide => b"(udiv",
        Operator::Remainder => b"(urem",
        Operator::Join => b"(join",
        Operator::Load => b"(load8",
        Operator::ZeroExtend(_) => b"(zext ",
        Operator::SignExtend(_) => b"(sext ",
        Operator::Low(_) => b"(low ",
        Operator::Byte(_) => b"(byte ",
    }
}

// The word of a width.
fn width_word(width: Width) -> &'static [u8]
    ensures { result.now ≡ terms.width_word width }
{
    match width {
        Width::W8 => b"8:",
        Width::W16 => b"16:",
        Width::W32 => b"32:",
        Width::W64 => b"64:",
    }
}

// The word of a symbol.
fn word(symbol: Symbol) -> &'static [u8]
    ensures { result.now ≡ terms.word symbol }
{
    match symbol {
        Symbol::Truth(true) => b"true",
        Symbol::Truth(false) => b"false",
        Symbol::Constant(width, _) => width_word(width),
        Symbol::Register(_) => b"x",
        Symbol::Entry(_) => b"e",
        Symbol::Inlined(_) => b"k",
        Symbol::Local(_) => b"v",
        Symbol::IsSet(_) => b"s",
        Symbol::Parameter(_) => b"p",
        Symbol::SourceMemory => b"m",
        Symbol::ZoneMemory => b"z",
        Symbol::BinaryMemory => b"am",
        Symbol::Open(operator) => operator_word(operator),
        Symbol::Close => b")",
    }
}

// The number after an operator's word, if there is one.
fn operator_number(operator: Operator) -> Option<u64>
    ensures { result ≡ option_map (λ p. p.0) (terms.operator_number operator) }
{
    match operator {
        Operator::ZeroExtend(number)
        | Operator::SignExtend(number)
        | Operator::Low(number)
        | Operator::Byte(number) => Some(u64::from(number)),
        _ => None,
    }
}

// The number after a symbol's word, if there is one.
fn number(symbol: Symbol) -> Option<u64>
    ensures { result ≡ option_map (λ p. p.0) (terms.number symbol) }
{
    match symbol {
        Symbol::Constant(_, number) => Some(number),
        Symbol::Register(number)
        | Symbol::Entry(number)
        | Symbol::Inlined(number)
        | Symbol::Local(number)
        | Symbol::IsSet(number)
        | Symbol::Parameter(number) => Some(u64::from(number)),
        Symbol::Open(operator) => operator_number(operator),
        _ => None,
    }
}

// What ends a symbol.
fn ending(symbol: Symbol) -> &'static [u8]
    ensures { result.now ≡ terms.ending symbol }
{
    match symbol {
        Symbol::Inlined(_) => b"/",
        _ => b"",
    }
}

// Adds a number, if there is one.
fn push_optional(out: &mut Vec<u8>, number: Option<u64>) -> Result<(), AllocError>
    ensures { OnOk result (out.new.items ≡ out.old.items ++ optional_text number) }
{
    match number {
        Some(number) => push_number(out, number, b""),
        None => Ok(()),
    }
}

/// Adds a symbol.
pub(crate) fn push_symbol(out: &mut Vec<u8>, symbol: Symbol) -> Result<(), AllocError>
    ensures { OnOk result (out.new.items ≡ out.old.items ++ terms.symbol_text symbol) }
{
    attempt!(out.extend_from_slice(word(symbol)));
    attempt!(push_optional(out, number(symbol)));
    attempt!(out.extend_from_slice(ending(symbol)));
    Ok(())
}
