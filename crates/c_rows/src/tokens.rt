//! Tokens as text: what each is, with its offset.

use c_token::{Kind, Token};
use c_token_spec::token::NumberType;
use row_io::Out;

/// A number: its value, and `u`, `ll` or `ull` where its type is not `int`.
pub(crate) fn put_number(value: u64, number_type: NumberType, out: &mut Out) {
    out.show(&value);
    out.put(match number_type {
        NumberType::SignedInt => "",
        NumberType::UnsignedInt => "u",
        NumberType::SignedLongLong => "ll",
        NumberType::UnsignedLongLong => "ull",
    });
}

fn put_kind(kind: Kind<'_>, out: &mut Out) {
    match kind {
        Kind::Name(name) => out.bytes(name),
        Kind::Number(value, number_type) => put_number(value, number_type, out),
        Kind::Character(value) => {
            out.put("'");
            out.show(&value);
        }
        Kind::Word(word) => out.show(&word),
        Kind::Mark(mark) => out.show(&mark),
    }
}

pub(crate) fn put_tokens(tokens: &[Token<'_>], out: &mut Out) {
    if tokens.is_empty() {
        out.put("no tokens");
    }
    for token in tokens {
        put_kind(token.kind, out);
        out.put_at("", token.offset);
        out.put(" ");
    }
}
