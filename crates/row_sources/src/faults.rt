//! The kinds of faults, by name.

use c_types_spec::{LeftOut, TypeFaultKind};

/// What is left out.
fn left_out(part: LeftOut) -> &'static str {
    match part {
        LeftOut::Word64 => "LeftOut.Word64",
        LeftOut::Struct => "LeftOut.Struct",
        LeftOut::Array => "LeftOut.Array",
        LeftOut::Difference => "LeftOut.Difference",
        LeftOut::FunctionName => "LeftOut.FunctionName",
        LeftOut::CallPlace => "LeftOut.CallPlace",
        LeftOut::StaticLocal => "LeftOut.StaticLocal",
    }
}

/// The name of a kind.
pub(crate) fn named(kind: TypeFaultKind) -> &'static str {
    match kind {
        TypeFaultKind::Unknown => "Unknown",
        TypeFaultKind::Twice => "Twice",
        TypeFaultKind::Mismatch => "Mismatch",
        TypeFaultKind::NotLvalue => "NotLvalue",
        TypeFaultKind::AddressOfLocal => "AddressOfLocal",
        TypeFaultKind::Incomplete => "Incomplete",
        TypeFaultKind::TooManyWords => "TooManyWords",
        TypeFaultKind::Fallthrough => "Fallthrough",
        TypeFaultKind::LeftOut(part) => left_out(part),
    }
}
