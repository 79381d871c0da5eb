//! What lines show that pass: each function's clause is one law, and its body is empty.

ghost use Rattle.cert_check_lines_spec.specs.Parts.{AcceptedIsShown, PlainIsShown};
ghost use Rattle.cert_check_lines_spec.specs.Shown.{ClosingPasses, PassedIsShown};
ghost use Rattle.cert_check_lines_spec.specs.Walk.{GoingIsAccepted};

/// Where the lines of a proof pass one after the other and leave nothing, the frame has a tree of
/// the rules Leaf, Case, Restrict, Split and Call, what each asks holds, and a log closes each of
/// its obligations.
pub fn what_passes_is_shown()
    ensures { PassedIsShown }
{}

/// Where a log closes a goal, its line and its steps pass one after the other: no step depends on
/// those after it.
pub fn logs_that_close_pass()
    ensures { ClosingPasses }
{}

/// Where the lines of a certificate are accepted one after the other, the frames of the functions
/// that have a part are shown, in the order of the parts, each with its calls inlined.
pub fn what_is_accepted_is_shown()
    ensures { AcceptedIsShown }
{}

/// Where none of the lines inlines a call, the frames are those of the functions themselves.
pub fn plain_parts_are_shown()
    ensures { PlainIsShown }
{}

/// A checker that goes on after lines has accepted each of them.
pub fn what_goes_on_is_accepted()
    ensures { GoingIsAccepted }
{}
