//! The laws of checked certificates: each function's clause is one law, and its body is empty.

ghost use Rattle.validity_laws.specs.Accepted.{AcceptedIsValid, FunctionsAreKnown, WholeIsValid};
ghost use Rattle.validity_laws.specs.CheckStatements.{ClosedIsValid, ProofsGiveValidity};
ghost use Rattle.validity_laws.specs.Shown.{ShownIsProved, ShownPartsAreValid};

/// Functions of which a certificate is a proof are valid: of each that the file has at its name,
/// and that takes this much stack, the code agrees with the source.
pub fn proofs_give_validity()
    ensures { ProofsGiveValidity }
{}

/// A function with a proof by Leaf and Case, each obligation of which is closed, is valid.
pub fn closed_is_valid()
    ensures { ClosedIsValid }
{}

/// What lines inside a proof show, read one line at a time, is proved: a tree of Leaf, Case,
/// Restrict, Split and Call of earlier functions, each obligation of which a log closes.
pub fn what_is_shown_is_proved()
    ensures { ShownIsProved }
{}

/// Functions with parts in an order in which each calls earlier ones alone are valid.
pub fn functions_shown_in_order_are_valid()
    ensures { ShownPartsAreValid }
{}

/// Functions of which a certificate is accepted, one line after the other, are valid, where no line
/// inlines a call: the proofs are of Leaf, Case, Restrict, Split and Call of functions with an
/// earlier part.
pub fn what_is_accepted_is_valid()
    ensures { AcceptedIsValid }
{}

/// Functions of which a certificate is accepted are valid, whatever its lines are: they may inline
/// calls of functions whose graphs and own variables are known.
pub fn what_inlines_is_valid()
    ensures { WholeIsValid }
{}

/// What such lines read of functions is right, where it is what the functions' graphs have: their
/// nodes, and all own variables that these speak of.
pub fn functions_are_known()
    ensures { FunctionsAreKnown }
{}
