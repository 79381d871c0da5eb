//! What is decided of an executable and a source (`specs/Verdicts.antt`): the first refusal in the
//! order in which they are tried, or what a search finds of each listed function, a proof or a
//! trail; and what it means that those called valid are valid. `specs/Decisions.antt` has what is
//! decided: a verdict, a certificate and trails; `specs/Source.antt` the verdict on a source. By
//! [`one_verdict`], one thing is decided of two files at most, but for what searches find.
#![tactic(auto)]

ghost use Rattle.tv_core_spec.specs.Laws.{EachSource, OneSource, OneVerdict, ProvedIsChecked};
ghost use Rattle.tv_core_spec.specs.Laws.{UnprovedIsMissing};

/// The law of verdicts: two files have one at most, unless functions are searched; and what one
/// search proves no other refutes.
pub fn one_verdict()
    ensures { OneVerdict }
{}

/// The law of sources: a text is refused for one reason at one offset, or is C and has one typed
/// core.
pub fn one_source()
    ensures one { OneSource }
    ensures each { EachSource }
{}

/// The law of certificates that are written: where all functions are judged valid, the certificate
/// of them is a proof, with which the same files have the verdict that each is valid.
pub fn proved_is_checked()
    ensures { ProvedIsChecked }
{}

/// And where some are not, each part of it is accepted: the same files have the verdict that the
/// first function that is not judged valid is missing, at the last line.
pub fn unproved_is_missing()
    ensures { UnprovedIsMissing }
{}
