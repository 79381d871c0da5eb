//! First faults of certificates, worked by hand: each function's clause is one fact, and its body
//! is empty.

ghost use Rattle.cert_check_lines_spec.specs.Samples.{MissingIsRefused, NoCountIsRefused};
ghost use Rattle.cert_check_lines_spec.specs.Samples.{NoPointIsRefused, OtherStackIsRefused};
ghost use Rattle.cert_check_lines_spec.specs.Samples.{StrangerIsRefused};

/// A part of a function that isn't listed.
pub fn a_stranger_is_refused()
    ensures { StrangerIsRefused }
{}

/// A part with another stack.
pub fn another_stack_is_refused()
    ensures { OtherStackIsRefused }
{}

/// No part of a listed function.
pub fn a_missing_part_is_refused()
    ensures { MissingIsRefused }
{}

/// A restriction at an address of no instruction.
pub fn a_missing_point_is_refused()
    ensures { NoPointIsRefused }
{}

/// A restriction to no arrival.
pub fn a_count_of_none_is_refused()
    ensures { NoCountIsRefused }
{}
