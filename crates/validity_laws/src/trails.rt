//! The laws of trails: each function's clause is one law, and its body is empty.

ghost use Rattle.validity_laws.specs.Laws.{FunctionsHaveTruths, TrailsExcludeProofs};

/// A function with a trail has no proof by a bare Leaf, unless the trail is that of a search that
/// reached its limit.
pub fn trails_exclude_proofs()
    ensures { TrailsExcludeProofs }
{}

/// The obligations of the functions of both sides are truth values, and what their fixed runs have
/// are bytes.
pub fn functions_have_truths()
    ensures { FunctionsHaveTruths }
{}
