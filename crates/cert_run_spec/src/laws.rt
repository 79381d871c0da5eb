//! The laws of verdicts on certificates: each function's clause is one law, and its body is empty.

ghost use Rattle.cert_run_spec.specs.Laws.{FilesHaveOneList, FilesHaveWords};
ghost use Rattle.cert_run_spec.specs.Laws.{FunctionsAreToldApart, HasOneVerdict};
ghost use Rattle.cert_run_spec.specs.Laws.{ListedAreSorted, ListsHaveOnePairing};
ghost use Rattle.cert_run_spec.specs.Laws.{LoggedIsProof, LoggedMissesOthers, LoggedLeavesAreValid};
ghost use Rattle.cert_run_spec.specs.Laws.{ProofsAreValid};

/// A list of names has one pairing at most.
pub fn lists_have_one_pairing()
    ensures { ListsHaveOnePairing }
{}

/// Pairs of two files have one list of functions with their frames at most.
pub fn files_have_one_list()
    ensures { FilesHaveOneList }
{}

/// These functions are told apart by their names.
pub fn functions_are_told_apart()
    ensures { FunctionsAreToldApart }
{}

/// A certificate has one verdict at most, for functions that are told apart.
pub fn has_one_verdict()
    ensures { HasOneVerdict }
{}

/// The image of a file of bytes has words.
pub fn files_have_words()
    ensures { FilesHaveWords }
{}

/// The obligations of the listed functions of two files are truth values, and what their fixed runs
/// have are bytes.
pub fn listed_are_sorted()
    ensures { ListedAreSorted }
{}

/// Where a certificate is a proof of the listed functions of two files, each is valid.
pub fn proofs_are_valid()
    ensures { ProofsAreValid }
{}

/// A listed function that a Leaf proves with its logs is valid.
pub fn logged_leaves_are_valid()
    ensures { LoggedLeavesAreValid }
{}

/// The certificate of functions each of which a Leaf proves with its logs is a proof of them.
pub fn logged_is_proof()
    ensures { LoggedIsProof }
{}

/// Where others are listed too, each part of that certificate is accepted: the first function that
/// has none is missing, at the last line.
pub fn logged_misses_others()
    ensures { LoggedMissesOthers }
{}
