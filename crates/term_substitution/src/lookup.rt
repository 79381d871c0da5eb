// The terms that stand for variables.

ghost use Rattle.std.specs.Prelude.{◌≡◌, ℕ, Option};
ghost use Rattle.std.specs.HashMap.{get};
ghost use Rattle.term_core_spec.specs.declared.Variable as spec;
ghost use Rattle.term_core_spec.specs.Same.{same_variable};

use std::collections::HashMap;
use term_bank::TermId;
use term_core_spec::Variable;

/// The indices of variables' terms in a bank. A variable need not have one.
pub trait Lookup {
    // The index of each variable's term, if it has one.
    ghost terms: { Self → spec.Variable → Option ℕ };

    /// The index of the variable's term, if it has one.
    fn term(&self, variable: &Variable) -> Option<TermId>
        ensures { result ≡ terms self.now variable.now };
}

impl Lookup for HashMap<Variable, TermId> {
    ghost terms = { get same_variable };

    fn term(&self, variable: &Variable) -> Option<TermId> {
        self.get(variable).copied()
    }
}
