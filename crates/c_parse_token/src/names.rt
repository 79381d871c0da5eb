//! Typedef names.

ghost use Rattle.std.specs.Prelude.{◌≡◌, [], IfOk};
ghost use Rattle.c_parse_spec.specs.Expressions.{is_typedef_name};
ghost use Rattle.c_parse_token.specs.Lists.{names_of, with_name};

use indexmap::IndexSet;
use std::alloc::{AllocError, Global};

/// The typedef names in scope.
#[derive(Drop)]
pub struct TypedefNames<'a> {
    /// In the order in which they came into scope.
    pub names: IndexSet<&'a [u8]>,
}

impl<'a> TypedefNames<'a> {
    /// No names.
    #[tactic(auto, unfolding(crate::specs::Lists::names_of))]
    pub fn new(alloc: Global) -> TypedefNames<'a>
        ensures { names_of result ≡ [] }
    {
        TypedefNames {
            names: IndexSet::new(alloc),
        }
    }

    /// Brings a name into scope, which changes nothing where it is in scope already.
    pub fn add(&mut self, name: &'a [u8]) -> Result<(), AllocError>
        ensures { IfOk result (λ _. names_of self.new ≡ with_name name.now (names_of self.old)) }
    {
        self.names.insert(name)?;
        Ok(())
    }

    /// The name is a typedef name in scope.
    pub fn contains(&self, spelling: &[u8]) -> bool
        ensures { result ≡ is_typedef_name (names_of self.now) spelling.now }
    {
        self.names.contains(spelling)
    }
}
