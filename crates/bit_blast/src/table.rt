ghost use Rattle.std.specs.Prelude.{◌≡◌, ◌<◌, ◌∷◌, ◌++◌, [], length, false, IfSome, IfNone};
ghost use Rattle.std.specs.Prelude.{IfOk, OnErr};
ghost use Rattle.term_bank.specs.Nodes.{IsNode, build, tree_at, Holds, AreDistinct};
ghost use Rattle.bit_blast_spec.specs.Goal.{is_there, bits_in};
ghost use Rattle.bit_blast.specs.Terms.{terms_in};

use cnf_core::Literal;
use indexmap::IndexMap;
use std::alloc::{AllocError, Global};
use std::marker::Model;
use term_bank::TermNode;

/// Terms, each with its bits, in the order in which they were entered. A term is a node whose
/// arguments are indices of this table.
#[derive(Drop)]
pub struct TermTable {
    entries: IndexMap<TermNode, Vec<Literal>>,
}

impl Model for TermTable {
    ghost use Rattle.std.specs.Prelude.{[]};
    ghost use Rattle.std.specs.Coded.{coded_list, coded×};
    ghost use Rattle.term_core_spec.specs.Coded.{term_code};
    ghost use Rattle.bit_blast_spec.specs.Goal.{Table};
    ghost use Rattle.clause_check_spec.specs.contracts.Literal as literal_row;
    ghost use Rattle.bit_blast.specs.Entered.{entered, IsTable};

    ghost Value = { Table };

    ghost coded = { coded_list (coded× term_code (coded_list literal_row.the_row.coded)) };

    ghost view = { λ t. entered [] t.entries.entries };

    ghost invariant = { λ t. IsTable t.entries.entries };
}

impl TermTable {
    /// No term yet.
    pub fn new(alloc: Global) -> TermTable
        ensures { result ≡ [] }
    {
        TermTable {
            entries: IndexMap::new(alloc),
        }
    }

    /// How many terms there are.
    pub fn len(&self) -> usize
        ensures { result ≡ length self.now }
    {
        self.entries.len()
    }

    /// No term occurs twice.
    pub fn is_distinct(&self)
        ensures { AreDistinct (terms_in self.now) }
    {
        let _entries = &self.entries;
    }

    /// The index of a node's term, where it is there.
    pub fn find(&self, node: TermNode) -> Option<usize>
        requires { IsNode (length self.now) node }
        ensures found { IfSome result (λ index. Holds (terms_in self.now) index
            (build (terms_in self.now) node)) }
        ensures absent { IfNone result (is_there (build (terms_in self.now) node) self.now
            ≡ false) }
    {
        self.entries.get_index_of(&node)
    }

    /// Adds a node's term, which isn't there, with its bits after the others, and gives its index.
    /// Where it is out of memory the table is as before.
    pub fn enter(&mut self, node: TermNode, bits: Vec<Literal>) -> Result<usize, AllocError>
        requires arguments { IsNode (length self.old) node }
        requires absent { is_there (build (terms_in self.old) node) self.old ≡ false }
        ensures index { IfOk result (λ index. index ≡ length self.old) }
        ensures entered { IfOk result (λ index. self.new
            ≡ self.old ++ (build (terms_in self.old) node, bits.items) ∷ []) }
        ensures refused { OnErr result (self.new ≡ self.old) }
    {
        let index = self.entries.len();
        self.entries.insert(node, bits)?;
        Ok(index)
    }

    /// The node of an index.
    pub fn node(&self, index: usize) -> TermNode
        requires { index < length self.now }
        ensures arguments { IsNode index result }
        ensures tree { Holds (terms_in self.now) index (build (terms_in self.now) result) }
    {
        let (node, _) = self.entries.get_index(index).unwrap();
        *node
    }

    /// The bits of the term of an index, the lowest first.
    pub fn bits(&self, index: usize) -> &[Literal]
        requires { index < length self.now }
        ensures { result.now ≡ bits_in self.now (tree_at (terms_in self.now) index) }
    {
        &self.entries[index]
    }
}
