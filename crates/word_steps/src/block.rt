// The state of a block.

ghost use Rattle.std.specs.Prelude.{◌≡◌, ◌<◌, length, get_or};
ghost use Rattle.word_steps.specs.Views as views;

use crate::number::Number;
use term_core_spec::Sort;

/// Why a line of a block is refused.
#[derive(Clone, Copy)]
pub enum WordFault {
    /// It names what there is not, is not well sorted, or the test of its rule doesn't hold.
    Word,
}

/// The numbers of a block, its facts and its merges.
#[derive(Drop)]
pub struct Block {
    pub(crate) numbers: Vec<Number>,
    // the sort of each number
    pub(crate) sorts: Vec<Option<Sort>>,
    pub(crate) changes: usize,
    pub(crate) sweeps: usize,
}

impl Block {
    /// How many numbers there are.
    pub fn len(&self) -> usize
        ensures { result ≡ views.count_of self.now }
    {
        self.numbers.len()
    }

    /// How many renewals changed what a number is now.
    pub fn changes(&self) -> usize
        ensures { result ≡ views.changes_of self.now }
    {
        self.changes
    }

    /// The index of a number, where there is such a number.
    pub(crate) fn index(&self, number: usize) -> Option<usize>
        ensures { result ≡ views.index_below (views.count_of self.now) number }
    {
        if number == 0 {
            return None;
        }
        let index = number - 1;
        if index < self.numbers.len() {
            Some(index)
        } else {
            None
        }
    }

    /// The number at an index.
    pub(crate) fn number(&self, index: usize) -> Number
        requires { index < views.count_of self.now }
        ensures { result ≡ views.number_in self.now.numbers.items index }
    {
        self.numbers[index]
    }

    /// The sort of the number at an index.
    pub(crate) fn sort(&self, index: usize) -> Option<Sort>
        requires { index < length self.now.sorts.items }
        ensures { result ≡ views.sort_in self.now.sorts.items index }
    {
        self.sorts[index]
    }

    /// Whether there is a fact that the number at an index is true, or false.
    pub(crate) fn has_fact(&self, index: usize, holds: bool) -> bool
        requires { index < views.count_of self.now }
        ensures { result ≡ views.has_fact
            (views.number_in self.now.numbers.items index).marks holds }
    {
        let number = self.number(index);
        if holds {
            number.marks.is_true
        } else {
            number.marks.is_false
        }
    }
}
