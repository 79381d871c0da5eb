use crate::order::Order;
use attempt::attempt;
use cnf_core::Literal;
use std::alloc::{AllocError, Global};
use std::collections::BTreeMap;

/// Two literals that may be equal.
#[derive(Clone, Copy)]
pub struct Candidate {
    pub first: Literal,
    pub second: Literal,
    /// Whether clauses that were learnt show that they are equal.
    pub is_shown: bool,
}

/// A hash changes by a product with this odd number.
const FACTOR: u64 = 0x9E37_79B9_7F4A_7C15;

/// The values of a variable in so many patterns.
#[derive(Clone, Copy)]
struct Signature {
    /// Those in the last 64 patterns.
    word: u64,
    /// A hash of all values, or of the opposite ones where the first one is true; 0 where all are
    /// the same.
    hash: u64,
    is_begun: bool,
    /// Whether the first value is true.
    is_opposite: bool,
}

impl Signature {
    fn new() -> Signature {
        Signature {
            word: 0,
            hash: 0,
            is_begun: false,
            is_opposite: false,
        }
    }

    /// Notes the values in 64 patterns more.
    fn note(&mut self, word: u64) {
        if !self.is_begun {
            self.is_begun = true;
            self.is_opposite = word % 2 == 1;
        }
        self.word = word;
        let values = if self.is_opposite { !word } else { word };
        let product = (self.hash ^ values).wrapping_mul(FACTOR);
        self.hash = product ^ product >> 32;
    }
}

/// The values of variables in so many patterns. No contract rests on it.
#[derive(Drop)]
pub struct Signatures {
    /// By variable.
    signatures: Vec<Signature>,
}

impl Signatures {
    /// Without values.
    pub fn new(alloc: Global, variables: usize) -> Result<Signatures, AllocError> {
        let none = Signature::new();
        let count = variables.saturating_add(1);
        let signatures = attempt!(vec![in alloc; none; count]);
        Ok(Signatures { signatures })
    }

    /// The values of a variable in the last 64 patterns.
    pub fn word(&self, variable: usize) -> u64 {
        match self.signatures.get(variable) {
            Some(signature) => signature.word,
            None => 0,
        }
    }

    /// Notes the values of a variable in 64 patterns more.
    pub fn note(&mut self, variable: usize, word: u64) {
        if let Some(signature) = self.signatures.get_mut(variable) {
            signature.note(word);
        }
    }

    /// Adds a variable to the candidates where one before it had the same values or the opposite
    /// ones, and not always the same.
    fn add(
        &self,
        firsts: &mut BTreeMap<u64, Literal>,
        candidates: &mut Vec<Candidate>,
        variable: usize,
    ) -> Result<(), AllocError> {
        let signature = match self.signatures.get(variable) {
            Some(signature) if signature.hash != 0 => *signature,
            _ => return Ok(()),
        };
        let second = match Literal::try_new(variable, signature.is_opposite) {
            Some(literal) => literal,
            None => return Ok(()),
        };
        match firsts.get(&signature.hash) {
            Some(first) => {
                let candidate = Candidate {
                    first: *first,
                    second,
                    is_shown: false,
                };
                attempt!(candidates.push(candidate), AllocError);
            }
            None => {
                attempt!(firsts.insert(signature.hash, second), AllocError);
            }
        }
        Ok(())
    }

    /// The candidates among the variables that the search is about, each with the first variable of
    /// the same values, by the second one's number.
    pub fn candidates(&self, alloc: Global, order: &Order) -> Result<Vec<Candidate>, AllocError> {
        let mut firsts = BTreeMap::new(alloc);
        let mut candidates = Vec::new(alloc);
        for variable in 1..self.signatures.len() {
            if order.is_about(variable) {
                attempt!(self.add(&mut firsts, &mut candidates, variable));
            }
        }
        Ok(candidates)
    }
}
