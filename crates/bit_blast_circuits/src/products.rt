ghost use Rattle.bit_blast_spec.specs.Circuits as circuits;
ghost use Rattle.bit_blast_circuits.specs.Built.{MakesWord};
ghost use Rattle.bit_blast_circuits.specs.Kinds.{add_row};

use crate::Gates;
use crate::bitwise::With;
use crate::words::{after_zeros, none};
use cnf_core::Literal;
use std::alloc::{AllocError, Global};

impl Gates {
    /// The word where the bit holds, else 0.
    fn and_each(
        &mut self,
        alloc: Global,
        xs: &[Literal],
        bit: Literal,
    ) -> Result<Vec<Literal>, AllocError>
        ensures { MakesWord result (circuits.and_each xs.now bit) self.old self.new }
    {
        self.each(alloc, With::AndAfter(bit), xs)
    }

    /// The sum so far, and the word moved up where the bit holds.
    fn add_row(
        &mut self,
        alloc: Global,
        xs: &[Literal],
        index: usize,
        bit: Literal,
        so_far: &[Literal],
    ) -> Result<Vec<Literal>, AllocError>
        ensures { MakesWord result (add_row xs.now index bit so_far.now) self.old self.new }
    {
        let row = self.and_each(alloc, &xs[..xs.len().saturating_sub(index)], bit)?;
        let moved = after_zeros(alloc, index, &row)?;
        self.sum_bits(alloc, so_far, &moved, none())
    }

    /// The product of two words, as wide as the first: a row for each bit of the second.
    pub fn product_bits(
        &mut self,
        alloc: Global,
        xs: &[Literal],
        ys: &[Literal],
    ) -> Result<Vec<Literal>, AllocError>
        ensures { MakesWord result (circuits.product_bits xs.now ys.now) self.old self.new }
    {
        if ys.is_empty() {
            return Ok(Vec::new(alloc));
        }
        let first = ys[0];
        let mut sum = self.and_each(alloc, xs, first)?;
        for index in 1..ys.len() {
            let y = ys[index];
            sum = self.add_row(alloc, xs, index, y, &sum)?;
        }
        Ok(sum)
    }
}
