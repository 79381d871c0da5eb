ghost use Rattle.bit_blast_spec.specs.Circuits as circuits;
ghost use Rattle.bit_blast_circuits.specs.Built.{MakesBit, MakesWord};

use crate::Gates;
use crate::words::{negations, one};
use cnf_core::{Literal, negation};
use std::alloc::{AllocError, Global};

impl Gates {
    /// The sum of two words and a carry, by the ripple-carry adder.
    pub fn sum_bits(
        &mut self,
        alloc: Global,
        xs: &[Literal],
        ys: &[Literal],
        carry: Literal,
    ) -> Result<Vec<Literal>, AllocError>
        ensures { MakesWord result (circuits.sum_bits xs.now ys.now carry) self.old self.new }
    {
        let mut out = Vec::new(alloc);
        let mut carried = carry;
        for index in 0..xs.len().min(ys.len()) {
            let x = xs[index];
            let y = ys[index];
            let half = self.xor_gate(x, y)?;
            let bit = self.xor_gate(half, carried)?;
            carried = self.majority_gate(x, y, carried)?;
            out.push(bit)?;
        }
        Ok(out)
    }

    /// The difference of two words.
    pub fn difference_bits(
        &mut self,
        alloc: Global,
        xs: &[Literal],
        ys: &[Literal],
    ) -> Result<Vec<Literal>, AllocError>
        ensures { MakesWord result (circuits.difference_bits xs.now ys.now) self.old self.new }
    {
        let complement = negations(alloc, ys)?;
        self.sum_bits(alloc, xs, &complement, one())
    }

    /// The last carry of the sum of two words and a carry.
    fn carry_bit(
        &mut self,
        xs: &[Literal],
        ys: &[Literal],
        carry: Literal,
    ) -> Result<Literal, AllocError>
        ensures { MakesBit result (circuits.carry_bit xs.now ys.now carry) self.old self.new }
    {
        let mut last = carry;
        for index in 0..xs.len().min(ys.len()) {
            let x = xs[index];
            let y = ys[index];
            last = self.majority_gate(x, y, last)?;
        }
        Ok(last)
    }

    /// Whether the first word is less than the second, both unsigned.
    pub fn less_bit(
        &mut self,
        alloc: Global,
        xs: &[Literal],
        ys: &[Literal],
    ) -> Result<Literal, AllocError>
        ensures { MakesBit result (circuits.less_bit xs.now ys.now) self.old self.new }
    {
        let complement = negations(alloc, ys)?;
        let carry = self.carry_bit(xs, &complement, one())?;
        Ok(negation(carry))
    }
}
