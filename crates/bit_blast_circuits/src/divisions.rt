ghost use Rattle.bit_blast_spec.specs.Gates.{claim};
ghost use Rattle.bit_blast_spec.specs.Circuits as circuits;
ghost use Rattle.bit_blast_circuits.specs.Built.{MakesBit, MakesClauses};
ghost use Rattle.bit_blast_circuits.specs.Kinds.{makes_up};

use crate::Gates;
use crate::words::{none, twice_as_wide};
use cnf_core::{Literal, negation};
use std::alloc::{AllocError, Global};

impl Gates {
    /// Claims what quotient and remainder are where the divisor is 0: all bits set, and the
    /// dividend.
    fn claim_without_divisor(
        &mut self,
        some: Literal,
        q: &[Literal],
        r: &[Literal],
        x: &[Literal],
    ) -> Result<(), AllocError>
        ensures { MakesClauses result (claim
            (circuits.without_divisor some q.now r.now x.now)) self.old self.new }
    {
        for index in 0..q.len().min(r.len()).min(x.len()) {
            let quotient = q[index];
            let remainder = r[index];
            let dividend = x[index];
            self.claim(&[some, quotient])?;
            self.claim(&[some, negation(remainder), dividend])?;
            self.claim(&[some, remainder, negation(dividend)])?;
        }
        Ok(())
    }

    /// Whether q y + r = x, in whole numbers.
    fn makes_up(
        &mut self,
        alloc: Global,
        q: &[Literal],
        r: &[Literal],
        x: &[Literal],
        y: &[Literal],
    ) -> Result<Literal, AllocError>
        ensures { MakesBit result (makes_up q.now r.now x.now y.now) self.old self.new }
    {
        let wide_q = twice_as_wide(alloc, q)?;
        let wide_y = twice_as_wide(alloc, y)?;
        let product = self.product_bits(alloc, &wide_q, &wide_y)?;
        let wide_r = twice_as_wide(alloc, r)?;
        let sum = self.sum_bits(alloc, &product, &wide_r, none())?;
        let wide_x = twice_as_wide(alloc, x)?;
        self.equal_bits(alloc, &sum, &wide_x)
    }

    /// Claims that q and r are the quotient and the remainder of x and y: where y is not 0, q y + r
    /// = x in whole numbers and r is less than y; else q has all bits set and r is x.
    pub fn division(
        &mut self,
        alloc: Global,
        q: &[Literal],
        r: &[Literal],
        x: &[Literal],
        y: &[Literal],
    ) -> Result<(), AllocError>
        ensures { MakesClauses result (circuits.division q.now r.now x.now y.now) self.old
            self.new }
    {
        let some = self.or_all(y)?;
        let same = self.makes_up(alloc, q, r, x, y)?;
        let less = self.less_bit(alloc, r, y)?;
        self.claim(&[negation(some), same])?;
        self.claim(&[negation(some), less])?;
        self.claim_without_divisor(some, q, r, x)
    }
}
