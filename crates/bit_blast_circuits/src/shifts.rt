ghost use Rattle.std.specs.Prelude.{◌≡◌, ◌≤◌, length, IfOk};
ghost use Rattle.bit_blast_spec.specs.Circuits as circuits;
ghost use Rattle.bit_blast_circuits.specs.Built.{IsBuilt, MakesWord};
ghost use Rattle.bit_blast_circuits.specs.Kinds.{move_of};

use crate::Gates;
use crate::bitwise::With;
use crate::words::{after_zeros, none, padded, sign_of};
use cnf_core::{Literal, negation};
use std::alloc::{AllocError, Global};

/// How a word is moved.
#[derive(Clone, Copy)]
pub enum Shift {
    /// up, after zeros
    Up,
    /// down, with copies of this literal after it
    Down(Literal),
}

/// The word moved by so many bits.
fn moved(
    alloc: Global,
    shift: &Shift,
    distance: usize,
    xs: &[Literal],
) -> Result<Vec<Literal>, AllocError>
    requires { distance ≤ length xs.now }
    ensures { IfOk result (λ out. out.items ≡ move_of shift.now distance xs.now) }
{
    match shift {
        Shift::Up => after_zeros(alloc, distance, &xs[..xs.len() - distance]),
        Shift::Down(fill) => padded(alloc, &xs[distance..], *fill, distance),
    }
}

impl Gates {
    /// The word moved by the count, a stage for each bit of the count whose power of two is below
    /// the width, and whether one of the higher bits is set.
    fn shift_stages(
        &mut self,
        alloc: Global,
        shift: Shift,
        xs: &[Literal],
        counts: &[Literal],
    ) -> Result<(Vec<Literal>, Literal), AllocError>
        ensures { IfOk result (λ out. IsBuilt
            (circuits.shift_stages (move_of shift) 1 counts.now xs.now) self.old
            (out.0.items, out.1) self.new) }
    {
        let mut word = Vec::from_slice(alloc, xs)?;
        let mut distance = 1;
        for stage in 0..counts.len() {
            if distance >= word.len() {
                let past = self.or_all(&counts[stage..])?;
                return Ok((word, past));
            }
            let shifted = moved(alloc, &shift, distance, &word)?;
            let count = counts[stage];
            word = self.choose_bits(alloc, count, &shifted, &word)?;
            distance *= 2;
        }
        Ok((word, none()))
    }

    /// The word moved by the count; nothing is left where a higher bit of the count is set.
    pub fn shift_bits(
        &mut self,
        alloc: Global,
        shift: Shift,
        xs: &[Literal],
        counts: &[Literal],
    ) -> Result<Vec<Literal>, AllocError>
        ensures { MakesWord result (circuits.shift_bits
            (move_of shift) xs.now counts.now) self.old self.new }
    {
        let (word, past) = self.shift_stages(alloc, shift, xs, counts)?;
        self.each(alloc, With::AndBefore(negation(past)), &word)
    }

    /// The word moved down by the count, with copies of its top bit after it; only top bits are
    /// left where a higher bit of the count is set.
    pub fn shift_signed_bits(
        &mut self,
        alloc: Global,
        xs: &[Literal],
        counts: &[Literal],
    ) -> Result<Vec<Literal>, AllocError>
        ensures { MakesWord result (circuits.shift_signed_bits xs.now counts.now) self.old
            self.new }
    {
        let sign = sign_of(xs);
        let (word, past) = self.shift_stages(alloc, Shift::Down(sign), xs, counts)?;
        self.each(alloc, With::Choose(past, sign), &word)
    }
}
