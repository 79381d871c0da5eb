ghost use Rattle.std.specs.Prelude.{ℕ, IfOk};
ghost use Rattle.term_core_spec.specs.Term.{Term};
ghost use Rattle.bit_blast_spec.specs.Circuits as circuits;
ghost use Rattle.bit_blast_circuits.specs.Built.{IsBuilt, MakesBit, MakesWord};
ghost use Rattle.bit_blast_circuits.specs.Kinds.{gate_of, gate_with};

use crate::Gates;
use crate::words::{negations, none, one};
use cnf_core::Literal;
use std::alloc::{AllocError, Global};

/// A gate of two bits.
#[derive(Clone, Copy)]
pub enum Connective {
    /// both
    And,
    /// one of them at least
    Or,
    /// one of them alone
    Xor,
    /// the first where this literal holds, else the second
    Choose(Literal),
}

/// What is done to each bit of a word.
#[derive(Clone, Copy)]
pub(crate) enum With {
    /// the bit and this one
    AndAfter(Literal),
    /// this one and the bit
    AndBefore(Literal),
    /// where the first holds the second, else the bit
    Choose(Literal, Literal),
}

impl Gates {
    /// So many new bits.
    pub fn new_bits(&mut self, alloc: Global, count: usize) -> Result<Vec<Literal>, AllocError>
        ensures { IfOk result (λ out. (term : Term) (index : ℕ)
            → IsBuilt (circuits.new_bits term index count) self.old out.items self.new) }
    {
        let mut out = Vec::new(alloc);
        for _ in 0..count {
            let bit = self.fresh()?;
            out.push(bit)?;
        }
        Ok(out)
    }

    /// A gate of two bits.
    pub fn connect(
        &mut self,
        connective: &Connective,
        a: Literal,
        b: Literal,
    ) -> Result<Literal, AllocError>
        ensures { MakesBit result (gate_of connective.now a b) self.old self.new }
    {
        match connective {
            Connective::And => self.and_gate(a, b),
            Connective::Or => self.or_gate(a, b),
            Connective::Xor => self.xor_gate(a, b),
            Connective::Choose(c) => self.mux_gate(*c, a, b),
        }
    }

    /// A gate of two bits for each index that both words have.
    pub fn each_two(
        &mut self,
        alloc: Global,
        connective: Connective,
        xs: &[Literal],
        ys: &[Literal],
    ) -> Result<Vec<Literal>, AllocError>
        ensures { MakesWord result (circuits.each_two
            (gate_of connective) xs.now ys.now) self.old self.new }
    {
        let mut out = Vec::new(alloc);
        for index in 0..xs.len().min(ys.len()) {
            let x = xs[index];
            let y = ys[index];
            let bit = self.connect(&connective, x, y)?;
            out.push(bit)?;
        }
        Ok(out)
    }

    /// The bits of the first word where the literal holds, else those of the second.
    pub fn choose_bits(
        &mut self,
        alloc: Global,
        c: Literal,
        xs: &[Literal],
        ys: &[Literal],
    ) -> Result<Vec<Literal>, AllocError>
        ensures { MakesWord result (circuits.choose_bits c xs.now ys.now) self.old self.new }
    {
        self.each_two(alloc, Connective::Choose(c), xs, ys)
    }

    /// A gate of one bit.
    fn connect_with(&mut self, with: &With, x: Literal) -> Result<Literal, AllocError>
        ensures { MakesBit result (gate_with with.now x) self.old self.new }
    {
        match with {
            With::AndAfter(bit) => self.and_gate(x, *bit),
            With::AndBefore(bit) => self.and_gate(*bit, x),
            With::Choose(c, a) => self.mux_gate(*c, *a, x),
        }
    }

    /// A gate of one bit for each bit of the word.
    pub(crate) fn each(
        &mut self,
        alloc: Global,
        with: With,
        xs: &[Literal],
    ) -> Result<Vec<Literal>, AllocError>
        ensures { MakesWord result (circuits.each (gate_with with) xs.now) self.old self.new }
    {
        let mut out = Vec::new(alloc);
        for x in xs {
            let bit = self.connect_with(&with, *x)?;
            out.push(bit)?;
        }
        Ok(out)
    }

    /// A gate of the result so far and of each further bit, from the lowest on.
    fn fold_gates(
        &mut self,
        connective: Connective,
        first: Literal,
        bits: &[Literal],
    ) -> Result<Literal, AllocError>
        ensures { MakesBit result (circuits.fold_gates
            (gate_of connective) first bits.now) self.old self.new }
    {
        let mut so_far = first;
        for bit in bits {
            so_far = self.connect(&connective, so_far, *bit)?;
        }
        Ok(so_far)
    }

    /// All bits; truth where there are none.
    pub fn and_all(&mut self, bits: &[Literal]) -> Result<Literal, AllocError>
        ensures { MakesBit result (circuits.and_all bits.now) self.old self.new }
    {
        match bits {
            [] => Ok(one()),
            [first, rest @ ..] => self.fold_gates(Connective::And, *first, rest),
        }
    }

    /// One of the bits at least; falsehood where there are none.
    pub fn or_all(&mut self, bits: &[Literal]) -> Result<Literal, AllocError>
        ensures { MakesBit result (circuits.or_all bits.now) self.old self.new }
    {
        match bits {
            [] => Ok(none()),
            [first, rest @ ..] => self.fold_gates(Connective::Or, *first, rest),
        }
    }

    /// Whether the words are equal, at the indices that both have.
    pub fn equal_bits(
        &mut self,
        alloc: Global,
        xs: &[Literal],
        ys: &[Literal],
    ) -> Result<Literal, AllocError>
        ensures { MakesBit result (circuits.equal_bits xs.now ys.now) self.old self.new }
    {
        let unlike = self.each_two(alloc, Connective::Xor, xs, ys)?;
        let alike = negations(alloc, &unlike)?;
        self.and_all(&alike)
    }
}
