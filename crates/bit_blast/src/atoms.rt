// The bits of terms without arguments.

ghost use Rattle.std.specs.Prelude.{◌≡◌, IfOk};
ghost use Rattle.term_core_spec.specs.Sort.{bits};
ghost use Rattle.bit_blast_spec.specs.Goal as spec;
ghost use Rattle.bit_blast_circuits.specs.Built.{MakesWord};

use crate::parts::single;
use attempt::attempt;
use bit_blast_circuits::{Gates, none, one};
use cnf_core::Literal;
use std::alloc::{AllocError, Global};
use term_core::bit_count;
use term_core_spec::{Atom, Sort, Width};

/// How many bits a word has.
pub fn word_size(width: Width) -> usize
    ensures { result ≡ bits width }
{
    bit_count(width) as usize
}

fn known(value: bool) -> Literal
    ensures { result ≡ spec.known value }
{
    if value { one() } else { none() }
}

fn known_bits(alloc: Global, count: usize, number: u64) -> Result<Vec<Literal>, AllocError>
    ensures { IfOk result (λ out. out.items ≡ spec.known_bits count number) }
{
    let mut out = Vec::new(alloc);
    let mut rest = number;
    for _index in 0..count {
        attempt!(out.push(known(rest % 2 == 1)), AllocError);
        rest /= 2;
    }
    Ok(out)
}

fn size_of(sort: Sort) -> usize
    ensures { result ≡ spec.size_of sort }
{
    match sort {
        Sort::Truth => 1,
        Sort::Word(width) => word_size(width),
        Sort::Memory => 0,
    }
}

/// The bits of a known value, or new ones of a variable.
pub fn atom_bits(alloc: Global, gates: &mut Gates, atom: Atom) -> Result<Vec<Literal>, AllocError>
    ensures { MakesWord result (spec.atom_bits atom) gates.old gates.new }
{
    match atom {
        Atom::Truth(value) => single(alloc, known(value)),
        Atom::Constant(width, number) => known_bits(alloc, word_size(width), number),
        Atom::Open(variable) => gates.new_bits(alloc, size_of(variable.sort)),
    }
}
