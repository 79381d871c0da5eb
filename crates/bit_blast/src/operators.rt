// The bits of operators by those of their arguments.

ghost use Rattle.std.specs.Prelude.{◌≡◌, IfOk};
ghost use Rattle.term_core_spec.specs.Term.{Term};
ghost use Rattle.bit_blast_spec.specs.Goal as spec;
ghost use Rattle.bit_blast_circuits.specs.Built.{IsBuilt, MakesWord};

use crate::atoms::word_size;
use crate::parts::{joined, part, prefix, single, with_four};
use attempt::attempt;
use bit_blast_circuits::{Connective, Gates, Shift, negations, none, padded, sign_of};
use cnf_core::Literal;
use std::alloc::{AllocError, Global};
use term_core_spec::{
    BinaryOperator, QuaternaryOperator, TernaryOperator, UnaryOperator, WordOperator,
};

/// One argument: no gates.
#[tactic(auto, unfolding(bit_blast_spec::specs::Goal::unary_bits))]
pub fn unary_bits(
    alloc: Global,
    operator: UnaryOperator,
    x: &[Literal],
) -> Result<Vec<Literal>, AllocError>
    ensures { IfOk result (λ out. out.items ≡ (spec.unary_bits operator x.now 0).out) }
{
    match operator {
        UnaryOperator::Not | UnaryOperator::Complement => negations(alloc, x),
        UnaryOperator::ZeroExtend(to) => {
            padded(alloc, x, none(), word_size(to).saturating_sub(x.len()))
        }
        UnaryOperator::SignExtend(to) => {
            padded(alloc, x, sign_of(x), word_size(to).saturating_sub(x.len()))
        }
        UnaryOperator::Low(to) => prefix(alloc, x, word_size(to)),
        UnaryOperator::Byte(index) => part(alloc, x, 8 * usize::from(index), 8),
    }
}

/// Two words; a quotient and a remainder are made otherwise.
#[tactic(auto, unfolding(bit_blast_spec::specs::Goal::word_bits))]
pub fn word_bits(
    alloc: Global,
    gates: &mut Gates,
    operator: WordOperator,
    x: &[Literal],
    y: &[Literal],
) -> Result<Vec<Literal>, AllocError>
    ensures { MakesWord result (spec.word_bits operator x.now y.now) gates.old gates.new }
{
    match operator {
        WordOperator::Add => gates.sum_bits(alloc, x, y, none()),
        WordOperator::Subtract => gates.difference_bits(alloc, x, y),
        WordOperator::Multiply => gates.product_bits(alloc, x, y),
        WordOperator::And => gates.each_two(alloc, Connective::And, x, y),
        WordOperator::Or => gates.each_two(alloc, Connective::Or, x, y),
        WordOperator::Xor => gates.each_two(alloc, Connective::Xor, x, y),
        WordOperator::ShiftLeft => gates.shift_bits(alloc, Shift::Up, x, y),
        WordOperator::ShiftRight => gates.shift_bits(alloc, Shift::Down(none()), x, y),
        WordOperator::ShiftRightSigned => gates.shift_signed_bits(alloc, x, y),
        WordOperator::Divide | WordOperator::Remainder => Ok(Vec::new(alloc)),
    }
}

fn equal(
    alloc: Global,
    gates: &mut Gates,
    x: &[Literal],
    y: &[Literal],
) -> Result<Vec<Literal>, AllocError>
    ensures { IfOk result (λ out. (term : Term)
        → IsBuilt (spec.binary_bits term BinaryOperator.Equal x.now y.now) gates.old out.items
        gates.new) }
{
    let same = attempt!(gates.equal_bits(alloc, x, y));
    let out = attempt!(single(alloc, same));
    Ok(out)
}

fn less(
    alloc: Global,
    gates: &mut Gates,
    x: &[Literal],
    y: &[Literal],
) -> Result<Vec<Literal>, AllocError>
    ensures { IfOk result (λ out. (term : Term)
        → IsBuilt (spec.binary_bits term BinaryOperator.Less x.now y.now) gates.old out.items
        gates.new) }
{
    let less = attempt!(gates.less_bit(alloc, x, y));
    let out = attempt!(single(alloc, less));
    Ok(out)
}

/// Two arguments; the bits of a load are new.
#[tactic(auto, unfolding(bit_blast_spec::specs::Goal::binary_bits))]
pub fn binary_bits(
    alloc: Global,
    gates: &mut Gates,
    operator: BinaryOperator,
    x: &[Literal],
    y: &[Literal],
) -> Result<Vec<Literal>, AllocError>
    ensures { IfOk result (λ out. (term : Term)
        → IsBuilt (spec.binary_bits term operator x.now y.now) gates.old out.items gates.new) }
{
    match operator {
        BinaryOperator::And => gates.each_two(alloc, Connective::And, x, y),
        BinaryOperator::Or => gates.each_two(alloc, Connective::Or, x, y),
        BinaryOperator::Equal => equal(alloc, gates, x, y),
        BinaryOperator::Less => less(alloc, gates, x, y),
        BinaryOperator::Word(operator) => word_bits(alloc, gates, operator, x, y),
        BinaryOperator::Load => gates.new_bits(alloc, 8),
        BinaryOperator::Join => joined(alloc, x, y),
    }
}

/// Three arguments, of which the first is one bit.
#[tactic(auto, unfolding(bit_blast_spec::specs::Goal::ternary_bits))]
pub fn ternary_bits(
    alloc: Global,
    gates: &mut Gates,
    operator: TernaryOperator,
    test: &[Literal],
    x: &[Literal],
    y: &[Literal],
) -> Result<Vec<Literal>, AllocError>
    ensures { MakesWord result (spec.ternary_bits operator test.now x.now y.now) gates.old
        gates.new }
{
    match operator {
        TernaryOperator::Choose => gates.choose_bits(alloc, bit_of(test), x, y),
        TernaryOperator::Store => Ok(Vec::new(alloc)),
    }
}

/// Four arguments: no gates.
#[tactic(auto, unfolding(bit_blast_spec::specs::Goal::quaternary_bits))]
pub fn quaternary_bits(
    alloc: Global,
    operator: QuaternaryOperator,
    a: &[Literal],
    b: &[Literal],
    c: &[Literal],
    d: &[Literal],
) -> Result<Vec<Literal>, AllocError>
    ensures { IfOk result (λ out. out.items
        ≡ (spec.quaternary_bits operator a.now b.now c.now d.now 0).out) }
{
    match operator {
        QuaternaryOperator::Over => Ok(Vec::new(alloc)),
        QuaternaryOperator::Join => with_four(Vec::new(alloc), a, b, c, d),
    }
}

/// The one bit of a truth value.
pub fn bit_of(bits: &[Literal]) -> Literal
    ensures { result ≡ spec.bit_of bits.now }
{
    match bits.first() {
        Some(bit) => *bit,
        None => none(),
    }
}
