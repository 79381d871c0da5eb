// The sort of an operator at its arguments' sorts.

ghost use Rattle.std.specs.Prelude.{◌≡◌};
ghost use Rattle.term_core_spec.specs.Sort as spec;

use crate::words::{all_ones, bit_count};
use term_core_spec::{
    Atom, BinaryOperator, QuaternaryOperator, Sort, TernaryOperator, UnaryOperator, Width,
};

const BYTE: Sort = Sort::Word(Width::W8);

const ADDRESS: Sort = Sort::Word(Width::W32);

fn same_sort(first: Sort, second: Sort) -> bool
    ensures { result ≡ spec.same_sort first second }
{
    match (first, second) {
        (Sort::Truth, Sort::Truth) => true,
        (Sort::Word(v), Sort::Word(w)) => bit_count(v) == bit_count(w),
        (Sort::Memory, Sort::Memory) => true,
        _ => false,
    }
}

fn is_word(sort: Sort) -> bool
    ensures { result ≡ spec.is_word sort }
{
    matches!(sort, Sort::Word(_))
}

fn bits_of(sort: Sort) -> u32
    ensures { result ≡ spec.bits_of sort }
{
    match sort {
        Sort::Word(width) => bit_count(width),
        _ => 0,
    }
}

fn sort_if(test: bool, sort: Sort) -> Option<Sort>
    ensures { result ≡ spec.sort_if test sort }
{
    if test { Some(sort) } else { None }
}

/// The sort of a term without arguments.
#[tactic(auto, unfolding(term_core_spec::specs::Sort::sort_of_atom))]
pub fn sort_of_atom(atom: Atom) -> Option<Sort>
    ensures { result ≡ spec.sort_of_atom atom }
{
    match atom {
        Atom::Truth(_) => Some(Sort::Truth),
        Atom::Constant(width, number) => sort_if(number <= all_ones(width), Sort::Word(width)),
        Atom::Open(variable) => Some(variable.sort),
    }
}

/// The sort of an operator with one argument.
#[tactic(auto, unfolding(term_core_spec::specs::Sort::sort_of_unary))]
pub fn sort_of_unary(operator: UnaryOperator, sort: Sort) -> Option<Sort>
    ensures { result ≡ spec.sort_of_unary operator sort }
{
    let bits = bits_of(sort);
    match operator {
        UnaryOperator::Not => sort_if(same_sort(sort, Sort::Truth), Sort::Truth),
        UnaryOperator::Complement => sort_if(is_word(sort), sort),
        UnaryOperator::ZeroExtend(to) | UnaryOperator::SignExtend(to) => {
            sort_if(is_word(sort) && bits <= bit_count(to), Sort::Word(to))
        }
        UnaryOperator::Low(to) => sort_if(is_word(sort) && bit_count(to) <= bits, Sort::Word(to)),
        UnaryOperator::Byte(place) => sort_if(is_word(sort) && 8 * u32::from(place) < bits, BYTE),
    }
}

/// The sort of an operator with two arguments.
#[tactic(auto, unfolding(term_core_spec::specs::Sort::sort_of_binary))]
pub fn sort_of_binary(operator: BinaryOperator, first: Sort, second: Sort) -> Option<Sort>
    ensures { result ≡ spec.sort_of_binary operator first second }
{
    match operator {
        BinaryOperator::And | BinaryOperator::Or => sort_if(
            same_sort(first, Sort::Truth) && same_sort(second, Sort::Truth),
            Sort::Truth,
        ),
        BinaryOperator::Equal => sort_if(
            !same_sort(first, Sort::Memory) && same_sort(first, second),
            Sort::Truth,
        ),
        BinaryOperator::Less => sort_if(is_word(first) && same_sort(first, second), Sort::Truth),
        BinaryOperator::Word(_) => sort_if(is_word(first) && same_sort(first, second), first),
        BinaryOperator::Load => sort_if(
            same_sort(first, Sort::Memory) && same_sort(second, ADDRESS),
            BYTE,
        ),
        BinaryOperator::Join => sort_if(
            same_sort(first, BYTE) && same_sort(second, BYTE),
            Sort::Word(Width::W16),
        ),
    }
}

/// The sort of an operator with three arguments.
#[tactic(auto, unfolding(term_core_spec::specs::Sort::sort_of_ternary))]
pub fn sort_of_ternary(
    operator: TernaryOperator,
    first: Sort,
    second: Sort,
    third: Sort,
) -> Option<Sort>
    ensures { result ≡ spec.sort_of_ternary operator first second third }
{
    match operator {
        TernaryOperator::Choose => sort_if(
            same_sort(first, Sort::Truth) && same_sort(second, third),
            second,
        ),
        TernaryOperator::Store => sort_if(
            same_sort(first, Sort::Memory) && same_sort(second, ADDRESS) && same_sort(third, BYTE),
            Sort::Memory,
        ),
    }
}

/// The sort of an operator with four arguments.
#[tactic(auto, unfolding(term_core_spec::specs::Sort::sort_of_quaternary))]
pub fn sort_of_quaternary(
    operator: QuaternaryOperator,
    first: Sort,
    second: Sort,
    third: Sort,
    fourth: Sort,
) -> Option<Sort>
    ensures { result ≡ spec.sort_of_quaternary operator first second third fourth }
{
    match operator {
        QuaternaryOperator::Over => {
            let memories = same_sort(first, Sort::Memory) && same_sort(second, Sort::Memory);
            let addresses = same_sort(third, ADDRESS) && same_sort(fourth, ADDRESS);
            sort_if(memories && addresses, Sort::Memory)
        }
        QuaternaryOperator::Join => {
            let low = same_sort(first, BYTE) && same_sort(second, BYTE);
            let high = same_sort(third, BYTE) && same_sort(fourth, BYTE);
            sort_if(low && high, Sort::Word(Width::W32))
        }
    }
}

fn all_bytes(sorts: &[Option<Sort>]) -> bool
    ensures { result ≡ spec.all_bytes sorts.now }
{
    match sorts.split_first() {
        None => true,
        Some((None, _)) => false,
        Some((Some(sort), rest)) => same_sort(*sort, BYTE) && all_bytes(rest),
    }
}

/// The sort of the word of eight bytes.
pub fn sort_of_octonary(sorts: [Option<Sort>; 8]) -> Option<Sort>
    ensures { result ≡ spec.sort_if (spec.all_bytes sorts) (Sort.Word Width.W64) }
{
    sort_if(all_bytes(&sorts), Sort::Word(Width::W64))
}
