//! What is computed of two words, and the tests of branches.

ghost use Rattle.std.specs.Prelude.{◌≡◌};
ghost use Rattle.term_core.specs.Trees.{term_of};
ghost use Rattle.term_core_spec.specs.Term as tree;
ghost use Rattle.term_core_spec.specs.Shapes as shapes;
ghost use Rattle.term_core_spec.specs.declared.Width.TheVariants.{W32};
ghost use Rattle.decompile_spec.specs.InstructionTerms as forms;
ghost use Rattle.decompile_spec.specs.State as state;
ghost use Rattle.decompile_terms.specs.Built.{Builds};

use crate::basic::{number, on_words, open, operand, table_index};
use crate::division::{signed_quotient, signed_remainder};
use crate::products::{high_product, high_product_signed, high_product_signed_unsigned};
use attempt::attempt;
use rv_instr::{ArithmeticOperation, BranchTest, Reg};
use std::alloc::{AllocError, Global};
use term_core::Term;
use term_core_spec::{BinaryOperator, TernaryOperator, UnaryOperator, WordOperator};

/// A word with its top bit flipped.
fn flipped(alloc: Global, x: Box<Term>) -> Result<Box<Term>, AllocError>
    ensures { Builds result (tree.bit_xor (term_of x.value) (shapes.sign_bit W32)) }
{
    let sign = attempt!(number(alloc, 0x8000_0000));
    on_words(alloc, WordOperator::Xor, x, sign)
}

fn less(alloc: Global, x: Box<Term>, y: Box<Term>) -> Result<Box<Term>, AllocError>
    ensures { Builds result (tree.less (term_of x.value) (term_of y.value)) }
{
    Term::binary(alloc, BinaryOperator::Less, x, y)
}

fn signed_less(alloc: Global, x: Box<Term>, y: Box<Term>) -> Result<Box<Term>, AllocError>
    ensures { Builds result (shapes.signed_less W32 (term_of x.value) (term_of y.value)) }
{
    let left = attempt!(flipped(alloc, x));
    let right = attempt!(flipped(alloc, y));
    less(alloc, left, right)
}

/// 1 where the test holds, else 0.
fn set_if(alloc: Global, test: Box<Term>) -> Result<Box<Term>, AllocError>
    ensures { Builds result (forms.set_if (term_of test.value)) }
{
    let one = attempt!(number(alloc, 1));
    let zero = attempt!(number(alloc, 0));
    Term::ternary(alloc, TernaryOperator::Choose, test, one, zero)
}

/// A shift by the low five bits of y.
fn shift(
    alloc: Global,
    operator: WordOperator,
    x: Box<Term>,
    y: Box<Term>,
) -> Result<Box<Term>, AllocError>
    ensures { Builds result (tree.on_words operator (term_of x.value) (forms.places (term_of
        y.value))) }
{
    let mask = attempt!(number(alloc, 31));
    let places = attempt!(on_words(alloc, WordOperator::And, y, mask));
    on_words(alloc, operator, x, places)
}

fn set_less(alloc: Global, x: Box<Term>, y: Box<Term>) -> Result<Box<Term>, AllocError>
    ensures { Builds result (forms.set_if (shapes.signed_less W32 (term_of x.value) (term_of
        y.value))) }
{
    let test = attempt!(signed_less(alloc, x, y));
    set_if(alloc, test)
}

fn set_less_unsigned(alloc: Global, x: Box<Term>, y: Box<Term>) -> Result<Box<Term>, AllocError>
    ensures { Builds result (forms.set_if (tree.less (term_of x.value) (term_of y.value))) }
{
    let test = attempt!(less(alloc, x, y));
    set_if(alloc, test)
}

/// What an operation gives of two words.
#[tactic(auto, unfolding(decompile_spec::specs::InstructionTerms::computed))]
pub fn computed(
    alloc: Global,
    operation: ArithmeticOperation,
    x: Box<Term>,
    y: Box<Term>,
) -> Result<Box<Term>, AllocError>
    ensures { Builds result (forms.computed operation (term_of x.value) (term_of y.value)) }
{
    match operation {
        ArithmeticOperation::Add => on_words(alloc, WordOperator::Add, x, y),
        ArithmeticOperation::Subtract => on_words(alloc, WordOperator::Subtract, x, y),
        ArithmeticOperation::ShiftLeft => shift(alloc, WordOperator::ShiftLeft, x, y),
        ArithmeticOperation::SetLess => set_less(alloc, x, y),
        ArithmeticOperation::SetLessUnsigned => set_less_unsigned(alloc, x, y),
        ArithmeticOperation::Xor => on_words(alloc, WordOperator::Xor, x, y),
        ArithmeticOperation::ShiftRightLogical => shift(alloc, WordOperator::ShiftRight, x, y),
        ArithmeticOperation::ShiftRightArithmetic => {
            shift(alloc, WordOperator::ShiftRightSigned, x, y)
        }
        ArithmeticOperation::Or => on_words(alloc, WordOperator::Or, x, y),
        ArithmeticOperation::And => on_words(alloc, WordOperator::And, x, y),
        ArithmeticOperation::Multiply => on_words(alloc, WordOperator::Multiply, x, y),
        ArithmeticOperation::MultiplyHigh => high_product_signed(alloc, x, y),
        ArithmeticOperation::MultiplyHighSignedUnsigned => {
            high_product_signed_unsigned(alloc, x, y)
        }
        ArithmeticOperation::MultiplyHighUnsigned => high_product(alloc, x, y),
        ArithmeticOperation::Divide => signed_quotient(alloc, &x, &y),
        ArithmeticOperation::DivideUnsigned => on_words(alloc, WordOperator::Divide, x, y),
        ArithmeticOperation::Remainder => signed_remainder(alloc, &x, &y),
        ArithmeticOperation::RemainderUnsigned => on_words(alloc, WordOperator::Remainder, x, y),
    }
}

fn equal(alloc: Global, x: Box<Term>, y: Box<Term>) -> Result<Box<Term>, AllocError>
    ensures { Builds result (tree.equal (term_of x.value) (term_of y.value)) }
{
    Term::binary(alloc, BinaryOperator::Equal, x, y)
}

/// That the index of a table is this number.
pub fn is_index(alloc: Global, n: u32) -> Result<Box<Term>, AllocError>
    ensures { Builds result (tree.equal (tree.open_term state.table_index) (forms.number n)) }
{
    let index = attempt!(open(alloc, table_index()));
    let n = attempt!(number(alloc, n));
    equal(alloc, index, n)
}

fn opposite(alloc: Global, test: Box<Term>) -> Result<Box<Term>, AllocError>
    ensures { Builds result (tree.not_term (term_of test.value)) }
{
    Term::unary(alloc, UnaryOperator::Not, test)
}

/// Whether a branch is taken.
#[tactic(auto, unfolding(decompile_spec::specs::InstructionTerms::taken))]
pub fn taken(
    alloc: Global,
    test: BranchTest,
    x: Box<Term>,
    y: Box<Term>,
) -> Result<Box<Term>, AllocError>
    ensures { Builds result (forms.taken test (term_of x.value) (term_of y.value)) }
{
    match test {
        BranchTest::Equal => equal(alloc, x, y),
        BranchTest::NotEqual => {
            let same = attempt!(equal(alloc, x, y));
            opposite(alloc, same)
        }
        BranchTest::Less => signed_less(alloc, x, y),
        BranchTest::GreaterOrEqual => {
            let below = attempt!(signed_less(alloc, x, y));
            opposite(alloc, below)
        }
        BranchTest::LessUnsigned => less(alloc, x, y),
        BranchTest::GreaterOrEqualUnsigned => {
            let below = attempt!(less(alloc, x, y));
            opposite(alloc, below)
        }
    }
}

/// The test of a branch of two registers.
pub fn branch_test(
    alloc: Global,
    test: BranchTest,
    left: Reg,
    right: Reg,
) -> Result<Box<Term>, AllocError>
    ensures { Builds result (forms.taken test (forms.operand left) (forms.operand right)) }
{
    let left = attempt!(operand(alloc, left));
    let right = attempt!(operand(alloc, right));
    taken(alloc, test, left, right)
}
