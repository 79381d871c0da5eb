//! Expressions of the typed core.

ghost use Rattle.std.specs.Prelude.{◌≡◌, IfOk};
ghost use Rattle.c_types_spec.specs.Core as tree;
ghost use Rattle.c_types_core.specs.Expressions.{core_of};

use c_types_spec::{Arithmetic, Comparison, Direction, Order, Scalar};
use std::alloc::{AllocError, Global};

/// An expression of the typed core. Where a guard may be broken the last part of a variant is the
/// offset at which it is reported.
#[derive(Drop)]
pub enum Core<'a> {
    /// A constant of a type.
    Constant(Scalar, i128),
    /// The value of a local.
    ReadLocal(Scalar, usize, usize),
    /// The address of a global.
    GlobalAddress(&'a [u8]),
    /// The object so many bytes past an address.
    Load(Scalar, Box<Core<'a>>, usize, usize),
    /// The object that the assignment around it stores to.
    Target(Scalar, usize),
    /// A value in another type.
    Convert(Scalar, Box<Core<'a>>),
    /// An operator on two values.
    Operate(Arithmetic, Scalar, Box<Core<'a>>, Box<Core<'a>>, usize),
    /// A comparison of two values.
    Compare(Comparison, Box<Core<'a>>, Box<Core<'a>>),
    /// A pointer that is moved by so many objects of a size.
    Move(Direction, Order, usize, Box<Core<'a>>, Box<Core<'a>>, usize),
    /// An index below a bound.
    Within(usize, Box<Core<'a>>, usize),
    /// A pointer at a multiple of an alignment.
    Aligned(usize, Box<Core<'a>>, usize),
    /// One of two values, by a test.
    Choose(Scalar, Box<Core<'a>>, Box<Core<'a>>, Box<Core<'a>>),
}

/// A value in memory of its own.
pub fn boxed<T: Drop>(alloc: Global, value: T) -> Result<Box<T>, AllocError>
    ensures { IfOk result (λ x. x.value ≡ value) }
{
    Ok(Box::new(alloc, value)?)
}

#[tactic(auto, using(crate::proofs::Views::views))]
impl<'a> Core<'a> {
    /// A constant of a type.
    pub fn constant(alloc: Global, of: Scalar, value: i128) -> Result<Box<Core<'a>>, AllocError>
        ensures { IfOk result (λ x. core_of x.value ≡ tree.Constant of value) }
    {
        boxed(alloc, Core::Constant(of, value))
    }

    /// The value of a local.
    pub fn read_local(
        alloc: Global,
        of: Scalar,
        local: usize,
        offset: usize,
    ) -> Result<Box<Core<'a>>, AllocError>
        ensures { IfOk result (λ x. core_of x.value ≡ tree.ReadLocal of local offset) }
    {
        boxed(alloc, Core::ReadLocal(of, local, offset))
    }

    /// The address of a global.
    pub fn global_address(alloc: Global, name: &'a [u8]) -> Result<Box<Core<'a>>, AllocError>
        ensures { IfOk result (λ x. core_of x.value ≡ tree.GlobalAddress name.now) }
    {
        boxed(alloc, Core::GlobalAddress(name))
    }

    /// The object so many bytes past an address.
    pub fn load(
        alloc: Global,
        of: Scalar,
        address: Box<Core<'a>>,
        displacement: usize,
        offset: usize,
    ) -> Result<Box<Core<'a>>, AllocError>
        ensures { IfOk result (λ x. core_of x.value ≡ tree.Load of (core_of address.entry.value)
            displacement offset) }
    {
        boxed(alloc, Core::Load(of, address, displacement, offset))
    }

    /// The object that the assignment around it stores to.
    pub fn target(alloc: Global, of: Scalar, offset: usize) -> Result<Box<Core<'a>>, AllocError>
        ensures { IfOk result (λ x. core_of x.value ≡ tree.Target of offset) }
    {
        boxed(alloc, Core::Target(of, offset))
    }

    /// A value in another type.
    pub fn convert(
        alloc: Global,
        of: Scalar,
        operand: Box<Core<'a>>,
    ) -> Result<Box<Core<'a>>, AllocError>
        ensures { IfOk result (λ x. core_of x.value ≡ tree.Convert of (core_of
            operand.entry.value)) }
    {
        boxed(alloc, Core::Convert(of, operand))
    }

    /// An operator on two values.
    pub fn operate(
        alloc: Global,
        operator: Arithmetic,
        of: Scalar,
        left: Box<Core<'a>>,
        right: Box<Core<'a>>,
        offset: usize,
    ) -> Result<Box<Core<'a>>, AllocError>
        ensures { IfOk result (λ x. core_of x.value ≡ tree.Operate operator of (core_of
            left.entry.value) (core_of right.entry.value) offset) }
    {
        boxed(alloc, Core::Operate(operator, of, left, right, offset))
    }

    /// A comparison of two values.
    pub fn compare(
        alloc: Global,
        operator: Comparison,
        left: Box<Core<'a>>,
        right: Box<Core<'a>>,
    ) -> Result<Box<Core<'a>>, AllocError>
        ensures { IfOk result (λ x. core_of x.value ≡ tree.Compare operator (core_of
            left.entry.value) (core_of right.entry.value)) }
    {
        boxed(alloc, Core::Compare(operator, left, right))
    }

    /// A pointer that is moved by so many objects of a size.
    pub fn shift_pointer(
        alloc: Global,
        direction: Direction,
        order: Order,
        size: usize,
        pointer: Box<Core<'a>>,
        index: Box<Core<'a>>,
        offset: usize,
    ) -> Result<Box<Core<'a>>, AllocError>
        ensures { IfOk result (λ x. core_of x.value ≡ tree.Move direction order size (core_of
            pointer.entry.value) (core_of index.entry.value) offset) }
    {
        boxed(
            alloc,
            Core::Move(direction, order, size, pointer, index, offset),
        )
    }

    /// An index below a bound.
    pub fn within(
        alloc: Global,
        bound: usize,
        index: Box<Core<'a>>,
        offset: usize,
    ) -> Result<Box<Core<'a>>, AllocError>
        ensures { IfOk result (λ x. core_of x.value ≡ tree.Within bound (core_of index.entry.value)
            offset) }
    {
        boxed(alloc, Core::Within(bound, index, offset))
    }

    /// A pointer at a multiple of an alignment.
    pub fn aligned(
        alloc: Global,
        alignment: usize,
        pointer: Box<Core<'a>>,
        offset: usize,
    ) -> Result<Box<Core<'a>>, AllocError>
        ensures { IfOk result (λ x. core_of x.value ≡ tree.Aligned alignment (core_of
            pointer.entry.value) offset) }
    {
        boxed(alloc, Core::Aligned(alignment, pointer, offset))
    }

    /// One of two values, by a test.
    pub fn choose(
        alloc: Global,
        of: Scalar,
        test: Box<Core<'a>>,
        first: Box<Core<'a>>,
        second: Box<Core<'a>>,
    ) -> Result<Box<Core<'a>>, AllocError>
        ensures { IfOk result (λ x. core_of x.value ≡ tree.Choose of (core_of test.entry.value)
            (core_of first.entry.value) (core_of second.entry.value)) }
    {
        boxed(alloc, Core::Choose(of, test, first, second))
    }
}
