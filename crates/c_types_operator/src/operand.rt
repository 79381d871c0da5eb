//! What an expression gives, and its value (6.3.2.1).

ghost use Rattle.std.specs.Prelude.{◌≡◌, IfOk, Ok, MatchResult, option_map};
ghost use Rattle.c_types_spec.specs.Types as types;
ghost use Rattle.c_types_spec.specs.Operands as rule;
ghost use Rattle.c_types_layout.specs.Types.{type_of as ctype_of, element_of};
ghost use Rattle.c_types_operator.specs.Gives.{Gives};
ghost use Rattle.c_types_operator.specs.Operands.{core_in, operand_of, valued_of};

use attempt::{Refusal, attempt};
use c_types_core::constants::{INT, WORD, type_of};
use c_types_core::expression::Core;
use c_types_core::fault::TypeFault;
use c_types_layout::types::{CType, Outer, same_scalar};
use c_types_spec::{Direction, LeftOut, Order, Scalar, Standing};
use std::alloc::{AllocError, Global};

/// What an expression designates.
#[derive(Drop)]
pub enum Category<'a> {
    /// A value.
    Value(Box<Core<'a>>),
    /// A local, by its number.
    InLocal(usize),
    /// The object so many bytes past an address.
    InMemory(Box<Core<'a>>, usize),
}

/// What an expression gives.
#[derive(Drop)]
pub struct Operand<'a> {
    /// What it designates.
    pub category: Category<'a>,
    /// Its type.
    pub of: CType,
    /// Which constant it is.
    pub standing: Standing,
    /// The offset of its operator, or of its first token.
    pub offset: usize,
}

/// A value of a type.
#[derive(Drop)]
pub struct Valued<'a> {
    /// The value.
    pub core: Box<Core<'a>>,
    /// Its type.
    pub of: CType,
    /// Which constant it is.
    pub standing: Standing,
    /// The offset of its operator, or of its first token.
    pub offset: usize,
}

/// Out of memory, where there is no memory for a part of the typed core.
pub fn core_or_memory<'a>(
    made: Result<Box<Core<'a>>, AllocError>,
) -> Result<Box<Core<'a>>, Refusal<TypeFault>>
    ensures { MatchResult result (λ x. made.entry ≡ Ok x) (λ e. e ≡ Refusal.NoMemory) }
{
    match made {
        Ok(core) => Ok(core),
        Err(_) => Err(Refusal::NoMemory),
    }
}

/// Out of memory, where there is no memory for a type.
pub fn type_or_memory(made: Result<CType, AllocError>) -> Result<CType, Refusal<TypeFault>>
    ensures { MatchResult result (λ x. made ≡ Ok x) (λ e. e ≡ Refusal.NoMemory) }
{
    match made {
        Ok(of) => Ok(of),
        Err(_) => Err(Refusal::NoMemory),
    }
}

/// Out of memory, where there is no memory for a part of a type.
pub fn part_or_memory(
    made: Result<Option<CType>, AllocError>,
) -> Result<Option<CType>, Refusal<TypeFault>>
    ensures { MatchResult result (λ x. made ≡ Ok x) (λ e. e ≡ Refusal.NoMemory) }
{
    match made {
        Ok(of) => Ok(of),
        Err(_) => Err(Refusal::NoMemory),
    }
}

/// The value in another type; no conversion where it has the type.
#[tactic(auto, unfolding(c_types_spec::specs::Operands::convert))]
pub fn convert<'a>(
    alloc: Global,
    to: Scalar,
    core: Box<Core<'a>>,
) -> Result<Box<Core<'a>>, Refusal<TypeFault>>
    ensures { Gives core_in result (Ok (rule.convert to (core_in core.entry))) }
{
    if same_scalar(type_of(&core), to) {
        Ok(core)
    } else {
        core_or_memory(Core::convert(alloc, to, core))
    }
}

/// The address so many bytes on, as a pointer.
#[tactic(auto, unfolding(c_types_spec::specs::Operands::displaced))]
pub fn displaced<'a>(
    alloc: Global,
    address: Box<Core<'a>>,
    displacement: usize,
    offset: usize,
) -> Result<Box<Core<'a>>, Refusal<TypeFault>>
    ensures { Gives core_in result (Ok (rule.displaced (core_in address.entry) displacement
        offset)) }
{
    if displacement == 0 {
        return Ok(address);
    }
    let one = attempt!(core_or_memory(Core::constant(alloc, INT, 1)));
    core_or_memory(Core::shift_pointer(
        alloc,
        Direction::Up,
        Order::PointerFirst,
        displacement,
        address,
        one,
        offset,
    ))
}
