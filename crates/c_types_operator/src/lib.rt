//! What operators of C give (ISO C11, 6.3 and 6.5): from operands to an operand, or to the fault
//! at the operator. Each function gives what the definition of its name in `c_types_spec` gives
//! (`specs/Gives.antt`).
#![tactic(auto)]

/// What `attempt!` does, but an error lets go of the values that are still owned by calls of
/// `drop`: else each field and variant of them is let go of in place, at each of these exits again.
#[macro_export]
macro_rules! attempt_or_drop {
    ($result:expr; $($owned:expr),+) => {
        match $result {
            Ok(value) => value,
            Err(error) => {
                $(drop($owned);)+
                return Err(error);
            }
        }
    };
    ($result:expr, $error:expr; $($owned:expr),+) => {
        match $result {
            Ok(value) => value,
            Err(_) => {
                $(drop($owned);)+
                return Err($error);
            }
        }
    };
}

pub mod arithmetic;
pub mod arms;
pub mod binary;
pub mod cast;
pub mod comparison;
pub mod conditional;
pub mod conversion;
pub mod logic;
pub mod member;
pub mod operand;
pub mod pointer;
pub mod scalar;
pub mod value;
