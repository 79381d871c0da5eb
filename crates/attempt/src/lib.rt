//! Calls that can fail: [`Refusal`], the error of a call that allocates and can find a fault, and
//! [`attempt!`] and [`allocated!`], a result's value, or an error of the function around.
#![tactic(auto)]

mod refusal;

pub use refusal::Refusal;

/// The value of a result. An error ends the function around, whose error it becomes, or the second
/// argument does: what `?` does, but without a conversion. `?` is two calls more, each with the
/// whole result as a value; where a function has several of them, the prover takes twice as long
/// over it.
#[macro_export]
macro_rules! attempt {
    ($result:expr) => {
        match $result {
            Ok(value) => value,
            Err(error) => return Err(error),
        }
    };
    ($result:expr, $error:expr) => {
        match $result {
            Ok(value) => value,
            Err(_) => return Err($error),
        }
    };
}

/// The value of a result, where an error is out of memory: it ends the function around.
#[macro_export]
macro_rules! allocated {
    ($result:expr) => {
        match $result {
            Ok(value) => value,
            Err(_) => return Err($crate::Refusal::NoMemory),
        }
    };
}
