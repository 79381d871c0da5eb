use thiserror::Error;

/// Why a goal has no clauses here.
#[derive(Clone, Copy, Debug, Error)]
pub enum BlastFault {
    /// The clauses have more variables than the maximum: at least so many.
    #[error("{0} variables")]
    Large(usize),
}
