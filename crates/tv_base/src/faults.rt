/// Why a call for input or output was refused. Such a call leaves the object as it was, but for its
/// count of faults.
#[derive(Clone, Copy)]
pub enum OutsideFault {
    /// The object could not do it, as where a file is missing or a disk is full. Its count of
    /// faults rose in the call, or is at its last value, 18446744073709551615.
    Failed,
}
