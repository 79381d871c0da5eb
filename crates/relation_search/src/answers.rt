/// What a judge answers of lines.
#[derive(Drop)]
pub enum Judged {
    /// An assignment under which all these lines hold makes those of these numbers false where they
    /// are to be shown: at least one.
    Refutes(Vec<usize>),
    /// No assignment does so to any of the lines.
    Holds,
    /// The judge gave up.
    Limit,
}

/// What is found of lines.
#[derive(Drop)]
pub enum Fit {
    /// The numbers of the lines that are kept, in ascending order.
    Kept(Vec<usize>),
    /// The judge gave up.
    Limit,
}
