//! The limit on each quantity that is bounded, once: clauses and code name it. A quantity is
//! reported as too large exactly where it is above its limit.
#![tactic(auto)]

/// Bytes of an ELF file.
pub const MAX_ELF_BYTES: usize = 16_777_216;
/// Bytes of a C file.
pub const MAX_C_BYTES: usize = 4_194_304;
/// Bytes of a certificate, read or to be written.
pub const MAX_CERTIFICATE_BYTES: usize = 67_108_864;
/// Bytes of the text of a call.
pub const MAX_CALL_BYTES: usize = 1_048_576;
/// Steps of the machine.
pub const MAX_STEPS: usize = 4_294_967_295;
/// Functions in the list of a command.
pub const MAX_FUNCTIONS: usize = 4096;
/// Nodes of one graph, before a call is inlined and after each.
pub const MAX_NODES: usize = 65_536;
/// Visits of one side of one set of obligations.
pub const MAX_VISITS: usize = 65_536;
/// Distinct subterms of one obligation, before it is brought to its normal form.
pub const MAX_TERMS: usize = 4_194_304;
/// Variables of the clauses of one obligation.
pub const MAX_VARIABLES: usize = 16_777_216;
/// Bytes of stack that a listed function may take.
pub const MAX_STACK: u64 = 65_536;
/// Clauses that the search for a log may learn.
pub const SEARCH_LIMIT: usize = 65_536;
/// What may nest in one another: constructs that are open in a C source (brackets that are not
/// closed, and `if`, `else`, `while`, `do`, `for` and `switch` that are not finished), operators on
/// a path of a term of a certificate, and nodes on a path of a proof.
pub const NESTING_LIMIT: usize = 128;
/// Operators in one whole expression of C.
pub const OPERATOR_LIMIT: usize = 128;

/// A quantity that is bounded.
#[derive(Clone, Copy, Debug)]
pub enum Quantity {
    /// Bytes of the executable.
    Elf,
    /// Bytes of the C source.
    C,
    /// Functions of the list.
    Functions,
    /// Nodes of a graph.
    Nodes,
    /// Bytes of the certificate.
    Certificate,
    /// Visits of one side.
    Visits,
    /// Distinct subterms of an obligation.
    Terms,
    /// Variables of the clauses of an obligation.
    Variables,
    /// Bytes of the call that is replayed.
    Call,
    /// Steps of the machine.
    Steps,
    /// Bytes of a certificate of what is known.
    Known,
}
