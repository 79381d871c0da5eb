//! What is wrong with a certificate.

ghost use Rattle.cert_check.specs.Outcomes as outcomes;
ghost use Rattle.cert_check.specs.Outcomes.{HasName, name_in};

use cert_check_frames::Listed;
use cert_check_spec::RuleWord;
use cert_text::Cert;
use cert_text_parse::Line;
use tv_limits::Quantity;

/// The function that a fault names.
#[derive(Clone, Copy)]
pub enum Named {
    /// the listed one of this index
    Listed(usize),
    /// the one on the certificate's line of this index
    Line(usize),
}

/// Why a certificate is no proof.
#[derive(Clone, Copy)]
pub enum CheckFault {
    /// A line breaks a rule.
    NotProof {
        /// the function in whose part it is
        function: Named,
        /// where the line begins in the text, in bytes
        offset: usize,
        /// the rule
        rule: RuleWord,
    },
    /// A quantity is above its maximum.
    Limit {
        /// the quantity
        quantity: Quantity,
    },
}

/// What is wrong at a line.
#[derive(Clone, Copy)]
pub enum NamedFault {
    /// It breaks a rule in the part of a function.
    Broken(Named, RuleWord),
    /// A quantity is above its maximum.
    Above(Quantity),
}

/// What is wrong, and where.
#[derive(Clone, Copy)]
pub struct Placed {
    /// The place of the line that is at fault, as the caller counts.
    pub place: usize,
    /// What is wrong there.
    pub fault: NamedFault,
}

/// What is wrong at a line of a part.
#[derive(Clone, Copy)]
pub(crate) enum PartFault {
    /// It breaks a rule.
    Broken(RuleWord),
    /// A quantity is above its maximum.
    Above(Quantity),
}

// The name of the function whose part begins at a line, if one does.
fn part_name(line: &Line) -> Option<&[u8]>
    ensures { HasName (outcomes.part_name line.now) result }
{
    match line {
        Line::Function(part) => Some(part.name.as_slice()),
        _ => None,
    }
}

/// The name of the function that a fault names, if there is one.
pub fn name<'a>(listed: &[Listed<'a>], cert: &'a Cert, named: Named) -> Option<&'a [u8]>
    ensures { HasName (name_in listed.now cert.now.lines.items named) result }
{
    match named {
        Named::Listed(index) => match listed.get(index) {
            Some(function) => Some(function.name),
            None => None,
        },
        Named::Line(index) => match cert.lines.get(index) {
            Some(line) => part_name(line),
            None => None,
        },
    }
}
