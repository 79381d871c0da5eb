//! What the check says of certificates, in words.

ghost use Rattle.cert_text.specs.Certificates.{certificate_of};
ghost use Rattle.validity_laws.specs.CheckStatements.{AreLines};

use attempt::Refusal;
use cert_check::{CheckFault, Listed, check, name};
use cert_check_spec::RuleWord;
use cert_text::Cert;
use row_io::Out;
use std::alloc::Global;
use tv_limits::Quantity;

/// The word of a rule.
fn word(rule: RuleWord) -> &'static str {
    match rule {
        RuleWord::Later => "Later",
        RuleWord::Stranger => "Stranger",
        RuleWord::Stack => "Stack",
        RuleWord::Inline => "Inline",
        RuleWord::Point => "Point",
        RuleWord::Count => "Count",
        RuleWord::Callee => "Callee",
        RuleWord::Sort => "Sort",
        RuleWord::Cyclic => "Cyclic",
        RuleWord::Passed => "Passed",
        RuleWord::Logs => "Logs",
        RuleWord::Same => "Same",
        RuleWord::Step => "Step",
        RuleWord::Word => "Word",
        RuleWord::Unclosed => "Unclosed",
        RuleWord::Missing => "Missing",
    }
}

/// The name of a quantity.
fn quantity_name(quantity: Quantity) -> &'static str {
    match quantity {
        Quantity::Elf => "elf",
        Quantity::C => "c",
        Quantity::Functions => "functions",
        Quantity::Nodes => "nodes",
        Quantity::Certificate => "cert",
        Quantity::Visits => "visits",
        Quantity::Terms => "terms",
        Quantity::Variables => "variables",
        Quantity::Call => "call",
        Quantity::Steps => "steps",
        Quantity::Known => "known",
    }
}

/// What is wrong with a certificate.
fn put_fault(listed: &[Listed<'_>], cert: &Cert, fault: Refusal<CheckFault>, out: &mut Out) {
    match fault {
        Refusal::Fault(
            CheckFault::NotProof {
                function,
                offset,
                rule,
            },
        ) => {
            out.put("not a proof ");
            out.bytes(name(listed, cert, function).unwrap_or(b"?"));
            out.put(" at ");
            out.show(&offset);
            out.put(" ");
            out.put(word(rule));
        }
        Refusal::Fault(CheckFault::Limit { quantity }) => {
            out.put("limit ");
            out.put(quantity_name(quantity));
        }
        Refusal::NoMemory => out.fail(),
    }
}

/// What the check says of a certificate.
pub(crate) fn put_cert(alloc: Global, listed: &[Listed<'_>], cert: &Cert, out: &mut Out)
    requires { AreLines (certificate_of cert.now) }
{
    match check(alloc, listed, cert) {
        Ok(()) => out.put("proof"),
        Err(fault) => put_fault(listed, cert, fault, out),
    }
}
