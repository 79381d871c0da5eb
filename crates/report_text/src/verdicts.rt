ghost use Rattle.std.specs.Prelude.{◌≡◌};
ghost use Rattle.std.specs.List.{list_all};
ghost use Rattle.report_text_spec.specs.Verdict.{status_of};
ghost use Rattle.report_text.specs.Verdicts.{verdict_of};

use crate::showing::Shown;
use cert_check_spec::RuleWord;
use code_reach_spec::CodeKind;
use elf_read_spec::ElfKind;
use pair_setup_spec::PairKind;
use report_text_spec::SourceKind;
use tv_base::Bytes;
use tv_limits::Quantity;

/// The judgement on a listed function.
#[derive(Drop)]
pub struct Judgement {
    /// Its name.
    pub name: Bytes,
    /// Whether its code does what its source says.
    pub valid: bool,
    /// How many bytes of stack a call of it takes.
    pub stack: u64,
}

/// The outcome of a run that neither a failed read or write nor a lack of memory ended.
#[derive(Drop)]
pub enum Verdict {
    /// The words are no command.
    RefusedWords,
    /// A quantity is above its maximum.
    TooLarge(Quantity),
    /// The first file is no executable. The offset counts bytes of the file.
    RefusedElf {
        kind: ElfKind,
        offset: usize,
    },
    /// The second file has no tokens, its tokens are no unit, or the unit has no types. The offset
    /// counts bytes of the file.
    RefusedC {
        kind: SourceKind,
        offset: usize,
    },
    /// The two don't go together, by the function or global of this name.
    RefusedPair {
        kind: PairKind,
        name: Bytes,
    },
    /// The code of the function of this name is refused, at this address.
    RefusedCode {
        kind: CodeKind,
        name: Bytes,
        address: u32,
    },
    /// The third file is no certificate. The offset is the length of its longest prefix that begins
    /// one.
    RefusedCertificate {
        offset: usize,
    },
    /// The certificate is no proof: the line at this offset of it breaks a rule, in the part of the
    /// function of this name.
    NotProof {
        name: Bytes,
        offset: usize,
        rule: RuleWord,
    },
    /// The certificate is a proof: each listed function is valid, in the order of the list.
    Checked(Vec<Judgement>),
    /// Each listed function has its judgement, in the order of the list.
    Judged(Vec<Judgement>),
    /// A function is shown.
    Showed(Shown),
}

/// Whether all of them are valid.
fn all_valid(judgements: &[Judgement]) -> bool
    ensures { result ≡ list_all (λ j. j.valid) judgements.now }
{
    judgements.iter().all(|j| j.valid)
}

/// The exit status: 0 where all listed functions are valid or one is shown, 1 where some aren't
/// valid, 2 for the words, 3 for the inputs, 6 for the certificate, 7 for a limit.
pub fn status(verdict: &Verdict) -> u8
    ensures { result ≡ status_of (verdict_of verdict.now) }
{
    match verdict {
        Verdict::RefusedWords => 2,
        Verdict::TooLarge(_) => 7,
        Verdict::RefusedElf { .. }
        | Verdict::RefusedC { .. }
        | Verdict::RefusedPair { .. }
        | Verdict::RefusedCode { .. } => 3,
        Verdict::RefusedCertificate { .. } | Verdict::NotProof { .. } => 6,
        Verdict::Checked(_) => 0,
        Verdict::Judged(judgements) => { if all_valid(judgements) { 0 } else { 1 } }
        Verdict::Showed(_) => 0,
    }
}
