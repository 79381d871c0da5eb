ghost use Rattle.std.specs.Prelude.{◌≡◌, ◌++◌, IfOk, OnOk, codes, count_by, decimal, flat_map, not};
ghost use Rattle.report_text_spec.specs.Verdict as spec;
ghost use Rattle.report_text_spec.specs.Words as words;
ghost use Rattle.report_text_spec.specs.Report as texts;
ghost use Rattle.report_text.specs.Judgements.{judgement_of, judgements_of};
ghost use Rattle.report_text.specs.Verdicts.{verdict_of};

use crate::lines::{digits, push_address, push_all};
use crate::showing::push_shown;
use crate::{Judgement, Verdict};
use attempt::attempt;
use c_parse_spec::{LeftOut, ParseFaultKind};
use c_token_spec::token::TokenFaultKind;
use c_types_spec::{LeftOut as TypeLeftOut, TypeFaultKind};
use cert_check_spec::RuleWord;
use code_reach_spec::CodeKind;
use elf_read_spec::ElfKind;
use itoa::Buffer;
use pair_setup_spec::PairKind;
use report_text_spec::SourceKind;
use std::alloc::{AllocError, Global};
use tv_limits::{
    MAX_C_BYTES, MAX_CALL_BYTES, MAX_CERTIFICATE_BYTES, MAX_ELF_BYTES, MAX_FUNCTIONS, MAX_NODES,
    MAX_STEPS, MAX_TERMS, MAX_VARIABLES, MAX_VISITS, Quantity,
};

/// `limit QUANTITY MAXIMUM`
fn push_maximum(out: &mut Vec<u8>, word: &[u8], maximum: usize) -> Result<(), AllocError>
    ensures { OnOk result (out.new.items ≡ out.old.items
        ++ texts.line (codes "limit " ++ word.now ++ codes " " ++ decimal maximum)) }
{
    let mut buffer = Buffer::new();
    let number = digits(&mut buffer, maximum as u64);
    push_all(out, &[b"limit ", word, b" ", number, b"\n"])
}

/// The line of a quantity above its maximum.
fn push_limit(out: &mut Vec<u8>, quantity: Quantity) -> Result<(), AllocError>
    ensures { OnOk result (out.new.items
        ≡ out.old.items ++ texts.report_of (spec.TooLarge quantity)) }
{
    match quantity {
        Quantity::Elf => push_maximum(out, b"elf", MAX_ELF_BYTES),
        Quantity::C => push_maximum(out, b"c", MAX_C_BYTES),
        Quantity::Functions => push_maximum(out, b"functions", MAX_FUNCTIONS),
        Quantity::Nodes => push_maximum(out, b"nodes", MAX_NODES),
        Quantity::Certificate => push_maximum(out, b"cert", MAX_CERTIFICATE_BYTES),
        Quantity::Visits => push_maximum(out, b"visits", MAX_VISITS),
        Quantity::Terms => push_maximum(out, b"terms", MAX_TERMS),
        Quantity::Variables => push_maximum(out, b"variables", MAX_VARIABLES),
        Quantity::Call => push_maximum(out, b"call", MAX_CALL_BYTES),
        Quantity::Steps => push_maximum(out, b"steps", MAX_STEPS),
        Quantity::Known => push_maximum(out, b"known", MAX_CERTIFICATE_BYTES),
    }
}

/// The word of a refusal of an executable.
fn elf_word(kind: ElfKind) -> &'static [u8]
    ensures { result.now ≡ words.elf_word kind }
{
    match kind {
        ElfKind::Short => b"Short",
        ElfKind::Magic => b"Magic",
        ElfKind::Class => b"Class",
        ElfKind::Endian => b"Endian",
        ElfKind::Version => b"Version",
        ElfKind::Kind => b"Kind",
        ElfKind::Machine => b"Machine",
        ElfKind::Flags => b"Flags",
        ElfKind::HeaderSize => b"HeaderSize",
        ElfKind::Table => b"Table",
        ElfKind::SegmentRange => b"SegmentRange",
        ElfKind::SegmentOverlap => b"SegmentOverlap",
        ElfKind::NoSymbols => b"NoSymbols",
        ElfKind::SymbolTable => b"SymbolTable",
        ElfKind::StringTable => b"StringTable",
    }
}

/// `refused elf KIND at OFFSET`
fn push_refused_elf(out: &mut Vec<u8>, kind: ElfKind, offset: usize) -> Result<(), AllocError>
    ensures { OnOk result (out.new.items
        ≡ out.old.items ++ texts.report_of (spec.RefusedElf kind offset)) }
{
    let mut buffer = Buffer::new();
    let number = digits(&mut buffer, offset as u64);
    push_all(
        out,
        &[b"refused elf ", elf_word(kind), b" at ", number, b"\n"],
    )
}

/// The word of a text without tokens.
fn token_word(kind: TokenFaultKind) -> &'static [u8]
    ensures { result.now ≡ words.token_word kind }
{
    match kind {
        TokenFaultKind::Byte => b"Byte",
        TokenFaultKind::Number => b"Number",
        TokenFaultKind::Character => b"Character",
        TokenFaultKind::Comment => b"Comment",
    }
}

/// The word of a part of C that is left out.
fn left_out_word(part: LeftOut) -> &'static [u8]
    ensures { result.now ≡ words.left_out_word part }
{
    match part {
        LeftOut::Goto => b"Goto",
        LeftOut::Union => b"Union",
        LeftOut::Float => b"Float",
        LeftOut::Volatile => b"Volatile",
        LeftOut::Asm => b"Asm",
        LeftOut::Variadic => b"Variadic",
        LeftOut::Bool => b"Bool",
        LeftOut::Attribute => b"Attribute",
        LeftOut::Keyword => b"Keyword",
        LeftOut::FunctionPointer => b"FunctionPointer",
        LeftOut::BitField => b"BitField",
        LeftOut::Comma => b"Comma",
        LeftOut::Call => b"Call",
    }
}

/// The word of a refusal of tokens.
fn push_syntax_word(out: &mut Vec<u8>, kind: ParseFaultKind) -> Result<(), AllocError>
    ensures { OnOk result (out.new.items ≡ out.old.items ++ words.syntax_word kind) }
{
    match kind {
        ParseFaultKind::Unexpected => out.extend_from_slice(b"Unexpected"),
        ParseFaultKind::LeftOut(part) => push_all(out, &[b"LeftOut.", left_out_word(part)]),
        ParseFaultKind::Depth => out.extend_from_slice(b"Depth"),
    }
}

/// The word of a part of C that is left out, which typing alone can see.
fn type_left_out_word(part: TypeLeftOut) -> &'static [u8]
    ensures { result.now ≡ words.type_left_out_word part }
{
    match part {
        TypeLeftOut::Word64 => b"Word64",
        TypeLeftOut::Struct => b"Struct",
        TypeLeftOut::Array => b"Array",
        TypeLeftOut::Difference => b"Difference",
        TypeLeftOut::FunctionName => b"FunctionName",
        TypeLeftOut::CallPlace => b"CallPlace",
        TypeLeftOut::StaticLocal => b"StaticLocal",
    }
}

/// The word of a refusal of a unit.
fn push_type_word(out: &mut Vec<u8>, kind: TypeFaultKind) -> Result<(), AllocError>
    ensures { OnOk result (out.new.items ≡ out.old.items ++ words.type_word kind) }
{
    match kind {
        TypeFaultKind::Unknown => out.extend_from_slice(b"Unknown"),
        TypeFaultKind::Twice => out.extend_from_slice(b"Twice"),
        TypeFaultKind::Mismatch => out.extend_from_slice(b"Mismatch"),
        TypeFaultKind::NotLvalue => out.extend_from_slice(b"NotLvalue"),
        TypeFaultKind::AddressOfLocal => out.extend_from_slice(b"AddressOfLocal"),
        TypeFaultKind::Incomplete => out.extend_from_slice(b"Incomplete"),
        TypeFaultKind::TooManyWords => out.extend_from_slice(b"TooManyWords"),
        TypeFaultKind::Fallthrough => out.extend_from_slice(b"Fallthrough"),
        TypeFaultKind::LeftOut(part) => push_all(out, &[b"LeftOut.", type_left_out_word(part)]),
    }
}

/// The word of a refusal of a source.
fn push_source_word(out: &mut Vec<u8>, kind: SourceKind) -> Result<(), AllocError>
    ensures { OnOk result (out.new.items ≡ out.old.items ++ words.source_word kind) }
{
    match kind {
        SourceKind::Token(kind) => out.extend_from_slice(token_word(kind)),
        SourceKind::Syntax(kind) => push_syntax_word(out, kind),
        SourceKind::Typing(kind) => push_type_word(out, kind),
    }
}

/// `refused c KIND at OFFSET`
fn push_refused_c(out: &mut Vec<u8>, kind: SourceKind, offset: usize) -> Result<(), AllocError>
    ensures { OnOk result (out.new.items
        ≡ out.old.items ++ texts.report_of (spec.RefusedC kind offset)) }
{
    attempt!(out.extend_from_slice(b"refused c "));
    attempt!(push_source_word(out, kind));
    let mut buffer = Buffer::new();
    let number = digits(&mut buffer, offset as u64);
    push_all(out, &[b" at ", number, b"\n"])
}

/// The word of a refusal of a pair.
fn pair_word(kind: PairKind) -> &'static [u8]
    ensures { result.now ≡ words.pair_word kind }
{
    match kind {
        PairKind::NothingListed => b"NothingListed",
        PairKind::NoSource => b"NoSource",
        PairKind::NoSymbol => b"NoSymbol",
        PairKind::ObjectSize => b"ObjectSize",
        PairKind::Recursive => b"Recursive",
        PairKind::StackTooDeep => b"StackTooDeep",
    }
}

/// Adds a text, a word, a blank, a name and another text.
fn push_named<'a>(
    out: &mut Vec<u8>,
    first: &'a [u8],
    word: &'a [u8],
    name: &'a [u8],
    last: &'a [u8],
) -> Result<(), AllocError>
    ensures { OnOk result (out.new.items
        ≡ out.old.items ++ (first.now ++ word.now ++ codes " " ++ name.now ++ last.now)) }
{
    push_all(out, &[first, word, b" ", name, last])
}

/// `refused pair KIND NAME`
fn push_refused_pair(out: &mut Vec<u8>, kind: PairKind, name: &[u8]) -> Result<(), AllocError>
    ensures { OnOk result (out.new.items
        ≡ out.old.items ++ texts.report_of (spec.RefusedPair kind name.now)) }
{
    push_named(out, b"refused pair ", pair_word(kind), name, b"\n")
}

/// The word of a refusal of code.
fn code_word(kind: CodeKind) -> &'static [u8]
    ensures { result.now ≡ words.code_word kind }
{
    match kind {
        CodeKind::NoFunction => b"NoFunction",
        CodeKind::Ambiguous => b"Ambiguous",
        CodeKind::Empty => b"Empty",
        CodeKind::Writable => b"Writable",
        CodeKind::Misplaced => b"Misplaced",
        CodeKind::Undecoded => b"Undecoded",
        CodeKind::Indirect => b"Indirect",
        CodeKind::Leaves => b"Leaves",
        CodeKind::Overlap => b"Overlap",
    }
}

/// `refused code KIND NAME at ADDRESS`
fn push_refused_code(
    alloc: Global,
    out: &mut Vec<u8>,
    kind: CodeKind,
    name: &[u8],
    address: u32,
) -> Result<(), AllocError>
    ensures { OnOk result (out.new.items
        ≡ out.old.items ++ texts.report_of (spec.RefusedCode kind name.now address)) }
{
    push_named(out, b"refused code ", code_word(kind), name, b" at ")?;
    push_address(alloc, out, address)?;
    out.push(b'\n')?;
    Ok(())
}

/// `cert refused at OFFSET`
fn push_refused_certificate(out: &mut Vec<u8>, offset: usize) -> Result<(), AllocError>
    ensures { OnOk result (out.new.items
        ≡ out.old.items ++ texts.report_of (spec.RefusedCertificate offset)) }
{
    let mut buffer = Buffer::new();
    let number = digits(&mut buffer, offset as u64);
    push_all(out, &[b"cert refused at ", number, b"\n"])
}

/// The word of a rule of certificates.
fn rule_word(rule: RuleWord) -> &'static [u8]
    ensures { result.now ≡ words.rule_word rule }
{
    match rule {
        RuleWord::Later => b"Later",
        RuleWord::Stranger => b"Stranger",
        RuleWord::Stack => b"Stack",
        RuleWord::Inline => b"Inline",
        RuleWord::Point => b"Point",
        RuleWord::Count => b"Count",
        RuleWord::Callee => b"Callee",
        RuleWord::Sort => b"Sort",
        RuleWord::Cyclic => b"Cyclic",
        RuleWord::Passed => b"Passed",
        RuleWord::Logs => b"Logs",
        RuleWord::Same => b"Same",
        RuleWord::Step => b"Step",
        RuleWord::Word => b"Word",
        RuleWord::Unclosed => b"Unclosed",
        RuleWord::Missing => b"Missing",
    }
}

/// `not a proof NAME at OFFSET RULE`
fn push_not_proof(
    out: &mut Vec<u8>,
    name: &[u8],
    offset: usize,
    rule: RuleWord,
) -> Result<(), AllocError>
    ensures { OnOk result (out.new.items
        ≡ out.old.items ++ texts.report_of (spec.NotProof name.now offset rule)) }
{
    push_all(out, &[b"not a proof ", name, b" at "])?;
    let mut buffer = Buffer::new();
    let number = digits(&mut buffer, offset as u64);
    push_all(out, &[number, b" "])?;
    push_all(out, &[rule_word(rule), b"\n"])
}

/// `valid NAME stack=S` or `unproved NAME`
fn push_judged(out: &mut Vec<u8>, judgement: &Judgement) -> Result<(), AllocError>
    ensures { OnOk result (out.new.items
        ≡ out.old.items ++ texts.judgement_line (judgement_of judgement.now)) }
{
    let name = judgement.name.as_slice();
    if !judgement.valid {
        return push_all(out, &[b"unproved ", name, b"\n"]);
    }
    let mut buffer = Buffer::new();
    let stack = digits(&mut buffer, judgement.stack);
    push_all(out, &[b"valid ", name, b" stack=", stack, b"\n"])
}

/// `total valid=V unproved=U`
#[tactic(auto, unfolding(report_text_spec::specs::Report::total_line))]
fn push_total(out: &mut Vec<u8>, valid: usize, unproved: usize) -> Result<(), AllocError>
    ensures { OnOk result (out.new.items ≡ out.old.items ++ texts.total_line valid unproved) }
{
    let mut buffer = Buffer::new();
    let mut other_buffer = Buffer::new();
    let valid = digits(&mut buffer, valid as u64);
    let unproved = digits(&mut other_buffer, unproved as u64);
    push_all(
        out,
        &[b"total valid=", valid, b" unproved=", unproved, b"\n"],
    )
}

/// How many of them are valid.
fn valid_count(judgements: &[Judgement]) -> usize
    ensures { result ≡ count_by (λ j. j.valid) judgements.now }
{
    judgements.iter().filter(|j| j.valid).count()
}

/// How many of them are not valid.
fn unproved_count(judgements: &[Judgement]) -> usize
    ensures { result ≡ count_by (λ j. not j.valid) judgements.now }
{
    judgements.iter().filter(|j| !j.valid).count()
}

/// A line for each of them, in their order.
fn push_lines(out: &mut Vec<u8>, judgements: &[Judgement]) -> Result<(), AllocError>
    ensures { OnOk result (out.new.items
        ≡ out.old.items ++ flat_map (λ j. texts.judgement_line (judgement_of j)) judgements.now) }
{
    for judgement in judgements {
        push_judged(out, judgement)?;
    }
    Ok(())
}

/// A line for each of them, in their order, and the line of the totals.
fn push_all_judged(out: &mut Vec<u8>, judgements: &[Judgement]) -> Result<(), AllocError>
    ensures { OnOk result (out.new.items
        ≡ out.old.items ++ texts.judgements_text (judgements_of judgements.now)) }
{
    push_lines(out, judgements)?;
    push_total(out, valid_count(judgements), unproved_count(judgements))?;
    Ok(())
}

/// The report of a verdict.
fn push_report(alloc: Global, out: &mut Vec<u8>, verdict: &Verdict) -> Result<(), AllocError>
    ensures { OnOk result (out.new.items
        ≡ out.old.items ++ texts.report_of (verdict_of verdict.now)) }
{
    match verdict {
        Verdict::RefusedWords => out.extend_from_slice(b"refused words\n"),
        Verdict::TooLarge(quantity) => push_limit(out, *quantity),
        Verdict::RefusedElf { kind, offset } => push_refused_elf(out, *kind, *offset),
        Verdict::RefusedC { kind, offset } => push_refused_c(out, *kind, *offset),
        Verdict::RefusedPair { kind, name } => push_refused_pair(out, *kind, name.as_slice()),
        Verdict::RefusedCode {
            kind,
            name,
            address,
        } => push_refused_code(alloc, out, *kind, name.as_slice(), *address),
        Verdict::RefusedCertificate { offset } => push_refused_certificate(out, *offset),
        Verdict::NotProof { name, offset, rule } => {
            push_not_proof(out, name.as_slice(), *offset, *rule)
        }
        Verdict::Checked(judgements) => push_all_judged(out, judgements.as_slice()),
        Verdict::Judged(judgements) => push_all_judged(out, judgements.as_slice()),
        Verdict::Showed(shown) => push_shown(alloc, out, shown),
    }
}

/// What is reported of a verdict: lines that each end with a line feed.
pub fn report(alloc: Global, verdict: &Verdict) -> Result<Vec<u8>, AllocError>
    ensures { IfOk result (λ text. text.items ≡ texts.report_of (verdict_of verdict.now)) }
{
    let mut text = Vec::new(alloc);
    attempt!(push_report(alloc, &mut text, verdict));
    Ok(text)
}
