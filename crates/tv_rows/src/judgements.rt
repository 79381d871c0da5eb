//! The text and the status of judgements.

use report_text::{Judgement, Verdict, report, status};
use row_io::{Out, decimal, split};
use std::alloc::{AllocError, Global};
use tv_base::Bytes;

/// The judgement `NAME=STACK`, or `NAME` of an unproved function.
fn judgement(alloc: Global, part: &str) -> Result<Judgement, AllocError> {
    let (name, stack) = split(part, '=');
    Ok(Judgement {
        name: Bytes::copied(alloc, name.as_bytes())?,
        valid: !stack.is_empty(),
        stack: decimal(stack),
    })
}

fn read_judgements(
    alloc: Global,
    row: &str,
    judgements: &mut Vec<Judgement>,
) -> Result<(), AllocError> {
    for part in row.split_whitespace() {
        judgements.push(judgement(alloc, part)?)?;
    }
    Ok(())
}

fn put_report(alloc: Global, verdict: &Verdict, out: &mut Out) -> Result<(), AllocError> {
    out.show(&status(verdict));
    out.put(" ");
    out.bytes(report(alloc, verdict)?.as_slice());
    Ok(())
}

/// The outcome of a row.
pub(crate) fn put_judged(alloc: Global, row: &str, out: &mut Out) -> Result<(), AllocError> {
    let mut judgements = Vec::new(alloc);
    read_judgements(alloc, row, &mut judgements)?;
    put_report(alloc, &Verdict::Judged(judgements), out)
}
