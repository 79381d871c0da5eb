// Questions on logs of goals, over no fixed bytes:
//
// - `close GOAL; LITERALS by HINTS; ..`: whether these steps close it: `closed`, `step N` for the
//   first that doesn't follow, counted from 1, or `unclosed`
// - `seek:LIMIT GOAL`: a search that learns so many clauses at most: `valid` and whether its log
//   closes the goal, `refuted` and the goal's value under the assignment, which the variables keep,
//   or `limit` and the number of learnt clauses

ghost use Rattle.std.specs.Prelude.{◌<◌, length};

use crate::logs::add_steps;
use attempt::{Refusal, attempt};
use discharge::{CloseFault, Listing, SeekFault, Sought, close, seek};
use row_io::Out;
use sat_search::Step;
use std::alloc::{AllocError, Global};
use term_bank::{Bank, TermId};
use term_core::Assignment;

fn put_close_error(error: Refusal<CloseFault>, out: &mut Out) -> Result<(), AllocError> {
    match error {
        Refusal::Fault(CloseFault::Large(_, _)) => out.put("large"),
        Refusal::Fault(CloseFault::Step(number)) => {
            out.put("step ");
            out.show(&number);
        }
        Refusal::Fault(CloseFault::Unclosed) => out.put("unclosed"),
        Refusal::NoMemory => return Err(AllocError),
    }
    Ok(())
}

fn put_closed(
    alloc: Global,
    bank: &mut Bank,
    id: TermId,
    log: &[Step],
    out: &mut Out,
) -> Result<(), AllocError>
    requires { id < length bank.old }
{
    match close(alloc, bank, id, &mut Listing { steps: log }, &[]) {
        Ok(()) => out.put("closed"),
        Err(error) => return put_close_error(error, out),
    }
    Ok(())
}

/// Answers whether steps close a goal.
pub(crate) fn put_close(
    alloc: Global,
    bank: &mut Bank,
    id: TermId,
    steps: &str,
    out: &mut Out,
) -> Result<(), AllocError>
    requires { id < length bank.old }
{
    let mut log = Vec::new(alloc);
    attempt!(add_steps(alloc, &mut log, steps));
    put_closed(alloc, bank, id, log.as_slice(), out)
}

/// Answers what a search for a log finds.
pub(crate) fn put_sought(
    alloc: Global,
    values: &mut Assignment,
    bank: &mut Bank,
    id: TermId,
    limit: u64,
    out: &mut Out,
) -> Result<(), AllocError>
    requires { id < length bank.old }
{
    match seek(alloc, bank, id, limit as usize, &[]) {
        Ok(Sought::Valid(log)) => {
            out.put("valid, ");
            put_closed(alloc, bank, id, log.as_slice(), out)
        }
        Ok(Sought::Refuted(assignment)) => {
            *values = assignment;
            out.put("refuted, ");
            crate::terms::put_value(alloc, values, bank, id, out)
        }
        Ok(Sought::Limit(log)) => {
            out.put("limit ");
            out.show(&log.len());
            Ok(())
        }
        Err(Refusal::Fault(SeekFault::Large(_, _))) => {
            out.put("large");
            Ok(())
        }
        Err(Refusal::NoMemory) => Err(AllocError),
    }
}
