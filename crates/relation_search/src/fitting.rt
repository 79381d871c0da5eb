ghost use Rattle.std.specs.Prelude.{◌≡◌, ◌↔◌, ℕ, List, IfOk, not, nat_eq};
ghost use Rattle.std.specs.List.{list_any, range_with_len};
ghost use Rattle.relation_search.specs.Greatest.{without};
ghost use Rattle.relation_search.specs.Answers.{IsFit, LeavesFit, limits_of};

use crate::answers::{Fit, Judged};
use crate::judging::Judge;
use std::alloc::{AllocError, Global};

// The numbers below this one.
fn numbers(alloc: Global, count: usize) -> Result<Vec<usize>, AllocError>
    ensures { IfOk result (λ all. all.items ≡ range_with_len 0 count) }
{
    (0..count).collect(alloc)
}

// Whether a line isn't taken out.
fn stays(out: &[usize], line: usize) -> bool
    ensures { result ≡ not (list_any (λ other. nat_eq other line) out.now) }
{
    !out.contains(&line)
}

// Takes lines out.
fn take_out(lines: &mut Vec<usize>, out: &[usize])
    ensures { lines.new.items ≡ without out.now lines.old.items }
{
    lines.retain(|line| stays(out, *line));
}

/// The greatest set of so many lines none of which the judge refutes, or that the judge gave up.
pub fn fit<J: Judge>(alloc: Global, count: usize, judge: &mut J) -> Result<Fit, AllocError>
    requires all_left { J.left judge.old ≡ range_with_len 0 count }
    requires no_limit { J.limits judge.old ≡ 0 }
    ensures greatest { IfOk result (IsFit (J.refutes judge.old) count) }
    ensures leaves { IfOk result (LeavesFit (J.left judge.new)) }
    ensures limit { J.limits judge.new ≡ limits_of result }
    ensures same { (some : List ℕ) (line : ℕ)
        → J.refutes judge.old some line ↔ J.refutes judge.new some line }
{
    let mut lines = numbers(alloc, count)?;
    'rounds: loop {
        match judge.judge(alloc, lines.as_slice())? {
            Judged::Refutes(out) => take_out(&mut lines, out.as_slice()),
            Judged::Holds => return Ok(Fit::Kept(lines)),
            Judged::Limit => return Ok(Fit::Limit),
        }
    }
}
