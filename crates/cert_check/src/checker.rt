//! A check that is given the lines of a certificate one after the other.

ghost use Rattle.std.specs.Prelude.{◌≡◌, ℕ};
ghost use Rattle.cert_text_parse.specs.Views.{line_of, step_of};
ghost use Rattle.cert_text_spec.specs.Lines as spec;
ghost use Rattle.cert_check.specs.Checkers.{Goes, IsNew, IsNextLine, given_line};
ghost use Rattle.cert_check.specs.Walks.{IsPlain, placed_fault};

use crate::fault::{NamedFault, Placed};
use crate::logs::{OpenLine, front, log, step};
use crate::walk::{Walk, step as plain_step};
use attempt::Refusal;
use cert_check_frames::Listed;
use cert_text_parse::{Line, Literal};
use std::alloc::Global;
use std::collections::HashMap;
use term_bank::Bank;

/// A check of a certificate's lines, one after the other.
#[derive(Drop)]
pub struct Checker<'a> {
    /// The listed functions.
    pub(crate) listed: &'a [Listed<'a>],
    /// The parts so far, and what is expected in the last of them after the log that is open.
    pub(crate) walk: Walk,
    /// The log that is open, if one is.
    pub(crate) log: Option<OpenLine>,
}

/// A line that is given. If it is a step, its literals and its hints are the first of these.
#[derive(Clone, Copy)]
pub struct Given<'a> {
    /// The line.
    pub line: &'a Line,
    /// The literals.
    pub literals: &'a [Literal],
    /// The hints.
    pub hints: &'a [u32],
    /// The line's place, as the caller counts: its index, or where it begins.
    pub place: usize,
}

// What is wrong at the line of a place.
fn placed_at(place: usize, fault: Refusal<NamedFault>) -> Refusal<Placed>
    ensures { result ≡ placed_fault place fault }
{
    match fault {
        Refusal::Fault(fault) => Refusal::Fault(Placed { place, fault }),
        Refusal::NoMemory => Refusal::NoMemory,
    }
}

impl<'a> Checker<'a> {
    /// Of these listed functions, before the first line.
    pub fn new(alloc: Global, listed: &'a [Listed<'a>]) -> Checker<'a>
        ensures listed { result.listed.now ≡ listed.now }
        ensures new { IsNew result }
    {
        Checker {
            listed,
            walk: Walk {
                parts: Vec::new(alloc),
                jobs: Vec::new(alloc),
                bank: Bank::new(alloc),
                binary: HashMap::new(alloc),
                source: HashMap::new(alloc),
            },
            log: None,
        }
    }

    // `log N`
    fn log_line(&mut self, alloc: Global, count: u32, place: usize) -> Result<(), Refusal<Placed>>
        requires { IsNextLine self.old (spec.Log count) }
        ensures { Goes self.old self.new (spec.Log count) place result }
    {
        match log(alloc, self.listed, &mut self.walk, count, place) {
            Ok(log) => {
                self.log = log;
                Ok(())
            }
            Err(fault) => Err(placed_at(place, fault)),
        }
    }

    // A step of the log that is open.
    fn step_line(
        &mut self,
        alloc: Global,
        literals: &[Literal],
        hints: &[u32],
        place: usize,
    ) -> Result<(), Refusal<Placed>>
        requires { IsNextLine self.old (step_of literals.now hints.now) }
        ensures { Goes self.old self.new (step_of literals.now hints.now) place result }
    {
        let part = self.walk.parts[self.walk.parts.len() - 1];
        let Some(current) = &mut self.log else {
            unreachable!();
        };
        match step(alloc, part, current, literals, hints, place) {
            Ok(true) => Ok(()),
            Ok(false) => {
                self.log = None;
                Ok(())
            }
            Err(fault) => Err(fault),
        }
    }

    // Another line.
    fn other_line(
        &mut self,
        alloc: Global,
        line: &Line,
        place: usize,
    ) -> Result<(), Refusal<Placed>>
        requires next { IsNextLine self.old (line_of line.now) }
        requires plain { IsPlain line.now }
        ensures { Goes self.old self.new (line_of line.now) place result }
    {
        match plain_step(alloc, self.listed, &mut self.walk, line, place) {
            Ok(()) => Ok(()),
            Err(fault) => Err(placed_at(place, fault)),
        }
    }

    /// Gives it the next line: whether it breaks no rule and no limit. What is wrong is so at the
    /// line itself, or at that of the log whose last step it is. After that no line can be given.
    pub fn line(&mut self, alloc: Global, given: Given<'_>) -> Result<(), Refusal<Placed>>
        requires { IsNextLine self.old (given_line given) }
        ensures { Goes self.old self.new (given_line given.entry) given.entry.place result }
    {
        match given.line {
            Line::Log(count) => self.log_line(alloc, *count, given.place),
            Line::Step(literals, hints) => self.step_line(
                alloc,
                front(given.literals, *literals),
                front(given.hints, *hints),
                given.place,
            ),
            line => self.other_line(alloc, line, given.place),
        }
    }
}
