//! What a run tells while it works: how far it is, and what the functions took.

use std::alloc::{AllocError, Global};
use std::io::Write;
use tv_base::{Note, Notes};

/// What goes back to the first column of a terminal and clears the line.
const CLEAR: &[u8] = b"\r\x1b[K";

/// How many bytes of a name are shown, so that a line is no longer than a row.
const SHOWN: usize = 36;

/// A search for a log.
#[derive(Clone, Copy)]
pub(crate) struct Search {
    pub(crate) obligation: usize,
    pub(crate) variables: usize,
    pub(crate) learnt: u64,
    pub(crate) assignments: u64,
}

/// A function, and what was told of it.
#[derive(Drop)]
pub(crate) struct Told {
    pub(crate) name: Vec<u8>,
    /// The search that took most assignments.
    pub(crate) longest: Option<Search>,
    /// No call meets its premises.
    pub(crate) vacuous: bool,
}

/// Takes notes: shows how far a run is, and keeps what was told of functions.
#[derive(Drop)]
pub(crate) struct Teller<W: Write + Drop> {
    alloc: Global,
    /// Where it is shown, if anywhere.
    terminal: Option<W>,
    /// Whether a line is shown now.
    is_shown: bool,
    /// Whether notes are kept.
    keeps: bool,
    told: Vec<Told>,
    /// Memory ran out for what is kept.
    failed: bool,
}

impl<W: Write + Drop> Teller<W> {
    /// No note was taken.
    pub(crate) fn new(alloc: Global, terminal: Option<W>, keeps: bool) -> Self {
        Teller {
            alloc,
            terminal,
            is_shown: false,
            keeps,
            told: Vec::new(alloc),
            failed: false,
        }
    }

    /// What was told of functions, in their order, or `None` where memory ran out for it.
    pub(crate) fn told(&self) -> Option<&[Told]> {
        if self.failed {
            return None;
        }
        Some(self.told.as_slice())
    }

    /// Shows a line in place of the last. Where that fails, nothing is shown from then on.
    fn show(&mut self, name: &[u8], done: usize, all: usize) {
        let alloc = self.alloc;
        self.is_shown = true;
        if let Some(terminal) = &mut self.terminal {
            if put_line(alloc, terminal, name, done, all).is_err() {
                self.terminal = None;
            }
        }
    }

    /// Clears the line that is shown, if one is: what others wrote to the terminal stays.
    pub(crate) fn clear(&mut self) {
        if !self.is_shown {
            return;
        }
        self.is_shown = false;
        if let Some(terminal) = &mut self.terminal {
            if terminal.write_all(CLEAR).is_err() {
                self.terminal = None;
            }
        }
    }

    /// Keeps the name of a function that is begun.
    fn keep(&mut self, name: &[u8]) {
        if self.keeps && push_told(self.alloc, &mut self.told, name).is_err() {
            self.failed = true;
        }
    }

    /// Keeps a search of the function begun last, if none before took as long.
    fn keep_search(&mut self, search: Search) {
        if let Some(told) = self.told.last_mut() {
            match told.longest {
                Some(longest) if longest.assignments >= search.assignments => {}
                _ => told.longest = Some(search),
            }
        }
    }
}

/// Adds a function of which nothing is told yet.
fn push_told(alloc: Global, told: &mut Vec<Told>, name: &[u8]) -> Result<(), AllocError> {
    let name = Vec::from_slice(alloc, name)?;
    told.push(Told {
        name,
        longest: None,
        vacuous: false,
    })?;
    Ok(())
}

/// A line: how many functions are done, and which is in work.
fn put_line<W: Write>(
    alloc: Global,
    terminal: &mut W,
    name: &[u8],
    done: usize,
    all: usize,
) -> std::io::Result<()> {
    let line = format!(in alloc; "\r\x1b[Ktv: {done} of {all} functions done, in work: ")?;
    terminal.write_all(line.as_bytes())?;
    terminal.write_all(&name[..name.len().min(SHOWN)])
}

impl<W: Write + Drop> Notes for Teller<W> {
    fn note(&mut self, note: &Note<'_>) {
        match *note {
            Note::Begun { name, done, all } => {
                self.show(name, done, all);
                self.keep(name);
            }
            Note::Searched {
                obligation,
                variables,
                learnt,
                assignments,
            } => {
                if variables > 0 {
                    self.keep_search(Search {
                        obligation,
                        variables,
                        learnt,
                        assignments,
                    });
                }
            }
            Note::Vacuous => {
                if let Some(told) = self.told.last_mut() {
                    told.vacuous = true;
                }
            }
            Note::Finished => self.clear(),
        }
    }
}
