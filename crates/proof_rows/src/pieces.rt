//! Texts in pieces. A feed says of them what `read` says of the whole, however they are cut.

use attempt::Refusal;
use cert_text::{Cert, ReadFault, read, write};
use cert_text_feed::{Cursor, Feed, FeedFault, TextLine};
use cert_text_parse::{Line, Logs};
use row_io::Out;
use std::alloc::{AllocError, Global};

/// A longer text is not fed in pieces.
const LONGEST: usize = 65_536;

/// A longer certificate is not cut at each byte.
const SHORT: usize = 900;

/// Nor is a longer text that is none.
const SHORT_REFUSED: usize = 200;

/// What a feed gave.
#[derive(Drop)]
struct Given {
    /// The lines.
    cert: Cert,
    /// Where the next line begins.
    next: usize,
    /// Whether each line began there, and each fault was answered again.
    right: bool,
    /// The fault that was answered.
    fault: Option<FeedFault>,
}

/// Whether two faults are the same.
fn same_fault(one: FeedFault, two: FeedFault) -> bool {
    match (one, two) {
        (FeedFault::Refused(one), FeedFault::Refused(two)) => one == two,
        (FeedFault::TooLong, FeedFault::TooLong) => true,
        _ => false,
    }
}

/// The byte after the next line feed.
fn after_line(text: &[u8], from: usize) -> usize {
    for at in from..text.len() {
        if text[at] == b'\n' {
            return at + 1;
        }
    }
    text.len()
}

/// Adds a line, its literals and its hints.
fn add(given: &mut Given, text: &[u8], one: TextLine) -> Result<(), AllocError> {
    if one.offset != given.next {
        given.right = false;
    }
    given.next = after_line(text, given.next);
    let lists = &mut given.cert.logs;
    lists
        .literals
        .extend_from_slice(one.logs.literals.as_slice())?;
    lists.hints.extend_from_slice(one.logs.hints.as_slice())?;
    given.cert.lines.push(one.line)?;
    Ok(())
}

/// A fault is answered, the same as before.
fn note(given: &mut Given, fault: FeedFault) {
    match given.fault {
        Some(before) if !same_fault(before, fault) => given.right = false,
        _ => given.fault = Some(fault),
    }
}

/// Feeds a piece.
fn feed_piece(
    alloc: Global,
    feed: &mut Feed,
    piece: &[u8],
    text: &[u8],
    given: &mut Given,
) -> Result<(), AllocError> {
    let mut cursor = Cursor { rest: piece };
    for _ in 0..=piece.len() {
        match feed.feed(alloc, &mut cursor) {
            Ok(Some(one)) => add(given, text, one)?,
            Ok(None) => return Ok(()),
            Err(Refusal::Fault(fault)) => {
                note(given, fault);
                return Ok(());
            }
            Err(Refusal::NoMemory) => return Err(AllocError),
        }
    }
    Ok(())
}

/// Feeds a text: so many bytes, and the others in pieces of a size.
fn feed_text(
    alloc: Global,
    text: &[u8],
    first: usize,
    size: usize,
    given: &mut Given,
) -> Result<(), AllocError> {
    let mut feed = Feed::new(alloc)?;
    let front = &text[..first.min(text.len())];
    let rest = &text[first.min(text.len())..];
    feed_piece(alloc, &mut feed, front, text, given)?;
    for piece in rest.chunks(size.max(1)) {
        feed_piece(alloc, &mut feed, piece, text, given)?;
    }
    match feed.finish(alloc) {
        Ok(()) => Ok(()),
        Err(Refusal::Fault(fault)) => {
            note(given, fault);
            Ok(())
        }
        Err(Refusal::NoMemory) => Err(AllocError),
    }
}

/// Whether what was given is the text up to the line of its fault.
fn is_front(alloc: Global, text: &[u8], given: &Given) -> Result<bool, AllocError> {
    let written = write(alloc, &given.cert)?;
    let whole = given.fault.is_some() || written.len() == text.len();
    Ok(whole && given.right && text.starts_with(written.as_slice()))
}

/// Whether a feed says of a text what `read` says: its fault, or none.
fn is_as_read(
    alloc: Global,
    text: &[u8],
    first: usize,
    size: usize,
    fault: Option<usize>,
) -> Result<bool, AllocError> {
    let mut given = Given {
        cert: Cert {
            lines: Vec::new(alloc),
            logs: Logs {
                literals: Vec::new(alloc),
                hints: Vec::new(alloc),
            },
        },
        next: 0,
        right: true,
        fault: None,
    };
    feed_text(alloc, text, first, size, &mut given)?;
    let same = match (given.fault, fault) {
        (None, None) => true,
        (Some(FeedFault::Refused(one)), Some(two)) => one == two,
        _ => false,
    };
    Ok(same && is_front(alloc, text, &given)?)
}

/// The fault that `read` finds.
fn fault_of(alloc: Global, text: &[u8]) -> Result<Option<usize>, AllocError> {
    match read(alloc, text) {
        Ok(_) => Ok(None),
        Err(Refusal::Fault(ReadFault::Refused(offset))) => Ok(Some(offset)),
        Err(Refusal::NoMemory) => Err(AllocError),
    }
}

/// How many cuttings of a text were tried, and how many of them say what `read` says.
#[derive(Clone, Copy)]
pub(crate) struct Tried {
    pub(crate) cuttings: usize,
    pub(crate) as_read: usize,
}

/// A cutting more.
fn tally(tried: &mut Tried, is_right: bool) {
    tried.cuttings = tried.cuttings.saturating_add(1);
    if is_right {
        tried.as_read = tried.as_read.saturating_add(1);
    }
}

/// Feeds a text in pieces of 1, 7 and 40 bytes, and cut at each byte.
pub(crate) fn try_text(alloc: Global, text: &[u8], tried: &mut Tried) -> Result<(), AllocError> {
    if text.len() > LONGEST {
        return Ok(());
    }
    let fault = fault_of(alloc, text)?;
    for size in [1, 7, 40] {
        tally(tried, is_as_read(alloc, text, 0, size, fault)?);
    }
    let most = if fault.is_some() {
        SHORT_REFUSED
    } else {
        SHORT
    };
    if text.len() <= most {
        for first in 0..=text.len() {
            tally(tried, is_as_read(alloc, text, first, text.len(), fault)?);
        }
    }
    Ok(())
}

/// What was tried.
pub(crate) fn put_tried(tried: Tried, out: &mut Out) {
    out.put("in pieces: ");
    out.show(&tried.cuttings);
    out.put(" cuttings, as the whole ");
    out.show(&tried.as_read);
    out.put("\n");
}
