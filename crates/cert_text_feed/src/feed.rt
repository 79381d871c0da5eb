//! The feed.

ghost use Rattle.std.specs.Prelude.{◌≡◌, ◌≤◌, ◌+◌, ℕ, List, [], length, true, None, Some, IfOk};
ghost use Rattle.cert_text_spec.specs.Lines as spec;
ghost use Rattle.cert_text_feed.specs.declared.faults.FeedFault.{FeedFault};
ghost use Rattle.cert_text_feed.specs.Readings.{is_open};
ghost use Rattle.cert_text_feed.specs.Feeds.{Feeds, IsAgain, IsEnd, IsFed, IsGoing};
ghost use Rattle.cert_text_feed.specs.Steps.{Gives, IsLater, IsLineEnd, Refuses};

use crate::faults::FeedFault;
use crate::line_ends::line_end;
use crate::next::{first_expected, no_logs, whole_line, wrong_offset};
use attempt::{Refusal, attempt};
use cert_text::{Group, push_expected};
use cert_text_parse::{Cursor, Expected, Line, Logs};
use std::alloc::{AllocError, Global};
use std::marker::Model;
use tv_limits::MAX_CERTIFICATE_BYTES;

/// A line of a certificate, with what belongs to it alone.
#[derive(Drop)]
pub struct TextLine {
    /// Where it begins, in bytes.
    pub offset: usize,
    /// The line.
    pub line: Line,
    /// Its literals and hints, if it is a step.
    pub logs: Logs,
}

/// What is known of a certificate whose bytes come in pieces. It takes memory for its longest line,
/// and for what is expected.
#[derive(Drop)]
pub struct Feed {
    // what is expected after the lines so far
    stack: Vec<Group>,
    // the bytes of a line that has not ended
    line: Vec<u8>,
    // how many bytes came
    taken: usize,
    // the fault that was found
    fault: Option<FeedFault>,
}

impl Model for Feed {
    ghost use Rattle.cert_text.specs.Stack.{stack_of};
    ghost use Rattle.cert_text_feed.specs.Feeds.{Progress};

    ghost Value = { Progress };

    ghost view = { λ feed. record {
      expected = stack_of feed.stack.items;
      rest = feed.line.items;
      taken = feed.taken;
      fault = feed.fault;
    } };
}

impl Feed {
    /// No bytes yet.
    pub fn new(alloc: Global) -> Result<Feed, AllocError>
        ensures { IfOk result (λ feed. IsFed [] [] feed) }
    {
        let mut stack = Vec::new(alloc);
        attempt!(push_expected(&mut stack, Expected::Header, 1));
        Ok(Feed {
            stack,
            line: Vec::new(alloc),
            taken: 0,
            fault: None,
        })
    }

    /// The next line that ends in the piece, of which the bytes after it are left; none where no
    /// line ends any more: then no byte is left. After a fault no byte is left either, and each
    /// further call answers it again, until the bytes are too many. Out of memory nothing is
    /// changed. A wrong byte is found when its line has ended.
    pub fn feed(
        &mut self,
        alloc: Global,
        piece: &mut Cursor<'_>,
    ) -> Result<Option<TextLine>, Refusal<FeedFault>>
        ensures fed { (bytes : List ℕ) (lines : List spec.Line) → IsFed bytes lines self.old
            → Feeds bytes lines piece.old.rest.now piece.new.rest.now self.old self.new result }
        ensures again { (fault : FeedFault) → self.old.fault ≡ Some fault → IsAgain fault result }
    {
        if let Some(fault) = self.fault {
            return Err(Refusal::Fault(self.refuse(piece, fault)));
        }
        let end = line_end(piece.rest);
        if end.unwrap_or(piece.rest.len()) > MAX_CERTIFICATE_BYTES.saturating_sub(self.taken) {
            return Err(Refusal::Fault(self.refuse(piece, FeedFault::TooLong)));
        }
        match end {
            Some(length) => self.add_line(alloc, piece, length),
            None => self.add_part(piece),
        }
    }

    /// What the bytes are, if no more come: a certificate, whose lines were given; or their fault.
    pub fn finish(&self, alloc: Global) -> Result<(), Refusal<FeedFault>>
        ensures { (bytes : List ℕ) (lines : List spec.Line) → IsFed bytes lines self.now
            → IsEnd bytes lines result }
    {
        if let Some(fault) = self.fault {
            return Err(Refusal::Fault(fault));
        }
        let start = self.taken.saturating_sub(self.line.len());
        match first_expected(self.stack.as_slice()) {
            Some(expected) => {
                let text = self.line.as_slice();
                let offset = attempt!(wrong_offset(alloc, expected, text), Refusal::NoMemory);
                Err(refused(start.saturating_add(offset)))
            }
            None if self.line.is_empty() => Ok(()),
            None => Err(refused(start)),
        }
    }

    // The piece comes after a fault, which is answered, unless the bytes are too many now.
    fn refuse(&mut self, piece: &mut Cursor<'_>, fault: FeedFault) -> FeedFault
        ensures { Refuses fault piece.old.rest.now piece.new.rest.now self.old self.new result }
    {
        let more = piece.rest.len();
        let fault = with_more(fault, self.taken, more);
        self.taken = self.taken.saturating_add(more);
        self.fault = Some(fault);
        piece.rest = &piece.rest[more..];
        fault
    }

    // A piece comes in which no line ends.
    fn add_part(&mut self, piece: &mut Cursor<'_>) -> Result<Option<TextLine>, Refusal<FeedFault>>
        requires { is_open piece.old.rest.now ≡ true }
        ensures { (bytes : List ℕ) (lines : List spec.Line) → self.old.fault ≡ None
            → IsGoing bytes lines self.old
            → length bytes + length piece.old.rest.now ≤ MAX_CERTIFICATE_BYTES
            → Feeds bytes lines piece.old.rest.now piece.new.rest.now self.old self.new result }
    {
        let more = piece.rest.len();
        attempt!(self.line.extend_from_slice(piece.rest), Refusal::NoMemory);
        self.taken = self.taken.saturating_add(more);
        piece.rest = &piece.rest[more..];
        Ok(None)
    }

    // A line ends in the piece, with the last of so many bytes.
    fn add_line(
        &mut self,
        alloc: Global,
        piece: &mut Cursor<'_>,
        more: usize,
    ) -> Result<Option<TextLine>, Refusal<FeedFault>>
        requires { IsLineEnd piece.old.rest.now (Some more) }
        ensures { (bytes : List ℕ) (lines : List spec.Line) → self.old.fault ≡ None
            → IsGoing bytes lines self.old
            → length bytes + more ≤ MAX_CERTIFICATE_BYTES
            → Feeds bytes lines piece.old.rest.now piece.new.rest.now self.old self.new result }
    {
        let kept = self.line.len();
        let start = self.taken.saturating_sub(kept);
        attempt!(
            self.line.extend_from_slice(&piece.rest[..more]),
            Refusal::NoMemory
        );
        match given_line(alloc, &mut self.stack, &mut self.line, start) {
            Ok(line) => {
                self.taken = self.taken.saturating_add(more);
                piece.rest = &piece.rest[more..];
                Ok(Some(line))
            }
            Err(Refusal::NoMemory) => {
                self.line.truncate(kept);
                Err(Refusal::NoMemory)
            }
            Err(Refusal::Fault(offset)) => {
                let fault = FeedFault::Refused(start.saturating_add(offset));
                Err(Refusal::Fault(self.refuse(piece, fault)))
            }
        }
    }
}

// The certificate is refused at an offset.
fn refused(offset: usize) -> Refusal<FeedFault>
    ensures { result ≡ Refusal.Fault (FeedFault.Refused offset) }
{
    Refusal::Fault(FeedFault::Refused(offset))
}

// A fault of bytes after which so many more come.
fn with_more(fault: FeedFault, taken: usize, more: usize) -> FeedFault
    ensures { IsLater fault taken more result }
{
    if more > MAX_CERTIFICATE_BYTES.saturating_sub(taken) {
        return FeedFault::TooLong;
    }
    fault
}

// The line that begins at an offset, whose bytes were kept; or the offset in it of the wrong byte.
fn given_line(
    alloc: Global,
    stack: &mut Vec<Group>,
    bytes: &mut Vec<u8>,
    offset: usize,
) -> Result<TextLine, Refusal<usize>>
    ensures { Gives offset bytes.old.items bytes.new.items stack.old.items stack.new.items result }
{
    let mut logs = no_logs(alloc);
    let line = attempt!(whole_line(alloc, stack, bytes.as_slice(), &mut logs));
    bytes.clear();
    Ok(TextLine { offset, line, logs })
}
