//! A line.

ghost use Rattle.cert_text_laws.specs.Lines as lines;
ghost use Rattle.cert_text_parse.specs.Keywords.{expected_of, keyword_of};
ghost use Rattle.cert_text_parse.specs.LineOutcomes.{AddsLine};

use crate::keywords::{Expected, Keyword, read_keyword};
use crate::lines::{Line, Logs};
use crate::others::other_line;
use crate::rules::rule_line;
use crate::steps::step_line;
use crate::{Cursor, TextFault};
use attempt::Refusal;
use std::alloc::Global;

// A line after its keyword.
fn after_keyword(
    alloc: Global,
    cursor: &mut Cursor<'_>,
    keyword: Keyword,
    logs: &mut Logs,
) -> Result<Line, Refusal<TextFault>>
    ensures { AddsLine (lines.read_fields (keyword_of keyword)) cursor.old cursor.new logs.old
        logs.new result }
{
    match keyword {
        Keyword::Rule(rule) => rule_line(alloc, cursor, rule),
        Keyword::Other(other) => other_line(alloc, cursor, other),
        Keyword::Step => step_line(cursor, logs),
    }
}

/// A line where this is expected; the literals and hints of a step are added to the lists.
pub fn next_line(
    alloc: Global,
    cursor: &mut Cursor<'_>,
    expected: Expected,
    logs: &mut Logs,
) -> Result<Line, Refusal<TextFault>>
    ensures { AddsLine (lines.read_line (expected_of expected)) cursor.old cursor.new logs.old
        logs.new result }
{
    let keyword = match read_keyword(cursor, expected) {
        Ok(keyword) => keyword,
        Err(stopped) => return Err(stopped),
    };
    after_keyword(alloc, cursor, keyword, logs)
}
