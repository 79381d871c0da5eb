ghost use Rattle.std.specs.Prelude.{◌≡◌, ◌++◌, ◌∷◌, [], OnOk, codes, decimal, flat_map};
ghost use Rattle.report_text_spec.specs.Report as texts;
ghost use Rattle.report_text.specs.Shown.{shown_of};

use crate::lines::{digits, push_address, push_all};
use attempt::attempt;
use itoa::Buffer;
use std::alloc::{AllocError, Global};
use tv_base::Bytes;

/// What is shown of a function.
#[derive(Drop)]
pub struct Shown {
    /// Its name.
    pub name: Bytes,
    /// Where its code begins.
    pub entry: u32,
    /// How many bytes its code has.
    pub size: u32,
    /// How many bytes of stack it takes, with all that it calls.
    pub stack: u64,
    /// The address and the word of each instruction that it reaches, ascending.
    pub words: Vec<(u32, u32)>,
    /// How many parameters its source has.
    pub params: usize,
    /// How many loops.
    pub loops: usize,
    /// How many calls.
    pub calls: usize,
}

/// ` size=N stack=S`, and a line feed.
fn push_sizes(out: &mut Vec<u8>, size: u32, stack: u64) -> Result<(), AllocError>
    ensures { OnOk result (out.new.items ≡ out.old.items
        ++ (codes " size=" ++ (decimal size ++ (codes " stack=" ++ (decimal stack ++ 10 ∷ []))))) }
{
    let mut buffer = Buffer::new();
    let mut other_buffer = Buffer::new();
    let size = digits(&mut buffer, u64::from(size));
    let stack = digits(&mut other_buffer, stack);
    push_all(out, &[b" size=", size, b" stack=", stack, b"\n"])
}

/// `show NAME entry=ADDRESS size=N stack=S`
#[tactic(auto, unfolding(report_text_spec::specs::Report::code_line))]
fn push_code(
    alloc: Global,
    out: &mut Vec<u8>,
    name: &[u8],
    entry: u32,
    size: u32,
    stack: u64,
) -> Result<(), AllocError>
    ensures { OnOk result (out.new.items ≡ out.old.items
        ++ texts.code_line name.now entry size stack) }
{
    attempt!(push_all(out, &[b"show ", name, b" entry="]));
    attempt!(push_address(alloc, out, entry));
    push_sizes(out, size, stack)
}

/// `ADDRESS WORD`
#[tactic(auto, unfolding(report_text_spec::specs::Report::word_line))]
fn push_word(alloc: Global, out: &mut Vec<u8>, address: u32, word: u32) -> Result<(), AllocError>
    ensures { OnOk result (out.new.items ≡ out.old.items ++ texts.word_line (address, word)) }
{
    attempt!(push_address(alloc, out, address));
    out.push(b' ')?;
    attempt!(push_address(alloc, out, word));
    out.push(b'\n')?;
    Ok(())
}

/// A line for each word.
fn push_words(alloc: Global, out: &mut Vec<u8>, words: &[(u32, u32)]) -> Result<(), AllocError>
    ensures { OnOk result (out.new.items ≡ out.old.items ++ flat_map texts.word_line words.now) }
{
    for (address, word) in words {
        attempt!(push_word(alloc, out, *address, *word));
    }
    Ok(())
}

/// `source params=P loops=L calls=K`
#[tactic(auto, unfolding(report_text_spec::specs::Report::source_line))]
fn push_source(
    out: &mut Vec<u8>,
    params: usize,
    loops: usize,
    calls: usize,
) -> Result<(), AllocError>
    ensures { OnOk result (out.new.items ≡ out.old.items ++ texts.source_line params loops calls) }
{
    let mut first = Buffer::new();
    let mut second = Buffer::new();
    let mut third = Buffer::new();
    let params = digits(&mut first, params as u64);
    let loops = digits(&mut second, loops as u64);
    let calls = digits(&mut third, calls as u64);
    push_all(
        out,
        &[
            b"source params=",
            params,
            b" loops=",
            loops,
            b" calls=",
            calls,
            b"\n",
        ],
    )
}

/// The text of a function, added to another.
#[tactic(auto, unfolding(report_text_spec::specs::Report::show_text))]
pub(crate) fn push_shown(alloc: Global, out: &mut Vec<u8>, shown: &Shown) -> Result<(), AllocError>
    ensures { OnOk result (out.new.items
        ≡ out.old.items ++ texts.show_text (shown_of shown.now)) }
{
    attempt!(push_code(
        alloc,
        out,
        shown.name.as_slice(),
        shown.entry,
        shown.size,
        shown.stack,
    ));
    attempt!(push_words(alloc, out, shown.words.as_slice()));
    push_source(out, shown.params, shown.loops, shown.calls)
}
