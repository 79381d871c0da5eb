//! Runs on a pair of files.

ghost use Rattle.std.specs.Prelude.{◌≢◌};

use crate::trails;
use crate::words::read_words;
use attempt::attempt;
use row_io::{Out, decimal, split};
use std::alloc::{AllocError, Global};
use tv_base::{
    GivenFile, MemDesk, MemSink, MemStore, NoNotes, SteadyDesk, SteadySink, SteadyStore,
};
use tv_core::{Trails, run};

/// More bytes than any call is asked for.
const ALL: usize = 100_000_000;

/// An executable, its source, and a certificate.
#[derive(Drop)]
pub(crate) struct Pair {
    pub(crate) elf: Vec<u8>,
    pub(crate) source: Vec<u8>,
    pub(crate) certificate: Vec<u8>,
}

impl Pair {
    /// The three files of the commands.
    fn files(&self) -> [GivenFile<'_>; 3] {
        let elf = GivenFile {
            name: "e",
            bytes: self.elf.as_slice(),
        };
        let source = GivenFile {
            name: "c",
            bytes: self.source.as_slice(),
        };
        let certificate = GivenFile {
            name: "k",
            bytes: self.certificate.as_slice(),
        };
        [elf, source, certificate]
    }
}

pub(crate) fn read_elf(alloc: Global, text: &str, pair: &mut Pair) -> Result<(), AllocError> {
    pair.elf.clear();
    match hex::decode(alloc, text) {
        Ok(bytes) => pair.elf.extend_from_slice(bytes.as_slice()),
        Err(_) => Ok(()),
    }
}

pub(crate) fn read_zeros(text: &str, pair: &mut Pair) -> Result<(), AllocError> {
    pair.elf.clear();
    pair.elf.resize(decimal(text) as usize, 0)
}

pub(crate) fn read_source(text: &str, pair: &mut Pair) -> Result<(), AllocError> {
    pair.source.clear();
    for part in text.split("\\n") {
        if !pair.source.is_empty() {
            pair.source.push(b'\n')?;
        }
        attempt!(pair.source.extend_from_slice(part.as_bytes()));
    }
    Ok(())
}

pub(crate) fn read_certificate(text: &str, pair: &mut Pair) -> Result<(), AllocError> {
    pair.certificate.clear();
    for byte in text.bytes() {
        pair.certificate
            .push(if byte == b'|' { b'\n' } else { byte })?;
    }
    Ok(())
}

pub(crate) fn pad_certificate(text: &str, pair: &mut Pair) -> Result<(), AllocError> {
    pair.certificate.resize(decimal(text) as usize, b' ')
}

pub(crate) fn pad_source(text: &str, pair: &mut Pair) -> Result<(), AllocError> {
    pair.source.resize(decimal(text) as usize, b' ')
}

/// Which calls fail on each object, and the most bytes that a call takes.
#[derive(Clone, Copy)]
struct Mishaps<'a> {
    desk: &'a [u64],
    report: &'a [u64],
    store: &'a [u64],
    most: usize,
}

/// The outcome of a run on these words.
fn put_run(
    alloc: Global,
    row: &str,
    pair: &Pair,
    mishaps: Mishaps<'_>,
    out: &mut Out,
) -> Result<(), AllocError> {
    let mut words = Vec::new(alloc);
    attempt!(read_words(alloc, row, &mut words));
    put_outcome(alloc, words.as_slice(), &pair.files(), mishaps, out);
    Ok(())
}

fn put_outcome(
    alloc: Global,
    words: &[String],
    files: &[GivenFile<'_>],
    mishaps: Mishaps<'_>,
    out: &mut Out,
) {
    let mut desk = MemDesk::new(alloc, files, mishaps.desk, mishaps.most);
    let mut report = MemSink::new(alloc, mishaps.report, mishaps.most);
    let mut store = MemStore::new(alloc, mishaps.store, mishaps.most);
    let mut trails = Trails::new(alloc);
    out.show(&run(
        alloc,
        words,
        &mut desk,
        &mut report,
        &mut store,
        &mut trails,
        &mut NoNotes,
    ));
    out.put(" ");
    out.show(&(desk.faults(), report.faults(), store.faults()));
    out.put(" ");
    out.bytes(report.text());
    out.put(" ");
    out.put(store.begun());
    out.put(" ");
    out.bytes(store.text());
}

/// The outcome of a row `run`.
pub(crate) fn put_whole(
    alloc: Global,
    row: &str,
    pair: &Pair,
    out: &mut Out,
) -> Result<(), AllocError> {
    let none = Mishaps {
        desk: &[],
        report: &[],
        store: &[],
        most: ALL,
    };
    put_run(alloc, row, pair, none, out)
}

/// The status, faults and report of a run on these words; what it stored is kept.
fn put_reported(
    alloc: Global,
    words: &[String],
    files: &[GivenFile<'_>],
    stored: &mut Vec<u8>,
    out: &mut Out,
) -> Result<(), AllocError> {
    let mut desk = MemDesk::new(alloc, files, &[], ALL);
    let mut report = MemSink::new(alloc, &[], ALL);
    let mut store = MemStore::new(alloc, &[], ALL);
    let mut trails = Trails::new(alloc);
    out.show(&run(
        alloc,
        words,
        &mut desk,
        &mut report,
        &mut store,
        &mut trails,
        &mut NoNotes,
    ));
    out.put(" ");
    out.show(&(desk.faults(), report.faults(), store.faults()));
    out.put(" ");
    out.bytes(report.text());
    stored.extend_from_slice(store.text())
}

/// The status of a run on these words, and why functions are unproved.
fn put_unproved(alloc: Global, words: &[String], files: &[GivenFile<'_>], out: &mut Out) {
    let mut desk = MemDesk::new(alloc, files, &[], ALL);
    let mut report = MemSink::new(alloc, &[], ALL);
    let mut store = MemStore::new(alloc, &[], ALL);
    let mut trails = Trails::new(alloc);
    out.show(&run(
        alloc,
        words,
        &mut desk,
        &mut report,
        &mut store,
        &mut trails,
        &mut NoNotes,
    ));
    trails::put_trails(&trails, out);
}

/// The outcome of a row `trails`.
pub(crate) fn put_trails(
    alloc: Global,
    row: &str,
    pair: &Pair,
    out: &mut Out,
) -> Result<(), AllocError> {
    let mut words = Vec::new(alloc);
    attempt!(read_words(alloc, row, &mut words));
    put_unproved(alloc, words.as_slice(), &pair.files(), out);
    Ok(())
}

/// The outcome of a row `proved`: of a run, and then the status of `check` of what it stored.
pub(crate) fn put_proved(
    alloc: Global,
    row: &str,
    pair: &mut Pair,
    out: &mut Out,
) -> Result<(), AllocError> {
    let mut words = Vec::new(alloc);
    let mut stored = Vec::new(alloc);
    attempt!(read_words(alloc, row, &mut words));
    attempt!(put_reported(alloc, words.as_slice(), &pair.files(), &mut stored, out));
    pair.certificate = stored;
    out.put(" ");
    put_trails(alloc, "tv/check/e/c/k", pair, out)
}

/// The outcome of a row `fail`.
pub(crate) fn put_failing(
    alloc: Global,
    row: &str,
    pair: &Pair,
    out: &mut Out,
) -> Result<(), AllocError> {
    let (object, row) = split(row, ' ');
    let (call, row) = split(row, ' ');
    let (most, row) = split(row, ' ');
    let failing: &[u64] = &[decimal(call)];
    let mishaps = Mishaps {
        desk: if object == "desk" { failing } else { &[] },
        report: if object == "report" { failing } else { &[] },
        store: if object == "store" { failing } else { &[] },
        most: decimal(most) as usize,
    };
    put_run(alloc, row, pair, mishaps, out)
}

/// No run over steady objects meets a fault.
fn run_steadily(
    alloc: Global,
    words: &[String],
    desk: &mut SteadyDesk<'_>,
    report: &mut SteadySink,
    store: &mut SteadyStore,
    trails: &mut Trails,
) -> u8
    ensures { result ≢ 4 }
{
    run(alloc, words, desk, report, store, trails, &mut NoNotes)
}

/// The outcome of a row `steady`.
pub(crate) fn put_steady(
    alloc: Global,
    row: &str,
    pair: &Pair,
    out: &mut Out,
) -> Result<(), AllocError> {
    let mut words = Vec::new(alloc);
    read_words(alloc, row, &mut words)?;
    let files = pair.files();
    let mut desk = SteadyDesk::new(&files);
    let mut report = SteadySink::new(alloc);
    let mut store = SteadyStore::new(alloc);
    let mut trails = Trails::new(alloc);
    let words = words.as_slice();
    out.show(&run_steadily(
        alloc,
        words,
        &mut desk,
        &mut report,
        &mut store,
        &mut trails,
    ));
    out.put(" ");
    out.bytes(report.text());
    out.put(" ");
    out.bytes(store.text());
    Ok(())
}
