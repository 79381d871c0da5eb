//! The objects over the operating system: a file is written and read, and a line goes to standard
//! output.

use row_io::Out;
use std::alloc::Global;
use tv_base::{Desk, FileDesk, FileStore, OutSink, Sink, Store, read_up_to, write_all};

fn put_done(done: bool, out: &mut Out) {
    out.put(if done { "done " } else { "fault " });
}

/// Whether all is written.
fn put_written<S: Sink>(sink: &mut S, bytes: &[u8], out: &mut Out) {
    put_done(write_all(sink, bytes).is_ok(), out);
}

/// Whether a file is begun.
fn put_begun<K: Store>(store: &mut K, name: &str, out: &mut Out) {
    put_done(store.begin(name).is_ok(), out);
}

/// The next bytes, at most 7.
fn put_read<D: Desk>(alloc: Global, desk: &mut D, out: &mut Out) {
    match read_up_to(alloc, desk, 7) {
        Ok(bytes) => out.bytes(bytes.as_slice()),
        Err(_) => out.put("fault"),
    }
    out.put(" ");
}

fn put_store(rt: HostRuntime, out: &mut Out) {
    let mut store = FileStore::new(rt);
    put_written(&mut store, b"0123456789", out);
    put_begun(&mut store, "written", out);
    put_written(&mut store, b"0123456789", out);
    put_begun(&mut store, "no folder/written", out);
    put_written(&mut store, b"abc", out);
}

fn put_desk(rt: HostRuntime, out: &mut Out) {
    let mut desk = FileDesk::new(rt);
    put_read(rt.alloc(), &mut desk, out);
    put_done(desk.begin("written").is_ok(), out);
    put_read(rt.alloc(), &mut desk, out);
    put_done(desk.begin("no such file").is_ok(), out);
    put_read(rt.alloc(), &mut desk, out);
}

/// The outcome of a row: what is written and what is read of it, and whether a line is put on
/// standard output.
pub(crate) fn put_files(rt: HostRuntime, out: &mut Out) {
    put_store(rt, out);
    put_desk(rt, out);
    let mut sink = OutSink::new(rt);
    put_written(&mut sink, b"system: written to standard output\n", out);
    put_done(std::fs::remove_file(&rt, "written").is_ok(), out);
}
