//! Reading and writing undo each other.

ghost use Rattle.cert_text.specs.Laws.{ReadsWhatItWrites, WritesWhatItReads};

/// What is written of a certificate is read as its lines.
pub fn reads_what_it_writes()
    ensures { ReadsWhatItWrites }
{}

/// What is read is written as its bytes.
pub fn writes_what_it_reads()
    ensures { WritesWhatItReads }
{}
