//! Reference parsers of certificates, as functions on lists of bytes (`specs/Readers.antt`,
//! `specs/Parts.antt`, `specs/Heads.antt`, `specs/Lines.antt`), and the law that they read exactly
//! the certificates that `cert_text_spec` defines, and refuse other bytes after the longest prefix
//! that begins one. Nothing runs.
#![tactic(auto)]

ghost use Rattle.cert_text_laws.specs.Exactness.{ReadsExactly, HasOneCertificate, HasOneSpelling};
ghost use Rattle.cert_text_laws.specs.Exactness.{HasOneFault, SampleIsRead};

/// The reference parser is exact: it reads the certificates, and refuses other bytes where
/// `cert_text_spec` says.
pub fn reads_exactly()
    ensures { ReadsExactly }
{}

/// A text is the certificate of one list of lines at most.
pub fn has_one_certificate()
    ensures { HasOneCertificate }
{}

/// A certificate has one spelling.
pub fn has_one_spelling()
    ensures { HasOneSpelling }
{}

/// A text has one fault at most.
pub fn has_one_fault()
    ensures { HasOneFault }
{}

/// A certificate with its lines, and two ways to spoil it with the place of the fault.
pub fn sample_is_read()
    ensures { SampleIsRead }
{}
