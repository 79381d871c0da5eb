//! The functions that have a part, and where a part begins.

ghost use Rattle.std.specs.Prelude.{◌≡◌, ◌↔◌, IsTrue, OnOk, length};
ghost use Rattle.cert_check_frames.specs.Parts.{AreIndices, HasPart, IsFreeAt, IsIndexOf};
ghost use Rattle.cert_check_frames.specs.Parts.{IsMissingAt};

use crate::listed::Listed;

// The index of the first listed function of a name.
fn index_of(listed: &[Listed<'_>], name: &[u8]) -> Option<usize>
    ensures { IsIndexOf listed.now name.now result }
{
    for index in 0..listed.len() {
        if listed[index].name == name {
            return Some(index);
        }
    }
    None
}

/// Whether a function of a name has a part.
pub fn has_part(listed: &[Listed<'_>], parts: &[usize], name: &[u8]) -> bool
    requires { AreIndices (length listed.now) parts.now }
    ensures { IsTrue result ↔ HasPart listed.now parts.now name.now }
{
    for part in parts {
        if listed[*part].name == name {
            return true;
        }
    }
    false
}

/// The index of a listed function of a name that has no part.
pub fn free(listed: &[Listed<'_>], parts: &[usize], name: &[u8]) -> Option<usize>
    requires { AreIndices (length listed.now) parts.now }
    ensures { IsFreeAt listed.now parts.now name.now result }
{
    if has_part(listed, parts, name) {
        return None;
    }
    index_of(listed, name)
}

/// The index of the first listed function that has no part.
pub fn missing(listed: &[Listed<'_>], parts: &[usize]) -> Option<usize>
    requires { AreIndices (length listed.now) parts.now }
    ensures { IsMissingAt listed.now parts.now result }
{
    for index in 0..listed.len() {
        if !has_part(listed, parts, listed[index].name) {
            return Some(index);
        }
    }
    None
}
