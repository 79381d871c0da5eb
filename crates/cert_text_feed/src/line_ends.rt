//! Where a line ends.

ghost use Rattle.cert_text_feed.specs.Steps.{IsLineEnd};

/// How many bytes there are up to the first line feed, and with it.
pub(crate) fn line_end(bytes: &[u8]) -> Option<usize>
    ensures { IsLineEnd bytes.now result }
{
    let mut index = 0;
    while index < bytes.len() {
        if bytes[index] == b'\n' {
            return Some(index + 1);
        }
        index += 1;
    }
    None
}
