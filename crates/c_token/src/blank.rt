//! Blank space.

ghost use Rattle.std.specs.Prelude.{◌≡◌, ◌≤◌, length, IfSome};
ghost use Rattle.std.specs.List.{prefix_len};
ghost use Rattle.c_token_spec.specs.Blanks.{is_blank_in_line, is_blank_byte, line_len, close_len};
ghost use Rattle.c_token_spec.specs.Blanks.{is_marker};

/// Whether a byte is blank and ends no line.
fn is_blank_in_line(byte: u8) -> bool
    ensures { result ≡ is_blank_in_line byte }
{
    matches!(byte, b' ' | 9 | 11 | 12 | 13)
}

/// Whether a byte is blank.
pub fn is_blank_byte(byte: u8) -> bool
    ensures { result ≡ is_blank_byte byte }
{
    is_blank_in_line(byte) || byte == b'\n'
}

/// How many bytes are before the end of the line.
#[tactic(auto, using(crate::proofs::Fronts::fronts))]
pub fn line_len(text: &[u8]) -> usize
    ensures count { result ≡ line_len text.now }
    ensures within { result ≤ length text.now }
{
    text.iter().take_while(|byte| **byte != b'\n').count()
}

/// How many bytes there are up to the first `*/` and with it.
pub fn close_len(text: &[u8]) -> Option<usize>
    ensures count { result ≡ close_len text.now }
    ensures within { IfSome result (λ count. count ≤ length text.now) }
{
    for start in 0..text.len() {
        let (_, rest) = text.split_at(start);
        if rest.starts_with(b"*/") {
            return Some(start + 2);
        }
    }
    None
}

/// How many blanks a text begins with in its line.
#[tactic(auto, using(crate::proofs::Fronts::fronts))]
fn count_blanks(text: &[u8]) -> usize
    ensures count { result ≡ prefix_len is_blank_in_line text.now }
    ensures within { result ≤ length text.now }
{
    text.iter()
        .take_while(|byte| is_blank_in_line(**byte))
        .count()
}

/// Whether blanks and a digit follow the `#`, as in a line marker.
pub fn is_marker(text: &[u8]) -> bool
    ensures { result ≡ is_marker text.now }
{
    let (_, rest) = text.split_at(count_blanks(text));
    match rest {
        [digit, ..] => digit.is_ascii_digit(),
        [] => false,
    }
}
