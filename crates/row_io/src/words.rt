//! The words of a row.

/// The number of digits to a base; what is no digit counts as 0.
fn number(base: u64, text: &str) -> u64 {
    let mut number: u64 = 0;
    for byte in text.bytes() {
        let digit = match byte {
            b'0'..=b'9' => byte - b'0',
            b'a'..=b'f' => byte - b'a' + 10,
            _ => 0,
        };
        number = number.wrapping_mul(base).wrapping_add(u64::from(digit));
    }
    number
}

/// The number of decimal digits.
pub fn decimal(text: &str) -> u64 {
    number(10, text)
}

/// The number of hexadecimal digits.
pub fn hexadecimal(text: &str) -> u64 {
    number(16, text)
}

/// What is before the first of this character and what follows it; all of a text without one.
pub fn split(text: &str, at: char) -> (&str, &str) {
    text.split_once(at).unwrap_or((text, ""))
}

/// The same of the first of this text.
pub fn split_at<'a>(text: &'a str, at: &str) -> (&'a str, &'a str) {
    text.split_once(at).unwrap_or((text, ""))
}
