//! Words of a table.

ghost use Rattle.std.specs.Prelude.{◌≡◌, ◌≤◌, true, length, map, IfSome};
ghost use Rattle.cert_text_laws.specs.Readers as readers;
ghost use Rattle.cert_text_parse.specs.Outcomes.{entry_of, measured};

// How many bytes of a word the text begins with.
fn common(word: &[u8], text: &[u8]) -> usize
    ensures same { result ≡ readers.common word.now text.now }
    ensures within { result ≤ length text.now }
{
    let mut n = 0;
    while n < word.len() {
        if n >= text.len() {
            return n;
        }
        if word[n] != text[n] {
            return n;
        }
        n += 1;
    }
    n
}

// Whether the text begins with a word.
fn begins(word: &[u8], text: &[u8]) -> bool
    ensures same { result ≡ readers.begins_with word.now text.now }
    ensures within { (result ≡ true) → length word.now ≤ length text.now }
{
    common(word, text) == word.len()
}

/// The length of the word of a table with which the text begins, and its value.
pub(crate) fn found<T: Copy>(table: &[(&[u8], T)], text: &[u8]) -> Option<(usize, T)>
    ensures same { result ≡ measured (readers.found_in (map entry_of table.now) text.now) }
    ensures within { IfSome result (λ f. f.0 ≤ length text.now) }
{
    for entry in table {
        if begins(entry.0, text) {
            return Some((entry.0.len(), entry.1));
        }
    }
    None
}

/// How many bytes the text has in common with the word of the table that goes the furthest.
#[tactic(auto, using(crate::proofs::Tables::further_step))]
pub(crate) fn furthest<T: Copy>(table: &[(&[u8], T)], text: &[u8]) -> usize
    ensures far { result ≡ readers.furthest (map entry_of table.now) text.now }
    ensures within { result ≤ length text.now }
{
    let mut far = 0;
    for entry in table {
        far = far.max(common(entry.0, text));
    }
    far
}
