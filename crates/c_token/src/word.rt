//! Names, keywords and punctuators.

ghost use Rattle.std.specs.Prelude.{◌≡◌, ◌<◌, ◌≤◌, length, option_map, map, IfSome};
ghost use Rattle.std.specs.List.{prefix_len};
ghost use Rattle.c_token_spec.specs.Words.{is_word_byte, begins_word, entry_of, keyword_of};
ghost use Rattle.c_token_spec.specs.Punctuators.{prefix_entry, punctuator_of};
ghost use Rattle.c_token.specs.Tables.{spelled, measured};

use c_token_spec::token::{Keyword, Punctuator};

/// The keywords, each with its spelling.
static KEYWORDS: [(&[u8], Keyword); 48] = [
    (b"auto", Keyword::Auto),
    (b"break", Keyword::Break),
    (b"case", Keyword::Case),
    (b"char", Keyword::Char),
    (b"const", Keyword::Const),
    (b"continue", Keyword::Continue),
    (b"default", Keyword::Default),
    (b"do", Keyword::Do),
    (b"double", Keyword::Double),
    (b"else", Keyword::Else),
    (b"enum", Keyword::Enum),
    (b"extern", Keyword::Extern),
    (b"float", Keyword::Float),
    (b"for", Keyword::For),
    (b"goto", Keyword::Goto),
    (b"if", Keyword::If),
    (b"inline", Keyword::Inline),
    (b"int", Keyword::Int),
    (b"long", Keyword::Long),
    (b"register", Keyword::Register),
    (b"restrict", Keyword::Restrict),
    (b"return", Keyword::Return),
    (b"short", Keyword::Short),
    (b"signed", Keyword::Signed),
    (b"sizeof", Keyword::Sizeof),
    (b"static", Keyword::Static),
    (b"struct", Keyword::Struct),
    (b"switch", Keyword::Switch),
    (b"typedef", Keyword::Typedef),
    (b"union", Keyword::Union),
    (b"unsigned", Keyword::Unsigned),
    (b"void", Keyword::Void),
    (b"volatile", Keyword::Volatile),
    (b"while", Keyword::While),
    (b"_Alignas", Keyword::Alignas),
    (b"_Alignof", Keyword::Alignof),
    (b"_Atomic", Keyword::Atomic),
    (b"_Bool", Keyword::Boolean),
    (b"_Complex", Keyword::Complex),
    (b"_Generic", Keyword::Generic),
    (b"_Imaginary", Keyword::Imaginary),
    (b"_Noreturn", Keyword::Noreturn),
    (b"_Static_assert", Keyword::StaticAssert),
    (b"_Thread_local", Keyword::ThreadLocal),
    (b"asm", Keyword::Asm),
    (b"__asm", Keyword::Asm),
    (b"__asm__", Keyword::Asm),
    (b"__attribute__", Keyword::Attribute),
];

/// The punctuators, longer ones first.
static PUNCTUATORS: [(&[u8], Punctuator); 46] = [
    (b"...", Punctuator::Ellipsis),
    (b"<<=", Punctuator::ShiftLeftAssign),
    (b">>=", Punctuator::ShiftRightAssign),
    (b"->", Punctuator::Arrow),
    (b"++", Punctuator::Increment),
    (b"--", Punctuator::Decrement),
    (b"<<", Punctuator::ShiftLeft),
    (b">>", Punctuator::ShiftRight),
    (b"<=", Punctuator::LessOrEqual),
    (b">=", Punctuator::GreaterOrEqual),
    (b"==", Punctuator::Equals),
    (b"!=", Punctuator::NotEquals),
    (b"&&", Punctuator::LogicalAnd),
    (b"||", Punctuator::LogicalOr),
    (b"*=", Punctuator::StarAssign),
    (b"/=", Punctuator::SlashAssign),
    (b"%=", Punctuator::PercentAssign),
    (b"+=", Punctuator::PlusAssign),
    (b"-=", Punctuator::MinusAssign),
    (b"&=", Punctuator::AmpersandAssign),
    (b"^=", Punctuator::CaretAssign),
    (b"|=", Punctuator::BarAssign),
    (b"(", Punctuator::LeftParenthesis),
    (b")", Punctuator::RightParenthesis),
    (b"[", Punctuator::LeftBracket),
    (b"]", Punctuator::RightBracket),
    (b"{", Punctuator::LeftBrace),
    (b"}", Punctuator::RightBrace),
    (b".", Punctuator::Dot),
    (b"&", Punctuator::Ampersand),
    (b"*", Punctuator::Star),
    (b"+", Punctuator::Plus),
    (b"-", Punctuator::Minus),
    (b"~", Punctuator::Tilde),
    (b"!", Punctuator::Exclamation),
    (b"/", Punctuator::Slash),
    (b"%", Punctuator::Percent),
    (b"<", Punctuator::LessThan),
    (b">", Punctuator::GreaterThan),
    (b"^", Punctuator::Caret),
    (b"|", Punctuator::Bar),
    (b"?", Punctuator::Question),
    (b":", Punctuator::Colon),
    (b";", Punctuator::Semicolon),
    (b"=", Punctuator::Assign),
    (b",", Punctuator::Comma),
];

/// Whether a byte occurs in words.
pub fn is_word_byte(byte: u8) -> bool
    ensures { result ≡ is_word_byte byte }
{
    matches!(byte, b'0'..=b'9' | b'A'..=b'Z' | b'a'..=b'z' | b'_')
}

/// Whether a byte begins words.
pub fn begins_word(byte: u8) -> bool
    ensures { result ≡ begins_word byte }
{
    matches!(byte, b'A'..=b'Z' | b'a'..=b'z' | b'_')
}

/// How many bytes the word that a text begins with has.
#[tactic(auto, using(crate::proofs::Fronts::fronts))]
pub fn word_len(text: &[u8]) -> usize
    ensures count { result ≡ prefix_len is_word_byte text.now }
    ensures within { result ≤ length text.now }
{
    text.iter().take_while(|byte| is_word_byte(**byte)).count()
}

/// The entry of a table under a word.
pub fn entry_of<V: Copy>(table: &[(&[u8], V)], word: &[u8]) -> Option<V>
    ensures { result ≡ entry_of (map spelled table.now) word.now }
{
    for entry in table {
        if entry.0 == word {
            return Some(entry.1);
        }
    }
    None
}

/// The keyword that a word is.
#[tactic(auto, unfolding(c_token_spec::specs::Words::keyword_of))]
pub fn keyword_of(word: &[u8]) -> Option<Keyword>
    ensures { result ≡ keyword_of word.now }
{
    entry_of(&KEYWORDS, word)
}

/// The first punctuator of a table that a text begins with, and how many bytes it has.
fn find_front(table: &[(&[u8], Punctuator)], text: &[u8]) -> Option<(Punctuator, usize)>
    ensures front { result ≡ option_map measured (prefix_entry (map spelled table.now) text.now) }
    ensures within { IfSome result (λ front. front.1 ≤ length text.now) }
{
    for entry in table {
        if text.starts_with(entry.0) {
            return Some((entry.1, entry.0.len()));
        }
    }
    None
}

/// The longest punctuator that a text begins with, and how many bytes it has.
#[tactic(auto, unfolding(c_token_spec::specs::Punctuators::punctuator_of))]
pub fn punctuator_of(text: &[u8]) -> Option<(Punctuator, usize)>
    ensures front { result ≡ option_map measured (punctuator_of text.now) }
    ensures within { IfSome result (λ front. front.1 ≤ length text.now) }
    ensures some { IfSome result (λ front. 0 < front.1) }
{
    find_front(&PUNCTUATORS, text)
}
