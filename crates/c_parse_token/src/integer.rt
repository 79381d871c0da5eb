//! The words of an integer type (6.7.2).

ghost use Rattle.std.specs.Prelude.{◌≡◌, ◌∷◌, [], Ok, IfOk, IfSome, IfNone, length};
ghost use Rattle.std.specs.Prelude.{filter, map, drop};
ghost use Rattle.c_parse_spec.specs.Expressions as grammar;
ghost use Rattle.exact_read.specs.Grammar.{read_map};
ghost use Rattle.c_syntax_spec.specs.Expression as tree;
ghost use Rattle.c_parse_laws.specs.Types as types;
ghost use Rattle.c_parse_token.specs.Lists.{list_of, TakesOne, IsNoLonger};
ghost use Rattle.c_parse_token.specs.Words.{type_among, entry_of, type_next, with_next};

use crate::tokens::Tokens;
use c_syntax_spec::IntegerType;
use c_token::Kind;
use c_token_spec::token::Keyword::{self, Char, Int, Long, Short, Signed, Unsigned};
use std::alloc::{AllocError, Global};

/// Words, in any order, and the type that they name.
static COMBINATIONS: [(&[Keyword], IntegerType); 26] = [
    (&[Char], IntegerType::Char),
    (&[Signed, Char], IntegerType::SignedChar),
    (&[Unsigned, Char], IntegerType::UnsignedChar),
    (&[Short], IntegerType::Short),
    (&[Signed, Short], IntegerType::Short),
    (&[Short, Int], IntegerType::Short),
    (&[Signed, Short, Int], IntegerType::Short),
    (&[Unsigned, Short], IntegerType::UnsignedShort),
    (&[Unsigned, Short, Int], IntegerType::UnsignedShort),
    (&[Int], IntegerType::Int),
    (&[Signed], IntegerType::Int),
    (&[Signed, Int], IntegerType::Int),
    (&[Unsigned], IntegerType::UnsignedInt),
    (&[Unsigned, Int], IntegerType::UnsignedInt),
    (&[Long], IntegerType::Long),
    (&[Signed, Long], IntegerType::Long),
    (&[Long, Int], IntegerType::Long),
    (&[Signed, Long, Int], IntegerType::Long),
    (&[Unsigned, Long], IntegerType::UnsignedLong),
    (&[Unsigned, Long, Int], IntegerType::UnsignedLong),
    (&[Long, Long], IntegerType::LongLong),
    (&[Signed, Long, Long], IntegerType::LongLong),
    (&[Long, Long, Int], IntegerType::LongLong),
    (&[Signed, Long, Long, Int], IntegerType::LongLong),
    (&[Unsigned, Long, Long], IntegerType::UnsignedLongLong),
    (&[Unsigned, Long, Long, Int], IntegerType::UnsignedLongLong),
];

fn is_char(word: Keyword) -> bool
    ensures { result ≡ grammar.is_char word }
{
    matches!(word, Keyword::Char)
}

fn is_signed(word: Keyword) -> bool
    ensures { result ≡ grammar.is_signed word }
{
    matches!(word, Keyword::Signed)
}

fn is_unsigned(word: Keyword) -> bool
    ensures { result ≡ grammar.is_unsigned word }
{
    matches!(word, Keyword::Unsigned)
}

fn is_short(word: Keyword) -> bool
    ensures { result ≡ grammar.is_short word }
{
    matches!(word, Keyword::Short)
}

fn is_int(word: Keyword) -> bool
    ensures { result ≡ grammar.is_int word }
{
    matches!(word, Keyword::Int)
}

fn is_long(word: Keyword) -> bool
    ensures { result ≡ grammar.is_long word }
{
    matches!(word, Keyword::Long)
}

// How many `char` are among words; and so for the other words.
fn chars(words: &[Keyword]) -> usize
    ensures { result ≡ length (filter grammar.is_char words.now) }
{
    words.iter().filter(|word| is_char(**word)).count()
}

fn signeds(words: &[Keyword]) -> usize
    ensures { result ≡ length (filter grammar.is_signed words.now) }
{
    words.iter().filter(|word| is_signed(**word)).count()
}

fn unsigneds(words: &[Keyword]) -> usize
    ensures { result ≡ length (filter grammar.is_unsigned words.now) }
{
    words.iter().filter(|word| is_unsigned(**word)).count()
}

fn shorts(words: &[Keyword]) -> usize
    ensures { result ≡ length (filter grammar.is_short words.now) }
{
    words.iter().filter(|word| is_short(**word)).count()
}

fn ints(words: &[Keyword]) -> usize
    ensures { result ≡ length (filter grammar.is_int words.now) }
{
    words.iter().filter(|word| is_int(**word)).count()
}

fn longs(words: &[Keyword]) -> usize
    ensures { result ≡ length (filter grammar.is_long words.now) }
{
    words.iter().filter(|word| is_long(**word)).count()
}

// The same words, in any order.
fn same_words(one: &[Keyword], two: &[Keyword]) -> bool
    ensures { result ≡ grammar.same_words one.now two.now }
{
    one.len() == two.len()
        && chars(one) == chars(two)
        && signeds(one) == signeds(two)
        && unsigneds(one) == unsigneds(two)
        && shorts(one) == shorts(two)
        && ints(one) == ints(two)
        && longs(one) == longs(two)
}

// The type of these words in a table.
fn type_in(table: &[(&[Keyword], IntegerType)], words: &[Keyword]) -> Option<IntegerType>
    ensures { result ≡ type_among words.now (map entry_of table.now) }
{
    for entry in table {
        if same_words(entry.0, words) {
            return Some(entry.1);
        }
    }
    None
}

// The type that words name.
#[tactic(auto, unfolding(c_parse_spec::specs::Expressions::integer_type_of))]
fn type_of(words: &[Keyword]) -> Option<IntegerType>
    ensures { result ≡ grammar.integer_type_of words.now }
{
    type_in(&COMBINATIONS, words)
}

// The type that the next keyword names with the words before it: takes it, as the last of them.
fn take_word(
    tokens: &mut Tokens<'_>,
    words: &mut Vec<Keyword>,
) -> Result<Option<IntegerType>, AllocError>
    ensures named { IfOk result (λ named. named ≡ type_next words.old.items
        (list_of tokens.old.rest.now)) }
    ensures words { IfOk result (λ named. IfSome named (λ _. words.new.items ≡ with_next
        words.old.items (list_of tokens.old.rest.now))) }
    ensures rest { IfOk result (λ named. IfSome named (λ _. list_of tokens.new.rest.now ≡ drop 1
        (list_of tokens.old.rest.now))) }
    ensures shorter { IfOk result (λ named. IfSome named (λ _. TakesOne tokens.old tokens.new)) }
    ensures none { IfOk result (λ named. IfNone named (tokens.new.rest.now ≡ tokens.old.rest.now)) }
    ensures count { tokens.new.count ≡ tokens.old.count }
{
    let [first, rest @ ..] = tokens.rest else {
        return Ok(None);
    };
    let Kind::Word(word) = first.kind else {
        return Ok(None);
    };
    words.push(word)?;
    let Some(named) = type_of(words.as_slice()) else {
        return Ok(None);
    };
    tokens.rest = rest;
    Ok(Some(named))
}

/// The integer type whose first word was read, with all further words that go on naming one.
pub fn integer_type(
    alloc: Global,
    tokens: &mut Tokens<'_>,
    first: Keyword,
) -> Result<IntegerType, AllocError>
    ensures found { IfOk result (λ named. read_map (λ words. types.integer_of (first ∷ words))
        (types.read_words (first ∷ [])) (list_of tokens.old.rest.now) ≡ Ok
        (tree.Integer named, list_of tokens.new.rest.now)) }
    ensures shorter { IfOk result (λ _. IsNoLonger tokens.new tokens.old) }
    ensures count { tokens.new.count ≡ tokens.old.count }
{
    let mut words = Vec::new(alloc);
    words.push(first)?;
    let mut named = type_of(words.as_slice()).unwrap_or(IntegerType::Int);
    while let Some(longer) = take_word(tokens, &mut words)? {
        named = longer;
    }
    Ok(named)
}
