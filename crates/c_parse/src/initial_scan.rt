//! What the tokens of a C unit define within initial values of globals, of which no tree is kept.
//! What that is, by the tokens, is defined in `c_parse_spec`'s `specs/Initials.antt`.

ghost use Rattle.std.specs.Prelude.{◌≡◌, ◌+◌, ◌<◌, ◌≤◌};
ghost use Rattle.c_parse_spec.specs.Initials as initials;
ghost use Rattle.c_parse_token.specs.Lists.{list_of};
ghost use Rattle.c_token.specs.Pieces.{token_of};
ghost use Rattle.c_parse.specs.Places.{begun_of, place_of};

use c_token::{Kind, Token};
use c_token_spec::token::{Keyword, Punctuator};

/// How much of a definition the last tokens are.
#[derive(Clone, Copy)]
enum Begun {
    /// Nothing of one.
    Nothing,
    /// `struct` or `enum`.
    Keyword,
    /// One of them and a tag.
    Tagged,
}

/// What is known at a place in the tokens of a unit.
#[derive(Clone, Copy)]
struct Place {
    /// How many brackets are open.
    depth: usize,
    /// The place is within the initial value of a global.
    in_value: bool,
    /// How much of a definition the tokens before are.
    begun: Begun,
}

// How many brackets are open after a token.
fn depth_after(depth: usize, kind: Kind<'_>) -> usize
    requires { depth < usize.MAX }
    ensures exact { result ≡ initials.depth_after depth (token_of kind.entry) }
    ensures within { result ≤ depth + 1 }
{
    match kind {
        Kind::Mark(Punctuator::LeftParenthesis | Punctuator::LeftBracket | Punctuator::LeftBrace) =>
            depth + 1,
        Kind::Mark(
            Punctuator::RightParenthesis | Punctuator::RightBracket | Punctuator::RightBrace,
        ) => depth.saturating_sub(1),
        _ => depth,
    }
}

// Whether a place outside of all brackets is within an initial value, after a token.
fn in_value_outside(in_value: bool, kind: Kind<'_>) -> bool
    ensures { result ≡ initials.in_value_outside in_value (token_of kind.entry) }
{
    match kind {
        Kind::Mark(Punctuator::Assign) => true,
        Kind::Mark(Punctuator::Comma | Punctuator::Semicolon) => false,
        _ => in_value,
    }
}

// How much of a definition the tokens up to this one are.
fn begun_after(begun: Begun, kind: Kind<'_>) -> Begun
    ensures { begun_of result ≡ initials.begun_after (begun_of begun) (token_of kind.entry) }
{
    match (begun, kind) {
        (_, Kind::Word(Keyword::Struct | Keyword::Enum)) => Begun::Keyword,
        (Begun::Keyword, Kind::Name(_)) => Begun::Tagged,
        _ => Begun::Nothing,
    }
}

// Whether a token is the `{` of a definition.
fn completes(begun: Begun, kind: Kind<'_>) -> bool
    ensures { result ≡ initials.completes (begun_of begun) (token_of kind.entry) }
{
    match (begun, kind) {
        (Begun::Keyword | Begun::Tagged, Kind::Mark(Punctuator::LeftBrace)) => true,
        _ => false,
    }
}

// The place after a token.
fn after(place: Place, kind: Kind<'_>) -> Place
    requires { place.depth < usize.MAX }
    ensures exact { place_of result ≡ initials.after (place_of place) (token_of kind.entry) }
    ensures within { result.depth ≤ place.depth + 1 }
{
    Place {
        depth: depth_after(place.depth, kind),
        in_value: if place.depth == 0 {
            in_value_outside(place.in_value, kind)
        } else {
            place.in_value
        },
        begun: begun_after(place.begun, kind),
    }
}

/// The offset of the `{` of the first struct or enum that the tokens of a unit define within an
/// initial value of a global, in bytes from the start of the text; in work linear in the tokens.
#[tactic(auto, unfolding(c_parse_spec::specs::Initials::definition_in))]
pub fn definition_in(tokens: &[Token<'_>]) -> Option<usize>
    ensures { result ≡ initials.definition_in (list_of tokens.now) }
{
    let mut place = Place {
        depth: 0,
        in_value: false,
        begun: Begun::Nothing,
    };
    for token in tokens {
        if place.in_value && completes(place.begun, token.kind) {
            return Some(token.offset);
        }
        place = after(place, token.kind);
    }
    None
}
