//! The tokens that are left, and parsers of one of them.

ghost use Rattle.std.specs.Prelude.{◌≡◌, ◌≤◌, ◌<◌, ◌||◌, IfOk, suc, nat_lt};
ghost use Rattle.std.specs.Option.{is_some};
ghost use Rattle.c_parse_spec.specs.declared.Role.TheVariants.{Nothing};
ghost use Rattle.c_parse_spec.specs.Leaves.{expected, brackets, opens, plain, operates};
ghost use Rattle.c_parse_laws.specs.Classes as classes;
ghost use Rattle.c_parse_laws.specs.Parsers as parsers;
ghost use Rattle.c_parse_laws.specs.Types as types;
ghost use Rattle.c_syntax.specs.Names.{name_of};
ghost use Rattle.c_parse_token.specs.Lists.{list_of, names_of, Parses, TakesOne};
ghost use Rattle.c_token.specs.Pieces.{token_of};
ghost use Rattle.c_parse_spec.specs.Limits.{nesting_limit, operator_limit};

use crate::class::{
    access_operator, begins_type, binary_operator, is_mark, level_of, unary_operator,
};
use crate::names::TypedefNames;
use crate::outcome::SyntaxFault;
use attempt::Refusal;
use c_parse_spec::{NESTING_LIMIT, OPERATOR_LIMIT, Role};
use c_syntax::expression::Name;
use c_syntax_spec::{Access, BinaryOperator, UnaryOperator};
use c_token::{Kind, Token};
use c_token_spec::token::{Keyword, Punctuator};

// A construct more exceeds the nesting limit, or one operator more the limit of an expression.
fn is_full(depth: usize, count: usize) -> bool
    ensures { result ≡ (nat_lt nesting_limit (suc depth) || nat_lt operator_limit (suc count)) }
{
    NESTING_LIMIT <= depth || OPERATOR_LIMIT <= count
}

// The keyword `sizeof`.
fn is_sizeof(kind: Kind<'_>) -> bool
    ensures { result ≡ classes.is_sizeof (token_of kind.entry) }
{
    matches!(kind, Kind::Word(Keyword::Sizeof))
}

// The operator between operands of this level.
fn of_level(kind: Kind<'_>, level: u8) -> Option<BinaryOperator>
    ensures { result ≡ classes.of_level level (token_of kind.entry) }
{
    let operator = binary_operator(kind)?;
    if level_of(operator) == level {
        Some(operator)
    } else {
        None
    }
}

/// The tokens that are left, and the operators before them.
#[derive(Drop)]
pub struct Tokens<'t> {
    /// In order.
    pub rest: &'t [Token<'t>],
    /// How many operators of the whole expression are before them.
    pub count: usize,
}

impl<'t> Tokens<'t> {
    /// The next token is this punctuator.
    pub fn next_is(&self, wanted: Punctuator) -> bool
        ensures { result ≡ parsers.next_is (classes.is_mark wanted) (list_of self.now.rest.now) }
    {
        matches!(self.rest, [first, ..] if is_mark(first.kind, wanted))
    }

    /// The next token begins a type.
    pub fn starts_type(&self, names: &TypedefNames<'t>) -> bool
        ensures { result ≡ parsers.next_is (classes.begins_type (names_of names.now))
            (list_of self.now.rest.now) }
    {
        matches!(self.rest, [first, ..] if begins_type(first.kind, names))
    }

    /// The next token is an operator between operands of this level.
    pub fn starts_level(&self, level: u8) -> bool
        ensures { result ≡ parsers.next_is (λ next. is_some (classes.of_level level next))
            (list_of self.now.rest.now) }
    {
        matches!(self.rest, [first, ..] if of_level(first.kind, level).is_some())
    }

    /// The next token is `[`, `.` or `->`.
    pub fn starts_suffix(&self) -> bool
        ensures { result ≡ parsers.next_is classes.is_suffix (list_of self.now.rest.now) }
    {
        if self.next_is(Punctuator::LeftBracket) {
            return true;
        }
        match self.rest {
            [first, ..] => access_operator(first.kind).is_some(),
            [] => false,
        }
    }

    /// The next token is an operator before its operand.
    pub fn starts_prefix(&self) -> bool
        ensures { result ≡ parsers.next_is (λ next. is_some (classes.unary_operator next))
            (list_of self.now.rest.now) }
    {
        matches!(self.rest, [first, ..] if unary_operator(first.kind).is_some())
    }

    /// The next token is `sizeof`.
    pub fn starts_sizeof(&self) -> bool
        ensures { result ≡ parsers.next_is classes.is_sizeof (list_of self.now.rest.now) }
    {
        matches!(self.rest, [first, ..] if is_sizeof(first.kind))
    }

    /// The next token is a name, and no typedef name.
    pub fn starts_plain_name(&self, names: &TypedefNames<'t>) -> bool
        ensures { result ≡ parsers.next_is (types.is_plain_name (names_of names.now))
            (list_of self.now.rest.now) }
    {
        match self.rest {
            [first, ..] => match first.kind {
                Kind::Name(spelling) => !names.contains(spelling),
                _ => false,
            },
            [] => false,
        }
    }

    /// A punctuator, where this is expected: its offset.
    pub fn mark(&mut self, wanted: Punctuator, role: Role) -> Result<usize, Refusal<SyntaxFault>>
        ensures gives { Parses (parsers.token role (expected role) (classes.mark_offset wanted))
            (λ x. x) self.old self.new result }
        ensures shorter { IfOk result (λ _. TakesOne self.old self.new) }
        ensures count { self.new.count ≡ self.old.count }
    {
        match self.rest {
            [first, rest @ ..] if is_mark(first.kind, wanted) => {
                self.rest = rest;
                Ok(first.offset)
            }
            _ => Err(Refusal::Fault(SyntaxFault::Wrong(role))),
        }
    }

    /// A name, where this is expected.
    pub fn name(&mut self, role: Role) -> Result<Name<'t>, Refusal<SyntaxFault>>
        ensures gives { Parses (parsers.token role (expected role) classes.name_at) name_of self.old
            self.new result }
        ensures shorter { IfOk result (λ _. TakesOne self.old self.new) }
        ensures count { self.new.count ≡ self.old.count }
    {
        let [first, rest @ ..] = self.rest else {
            return Err(Refusal::Fault(SyntaxFault::Wrong(role)));
        };
        let Kind::Name(spelling) = first.kind else {
            return Err(Refusal::Fault(SyntaxFault::Wrong(role)));
        };
        let offset = first.offset;
        self.rest = rest;
        Ok(Name { spelling, offset })
    }

    /// A punctuator with which a construct more is open, which is no operator: its offset.
    pub fn opening(
        &mut self,
        wanted: Punctuator,
        depth: usize,
    ) -> Result<usize, Refusal<SyntaxFault>>
        ensures gives { Parses (parsers.token Nothing (opens (suc depth))
            (classes.mark_offset wanted)) (λ x. x) self.old self.new result }
        ensures shorter { IfOk result (λ _. TakesOne self.old self.new) }
        ensures counted { IfOk result (λ _. (depth < nesting_limit) ×
            (self.new.count ≡ self.old.count)) }
    {
        match self.rest {
            [first, rest @ ..] if is_mark(first.kind, wanted) => {
                if NESTING_LIMIT <= depth {
                    return Err(Refusal::Fault(SyntaxFault::LimitExceeded));
                }
                self.rest = rest;
                Ok(first.offset)
            }
            _ => Err(Refusal::Fault(SyntaxFault::Wrong(Role::Nothing))),
        }
    }

    /// A bracket that is an operator, with which a construct more is open: its offset.
    pub fn bracket(
        &mut self,
        wanted: Punctuator,
        depth: usize,
    ) -> Result<usize, Refusal<SyntaxFault>>
        ensures gives { Parses (parsers.token Nothing (brackets (suc depth) (suc self.old.count))
            (classes.mark_offset wanted)) (λ x. x) self.old self.new result }
        ensures shorter { IfOk result (λ _. TakesOne self.old self.new) }
        ensures counted { IfOk result (λ _. (depth < nesting_limit) ×
            (self.new.count ≡ suc self.old.count) × (self.new.count ≤ operator_limit)) }
    {
        match self.rest {
            [first, rest @ ..] if is_mark(first.kind, wanted) => {
                if is_full(depth, self.count) {
                    return Err(Refusal::Fault(SyntaxFault::LimitExceeded));
                }
                self.rest = rest;
                self.count += 1;
                Ok(first.offset)
            }
            _ => Err(Refusal::Fault(SyntaxFault::Wrong(Role::Nothing))),
        }
    }

    /// A punctuator that is an operator: its offset.
    pub fn operator(&mut self, wanted: Punctuator) -> Result<usize, Refusal<SyntaxFault>>
        ensures gives { Parses (parsers.token Nothing (operates (suc self.old.count))
            (classes.mark_offset wanted)) (λ x. x) self.old self.new result }
        ensures shorter { IfOk result (λ _. TakesOne self.old self.new) }
        ensures counted { IfOk result (λ _. (self.new.count ≡ suc self.old.count) ×
            (self.new.count ≤ operator_limit)) }
    {
        match self.rest {
            [first, rest @ ..] if is_mark(first.kind, wanted) => {
                if is_full(0, self.count) {
                    return Err(Refusal::Fault(SyntaxFault::LimitExceeded));
                }
                self.rest = rest;
                self.count += 1;
                Ok(first.offset)
            }
            _ => Err(Refusal::Fault(SyntaxFault::Wrong(Role::Nothing))),
        }
    }

    /// `sizeof`: its offset.
    pub fn sizeof_word(&mut self) -> Result<usize, Refusal<SyntaxFault>>
        ensures gives { Parses (parsers.token Nothing (operates (suc self.old.count))
            classes.sizeof_offset) (λ x. x) self.old self.new result }
        ensures shorter { IfOk result (λ _. TakesOne self.old self.new) }
        ensures counted { IfOk result (λ _. (self.new.count ≡ suc self.old.count) ×
            (self.new.count ≤ operator_limit)) }
    {
        match self.rest {
            [first, rest @ ..] if is_sizeof(first.kind) => {
                if is_full(0, self.count) {
                    return Err(Refusal::Fault(SyntaxFault::LimitExceeded));
                }
                self.rest = rest;
                self.count += 1;
                Ok(first.offset)
            }
            _ => Err(Refusal::Fault(SyntaxFault::Wrong(Role::Nothing))),
        }
    }

    /// An operator before its operand, and its offset.
    pub fn prefix(&mut self) -> Result<(UnaryOperator, usize), Refusal<SyntaxFault>>
        ensures gives { Parses (parsers.token Nothing (operates (suc self.old.count))
            (classes.with_offset classes.unary_operator)) (λ x. x) self.old self.new result }
        ensures shorter { IfOk result (λ _. TakesOne self.old self.new) }
        ensures counted { IfOk result (λ _. (self.new.count ≡ suc self.old.count) ×
            (self.new.count ≤ operator_limit)) }
    {
        let [first, rest @ ..] = self.rest else {
            return Err(Refusal::Fault(SyntaxFault::Wrong(Role::Nothing)));
        };
        let Some(operator) = unary_operator(first.kind) else {
            return Err(Refusal::Fault(SyntaxFault::Wrong(Role::Nothing)));
        };
        if is_full(0, self.count) {
            return Err(Refusal::Fault(SyntaxFault::LimitExceeded));
        }
        self.rest = rest;
        self.count += 1;
        Ok((operator, first.offset))
    }

    /// `.` or `->`, and its offset.
    pub fn access(&mut self) -> Result<(Access, usize), Refusal<SyntaxFault>>
        ensures gives { Parses (parsers.token Nothing (operates (suc self.old.count))
            (classes.with_offset classes.access_operator)) (λ x. x) self.old self.new result }
        ensures shorter { IfOk result (λ _. TakesOne self.old self.new) }
        ensures counted { IfOk result (λ _. (self.new.count ≡ suc self.old.count) ×
            (self.new.count ≤ operator_limit)) }
    {
        let [first, rest @ ..] = self.rest else {
            return Err(Refusal::Fault(SyntaxFault::Wrong(Role::Nothing)));
        };
        let Some(operator) = access_operator(first.kind) else {
            return Err(Refusal::Fault(SyntaxFault::Wrong(Role::Nothing)));
        };
        if is_full(0, self.count) {
            return Err(Refusal::Fault(SyntaxFault::LimitExceeded));
        }
        self.rest = rest;
        self.count += 1;
        Ok((operator, first.offset))
    }

    /// An operator of this level between operands, and its offset.
    pub fn infix(&mut self, level: u8) -> Result<(BinaryOperator, usize), Refusal<SyntaxFault>>
        ensures gives { Parses (parsers.token Nothing (operates (suc self.old.count))
            (classes.with_offset (classes.of_level level))) (λ x. x) self.old self.new result }
        ensures shorter { IfOk result (λ _. TakesOne self.old self.new) }
        ensures counted { IfOk result (λ _. (self.new.count ≡ suc self.old.count) ×
            (self.new.count ≤ operator_limit)) }
    {
        let [first, rest @ ..] = self.rest else {
            return Err(Refusal::Fault(SyntaxFault::Wrong(Role::Nothing)));
        };
        let Some(operator) = of_level(first.kind, level) else {
            return Err(Refusal::Fault(SyntaxFault::Wrong(Role::Nothing)));
        };
        if is_full(0, self.count) {
            return Err(Refusal::Fault(SyntaxFault::LimitExceeded));
        }
        self.rest = rest;
        self.count += 1;
        Ok((operator, first.offset))
    }

    /// A name that is no typedef name.
    pub fn plain_name(&mut self, names: &TypedefNames<'t>) -> Result<Name<'t>, Refusal<SyntaxFault>>
        ensures gives { Parses (parsers.token Nothing plain (types.plain_name_at
            (names_of names.now))) name_of self.old self.new result }
        ensures shorter { IfOk result (λ _. TakesOne self.old self.new) }
        ensures count { self.new.count ≡ self.old.count }
    {
        let [first, rest @ ..] = self.rest else {
            return Err(Refusal::Fault(SyntaxFault::Wrong(Role::Nothing)));
        };
        let Kind::Name(spelling) = first.kind else {
            return Err(Refusal::Fault(SyntaxFault::Wrong(Role::Nothing)));
        };
        if names.contains(spelling) {
            return Err(Refusal::Fault(SyntaxFault::Wrong(Role::Nothing)));
        }
        let offset = first.offset;
        self.rest = rest;
        Ok(Name { spelling, offset })
    }
}
