ghost use Rattle.std.specs.Prelude.{◌≡◌, ◌+◌, ◌<◌, ◌≤◌, ◌^◌, ◌↔◌, IsSome, IfSome};
ghost use Rattle.clause_check_spec.specs.Clause as spec;
ghost use Rattle.cnf_core.specs.Codes.{code_of};

use std::marker::Model;

/// The greatest number of a variable that literals can be of.
pub const MAX_VARIABLE: usize = 0x7FFF_FFFF;

/// A variable or its negation. Variables are numbered from 1 to [`MAX_VARIABLE`].
///
/// It is kept as its code: twice the variable, and one more for the negation.
#[derive(Clone, Copy)]
pub struct Literal {
    code: u32,
}

impl Model for Literal {
    ghost use Rattle.clause_check_spec.specs.declared.Literal.{Literal as literal};
    ghost use Rattle.cnf_core.specs.Codes.{code_of, literal_at, code_of-literal_at};

    ghost Value = { literal };

    ghost view = { λ l. literal_at l.code };

    ghost inverse = { λ l. record { code = code_of l } };

    ghost inverse_ok = { λ l h i. record { code = code_of-literal_at l.code i } };
}

impl Literal {
    /// The literal of a variable.
    pub fn new(variable: usize, is_negated: bool) -> Literal
        requires { variable ≤ MAX_VARIABLE }
        ensures { result ≡ record { variable = variable; is_negated = is_negated } }
    {
        Literal {
            code: 2 * variable as u32 + u32::from(is_negated),
        }
    }

    /// The literal of a variable; none where its number is above [`MAX_VARIABLE`].
    pub fn try_new(variable: usize, is_negated: bool) -> Option<Literal>
        ensures fits { IsSome result ↔ (variable ≤ MAX_VARIABLE) }
        ensures literal { IfSome result (λ literal. literal
            ≡ record { variable = variable; is_negated = is_negated }) }
    {
        if variable <= MAX_VARIABLE {
            Some(Literal::new(variable, is_negated))
        } else {
            None
        }
    }

    /// The literal of a code.
    pub fn from_code(code: u32) -> Literal
        ensures { code_of result ≡ code }
    {
        Literal { code }
    }

    /// The literal's code: twice the variable, and one more for the negation.
    pub fn code(self) -> usize
        ensures value { result ≡ code_of self }
        ensures bound { result < 2 ^ 32 }
    {
        self.code as usize
    }

    /// The number of the variable.
    pub fn variable(self) -> usize
        ensures value { result ≡ self.variable }
        ensures bound { result ≤ MAX_VARIABLE }
    {
        self.code as usize / 2
    }

    /// Whether it is the negation.
    pub fn is_negated(self) -> bool
        ensures { result ≡ self.is_negated }
    {
        self.code % 2 == 1
    }

    /// Whether its variable is one of those from 1 to a number.
    pub fn is_of(self, variables: usize) -> bool
        ensures { result ≡ spec.is_of variables self }
    {
        1 <= self.variable() && self.variable() <= variables
    }
}

/// The other literal of the variable.
pub fn negation(literal: Literal) -> Literal
    ensures { result ≡ spec.negation literal }
{
    Literal {
        code: literal.code ^ 1,
    }
}
