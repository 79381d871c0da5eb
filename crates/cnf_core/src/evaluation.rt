ghost use Rattle.std.specs.Prelude.{◌≡◌, true, length};
ghost use Rattle.std.specs.List.{list_all};
ghost use Rattle.clause_check_spec.specs.Clause as spec;
ghost use Rattle.cnf_core.specs.Bits.{valuation};

use crate::{Cnf, Literal};

/// Whether the literal holds.
fn holds(literal: Literal, bits: &[bool]) -> bool
    requires { spec.is_of (length bits.now) literal ≡ true }
    ensures { result ≡ spec.holds (valuation bits.now) literal }
{
    bits[literal.variable() - 1] != literal.is_negated()
}

/// Whether a literal of the clause holds.
fn satisfies_clause(clause: &[Literal], bits: &[bool]) -> bool
    requires { list_all (spec.is_of (length bits.now)) clause.now ≡ true }
    ensures { result ≡ spec.satisfies_clause (valuation bits.now) clause.now }
{
    for literal in clause {
        if holds(*literal, bits) {
            return true;
        }
    }
    false
}

/// Whether an assignment satisfies all clauses: the values of the variables, that of variable 1
/// first.
pub fn eval(cnf: &Cnf, bits: &[bool]) -> bool
    requires { length bits.now ≡ cnf.now.variables }
    ensures { result ≡ spec.satisfies (valuation bits.now) cnf.now.clauses }
{
    for index in 0..cnf.len() {
        let clause = cnf.clause(index).unwrap();
        if !satisfies_clause(clause, bits) {
            return false;
        }
    }
    true
}
