//! Variables of a callee, as the graph names them that its body is inlined into.

ghost use Rattle.std.specs.Prelude.{◌≡◌, ◌<◌, length};
ghost use Rattle.term_core_spec.specs.Substitution.{renamed_atom};
ghost use Rattle.term_bank.specs.Nodes.{IsNode};
ghost use Rattle.graph_core_spec.specs.Run as run;
ghost use Rattle.graph_inline.specs.Taken.{named_variable, over};

use term_bank::{TermId, TermNode};
use term_core_spec::{Atom, Family, Sort, Variable};

/// How many further words are ends of the zone: the first ones.
const ZONE_ENDS: usize = 2;

/// Whether caller and callee share a variable: a memory, a register or an end of the zone.
pub(crate) fn is_shared(variable: Variable) -> bool
    ensures { result ≡ run.is_shared variable }
{
    match variable.sort {
        Sort::Memory => true,
        Sort::Truth | Sort::Word(_) => match variable.family {
            Family::Register => true,
            Family::Further => variable.index < ZONE_ENDS,
            _ => false,
        },
    }
}

/// A variable in the instance, or as it is where there is none.
pub(crate) fn name(instance: Option<usize>, variable: Variable) -> Variable
    ensures { result ≡ named_variable instance variable }
{
    match instance {
        Some(instance) => {
            if is_shared(variable) {
                variable
            } else {
                Variable {
                    family: variable.family,
                    index: variable.index,
                    instance,
                    sort: variable.sort,
                }
            }
        }
        None => variable,
    }
}

fn name_atom(instance: Option<usize>, atom: Atom) -> Atom
    ensures { result ≡ renamed_atom (named_variable instance) atom }
{
    match atom {
        Atom::Truth(value) => Atom::Truth(value),
        Atom::Constant(width, number) => Atom::Constant(width, number),
        Atom::Open(variable) => Atom::Open(name(instance, variable)),
    }
}

/// A node over what was taken of its arguments.
pub(crate) fn name_node(instance: Option<usize>, table: &[TermId], node: TermNode) -> TermNode
    requires { IsNode (length table.now) node }
    ensures { result ≡ over instance table.now node }
{
    match node {
        TermNode::Leaf(atom) => TermNode::Leaf(name_atom(instance, atom)),
        TermNode::Unary(operator, a) => TermNode::Unary(operator, table[a]),
        TermNode::Binary(operator, a, b) => TermNode::Binary(operator, table[a], table[b]),
        TermNode::Ternary(operator, a, b, c) => {
            TermNode::Ternary(operator, table[a], table[b], table[c])
        }
        TermNode::Quaternary(operator, a, b, c, d) => {
            TermNode::Quaternary(operator, table[a], table[b], table[c], table[d])
        }
        TermNode::Octonary(a, b, c, d, e, f, g, h) => TermNode::Octonary(
            table[a], table[b], table[c], table[d], table[e], table[f], table[g], table[h],
        ),
    }
}
