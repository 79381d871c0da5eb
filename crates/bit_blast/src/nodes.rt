// The bits of nodes whose arguments are in a table.

ghost use Rattle.std.specs.Prelude.{◌≡◌, ◌<◌, ◌++◌, length, IfOk};
ghost use Rattle.term_bank.specs.Nodes.{IsNode, build};
ghost use Rattle.bit_blast.specs.Steps as steps;
ghost use Rattle.bit_blast_circuits.specs.Built.{MakesWord};
ghost use Rattle.bit_blast.specs.Terms.{terms_in};
ghost use Rattle.bit_blast.specs.BitsAt.{bits_at};

use crate::atoms::atom_bits;
use crate::operators::{binary_bits, bit_of, quaternary_bits, ternary_bits, unary_bits};
use crate::parts::with_four;
use crate::table::TermTable;
use attempt::attempt;
use bit_blast_circuits::Gates;
use cnf_core::Literal;
use std::alloc::{AllocError, Global};
use term_bank::TermNode;

// The bits of four terms after others.
fn four_after(
    table: &TermTable,
    low: Vec<Literal>,
    a: usize,
    b: usize,
    c: usize,
    d: usize,
) -> Result<Vec<Literal>, AllocError>
    requires { (a < length table.now) × (b < length table.now) × (c < length table.now)
        × (d < length table.now) }
    ensures { IfOk result (λ out. out.items
        ≡ low.items ++ bits_at table.now a ++ bits_at table.now b ++ bits_at table.now c ++ bits_at
        table.now d) }
{
    with_four(
        low,
        table.bits(a),
        table.bits(b),
        table.bits(c),
        table.bits(d),
    )
}

/// The bits of a node's term, by those of its arguments: none of a quotient or a remainder.
pub fn own_bits(
    alloc: Global,
    gates: &mut Gates,
    node: TermNode,
    table: &TermTable,
) -> Result<Vec<Literal>, AllocError>
    requires { IsNode (length table.now) node }
    ensures { MakesWord result (steps.own_bits
        (build (terms_in table.now) node) table.now) gates.old gates.new }
{
    match node {
        TermNode::Leaf(atom) => atom_bits(alloc, gates, atom),
        TermNode::Unary(operator, a) => unary_bits(alloc, operator, table.bits(a)),
        TermNode::Binary(operator, a, b) => {
            binary_bits(alloc, gates, operator, table.bits(a), table.bits(b))
        }
        TermNode::Ternary(operator, a, b, c) => ternary_bits(
            alloc,
            gates,
            operator,
            table.bits(a),
            table.bits(b),
            table.bits(c),
        ),
        TermNode::Quaternary(operator, a, b, c, d) => quaternary_bits(
            alloc,
            operator,
            table.bits(a),
            table.bits(b),
            table.bits(c),
            table.bits(d),
        ),
        TermNode::Octonary(a, b, c, d, e, f, g, h) => {
            let low = attempt!(four_after(table, Vec::new(alloc), a, b, c, d));
            let out = attempt!(four_after(table, low, e, f, g, h));
            Ok(out)
        }
    }
}
