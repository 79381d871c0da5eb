// Terms of one bank, taken to another with terms in place of their variables.

ghost use Rattle.std.specs.Prelude.{◌≡◌, ℕ, ◌<◌, nat_eq, length, All, IsSome, IfNone, IfSome};
ghost use Rattle.std.specs.Prelude.{IfOk, OnOk, List};
ghost use Rattle.std.specs.HashMap.{get};
ghost use Rattle.term_core_spec.specs.Term as tree;
ghost use Rattle.term_core_spec.specs.Same.{same_variable};
ghost use Rattle.term_core_spec.specs.Substitution.{State, substituted};
ghost use Rattle.term_bank.specs.Nodes.{IsNode, build, tree_at, Holds, Extends};
ghost use Rattle.term_bank.specs.Subterms.{arguments_of};
ghost use Rattle.term_substitution.specs.States.{state_of, AreBelow, IsAt, IsFound};
ghost use Rattle.term_substitution.specs.Paths.{left, Descends, IsNew, IsReady};
ghost use Rattle.term_substitution.specs.Transfers.{atom_of, over, taken_id, AllTaken, AreTaken};
ghost use Rattle.term_substitution.specs.Transfers.{AreWithin, HasTerms, TakesMore};

use crate::nodes::arguments;
use crate::state::put_atom;
use std::alloc::{AllocError, Global};
use std::collections::HashMap;
use term_bank::{Bank, TermId, TermNode};
use term_core_spec::{Atom, Variable};

/// What was taken: the index in the one bank, and that in the other.
pub type Taken = HashMap<TermId, TermId>;

// The index of a term that was taken.
fn index_of(done: &Taken, id: TermId) -> TermId
    requires { IsSome (get nat_eq done.now id) }
    ensures { result ≡ taken_id (get nat_eq done.now) id }
{
    *done.get(&id).unwrap()
}

// A node over the indices of its arguments.
fn over_taken(done: &Taken, node: TermNode) -> TermNode
    requires { AllTaken (get nat_eq done.now) (arguments_of node) }
    ensures { result ≡ over (get nat_eq done.now) node }
{
    match node {
        TermNode::Leaf(atom) => TermNode::Leaf(atom),
        TermNode::Unary(operator, a) => TermNode::Unary(operator, index_of(done, a)),
        TermNode::Binary(operator, a, b) => {
            TermNode::Binary(operator, index_of(done, a), index_of(done, b))
        }
        TermNode::Ternary(operator, a, b, c) => TermNode::Ternary(
            operator,
            index_of(done, a),
            index_of(done, b),
            index_of(done, c),
        ),
        TermNode::Quaternary(operator, a, b, c, d) => TermNode::Quaternary(
            operator,
            index_of(done, a),
            index_of(done, b),
            index_of(done, c),
            index_of(done, d),
        ),
        TermNode::Octonary(a, b, c, d, e, f, g, h) => TermNode::Octonary(
            index_of(done, a),
            index_of(done, b),
            index_of(done, c),
            index_of(done, d),
            index_of(done, e),
            index_of(done, f),
            index_of(done, g),
            index_of(done, h),
        ),
    }
}

// The atom of a node that is one.
fn leaf_of(node: TermNode) -> Option<Atom>
    ensures { result ≡ atom_of node }
{
    match node {
        TermNode::Leaf(atom) => Some(atom),
        _ => None,
    }
}

// The index of a node's term, where its arguments were taken.
fn put_node(
    bank: &mut Bank,
    node: TermNode,
    state: &HashMap<Variable, TermId>,
    done: &Taken,
) -> Result<TermId, AllocError>
    requires state { AreBelow (length bank.old) (get same_variable state.now) }
    requires done { AreWithin (length bank.old) (get nat_eq done.now) }
    requires all { AllTaken (get nat_eq done.now) (arguments_of node) }
    ensures tree { (trees : List tree.Term) (terms : State)
        → HasTerms bank.old (get same_variable state.now) terms
        → AreTaken terms trees bank.old (get nat_eq done.now)
        → IsAt bank.new result (substituted terms (build trees node)) }
    ensures within { IsFound bank.new result }
    ensures extends { Extends bank.old bank.new }
{
    match leaf_of(node) {
        Some(atom) => {
            let size = bank.len();
            put_atom(bank, atom, state, size)
        }
        None => bank.add(over_taken(done, node)),
    }
}

// The first argument of a node that was not taken.
fn untaken(done: &Taken, node: TermNode) -> Option<TermId>
    ensures none { IfNone result (AllTaken (get nat_eq done.now) (arguments_of node)) }
    ensures new { IfSome result (IsNew (get nat_eq done.now)) }
    ensures below { (n : ℕ) → IsNode n node → IfSome result (λ id. id < n) }
{
    let (ids, count) = arguments(node);
    for k in 0..count {
        if !done.contains_key(&ids[k]) {
            return Some(ids[k]);
        }
    }
    None
}

// Goes down from a term that was not taken, each time to the first argument that was not, to one
// whose arguments all were. The terms above it are pushed.
fn descend(
    from: &Bank,
    done: &Taken,
    path: &mut Vec<TermId>,
    id: TermId,
) -> Result<(TermId, TermNode), AllocError>
    requires id { id < length from.now }
    requires new { IsNew (get nat_eq done.now) id }
    requires path { All (λ k. k < length from.now) path.old.items }
    ensures ready { IfOk result (λ r. IsReady from.now (get nat_eq done.now) r.0 r.1) }
    ensures path { IfOk result (λ r. Descends (length from.now) id path.old.items r.0
        path.new.items) }
{
    let mut lowest = id;
    let mut node = from.node(id);
    'down: while let Some(argument) = untaken(done, node) {
        path.push(lowest)?;
        lowest = argument;
        node = from.node(argument);
    }
    Ok((lowest, node))
}

// Takes a term whose arguments were taken.
fn take_one(
    bank: &mut Bank,
    id: TermId,
    node: TermNode,
    state: &HashMap<Variable, TermId>,
    done: &mut Taken,
) -> Result<(), AllocError>
    requires state { AreBelow (length bank.old) (get same_variable state.now) }
    requires done { AreWithin (length bank.old) (get nat_eq done.old) }
    requires all { AllTaken (get nat_eq done.old) (arguments_of node) }
    ensures more { (from : List tree.Term) → Holds from id (build from node)
        → OnOk result (TakesMore from (get same_variable state.now) bank.old bank.new
        (get nat_eq done.old) (get nat_eq done.new)) }
    ensures fewer { (n : ℕ) → id < n → IsNew (get nat_eq done.old) id
        → OnOk result (left (get nat_eq done.new) n < left (get nat_eq done.old) n) }
    ensures extends { Extends bank.old bank.new }
{
    let index = put_node(bank, node, state, done)?;
    done.insert(id, index)?;
    Ok(())
}

// Takes a term, after its arguments, unless it was taken. `path` has terms whose arguments are
// being taken, so that a term may be as deep as memory allows.
fn take_term(
    alloc: Global,
    bank: &mut Bank,
    from: &Bank,
    id: TermId,
    state: &HashMap<Variable, TermId>,
    done: &mut Taken,
) -> Result<(), AllocError>
    requires id { id < length from.now }
    requires state { AreBelow (length bank.old) (get same_variable state.now) }
    requires done { AreWithin (length bank.old) (get nat_eq done.old) }
    ensures more { OnOk result (TakesMore from.now (get same_variable state.now) bank.old bank.new
        (get nat_eq done.old) (get nat_eq done.new)) }
    ensures there { OnOk result (IsSome (get nat_eq done.new id)) }
    ensures extends { Extends bank.old bank.new }
{
    let mut path = Vec::new(alloc);
    'terms: while !done.contains_key(&id) {
        let next = path.pop().unwrap_or(id);
        if !done.contains_key(&next) {
            let (lowest, node) = descend(from, done, &mut path, next)?;
            take_one(bank, lowest, node, state, done)?;
        }
    }
    Ok(())
}

/// The index in `bank` of the term of `from` at `id`, with the terms of `state` in place of its
/// variables, all at once; a variable that has none stays. `done` has what was taken so far under
/// this state, and gets each subterm that is new, so the work is linear in these. Out of memory,
/// the bank may have some more terms, and the table is of no use.
pub fn transfer(
    alloc: Global,
    bank: &mut Bank,
    from: &Bank,
    id: TermId,
    state: &HashMap<Variable, TermId>,
    done: &mut Taken,
) -> Result<TermId, AllocError>
    requires id { id < length from.now }
    requires state { AreBelow (length bank.old) (get same_variable state.now) }
    requires done { AreWithin (length bank.old) (get nat_eq done.old) }
    ensures tree { (terms : State) → HasTerms bank.old (get same_variable state.now) terms
        → AreTaken terms from.now bank.old (get nat_eq done.old)
        → IsAt bank.new result (substituted terms (tree_at from.now id)) }
    ensures within { IsFound bank.new result }
    ensures more { OnOk result (TakesMore from.now (get same_variable state.now) bank.old bank.new
        (get nat_eq done.old) (get nat_eq done.new)) }
    ensures extends { Extends bank.old bank.new }
{
    take_term(alloc, bank, from, id, state, done)?;
    Ok(index_of(done, id))
}

/// The same of one term, with a table of its own.
pub fn transfer_one(
    alloc: Global,
    bank: &mut Bank,
    from: &Bank,
    id: TermId,
    state: &HashMap<Variable, TermId>,
) -> Result<TermId, AllocError>
    requires id { id < length from.now }
    requires state { AreBelow (length bank.old) (get same_variable state.now) }
    ensures tree { IsAt bank.new result
        (substituted (state_of bank.old (get same_variable state.now)) (tree_at from.now id)) }
    ensures within { IsFound bank.new result }
    ensures extends { Extends bank.old bank.new }
{
    let mut done = HashMap::new(alloc);
    transfer(alloc, bank, from, id, state, &mut done)
}
