//! What registers have, as trees of which equal ones have one index.

ghost use Rattle.std.specs.Prelude.{◌≡◌, ◌*◌, ◌%◌, ◌^◌, ◌<◌, length, IfOk, IfSome, Some, None};
ghost use Rattle.std.specs.Option.{option_map};
ghost use Rattle.code_reach_spec.specs.RunUp as spec;
ghost use Rattle.code_reach_tables.specs.Nodes.{IsNode, build, trees_of, tree_at, AreShared};
ghost use Rattle.code_reach_tables.specs.Nodes.{Gives, parts_seen};

use indexmap::IndexSet;
use std::alloc::AllocError;

/// What a register has, by the indices of its parts.
#[derive(Clone, Copy, PartialEq, Eq, Hash)]
pub(crate) enum Node {
    /// A constant.
    Constant(u32),
    /// What a register has at the start.
    Initial(u8),
    /// What the instruction at an address gives.
    Unknown(u32),
    /// A sum.
    Sum(usize, usize),
    /// A difference.
    Difference(usize, usize),
    /// Shifted to the left by an amount.
    Shifted(usize, u8),
    /// The bits of a mask.
    Masked(usize, u32),
}

/// The index of the node's tree, which is added where it isn't there.
pub(crate) fn add(nodes: &mut IndexSet<Node>, node: Node) -> Result<usize, AllocError>
    requires shared { AreShared nodes.old.keys }
    requires fits { IsNode (length nodes.old.keys) node }
    ensures { IfOk result (λ id. Gives nodes.old.keys nodes.new.keys id
        (build (trees_of nodes.old.keys) node)) }
{
    let (id, _) = nodes.insert_full(node)?;
    Ok(id)
}

/// The node at an index.
fn node_at(nodes: &IndexSet<Node>, id: usize) -> Node
    requires shared { AreShared nodes.now.keys }
    requires below { id < length nodes.now.keys }
    ensures fits { IsNode id result }
    ensures tree { tree_at (trees_of nodes.now.keys) id ≡ build (trees_of nodes.now.keys) result }
{
    nodes[id]
}

/// The number of a constant.
#[tactic(auto, unfolding(code_reach_spec::specs::RunUp::constant_of))]
pub(crate) fn constant_of(nodes: &IndexSet<Node>, id: usize) -> Option<u32>
    requires shared { AreShared nodes.now.keys }
    requires below { id < length nodes.now.keys }
    ensures { result ≡ spec.constant_of (tree_at (trees_of nodes.now.keys) id) }
{
    match node_at(nodes, id) {
        Node::Constant(n) => Some(n),
        _ => None,
    }
}

/// What is added to a constant, and the constant.
pub(crate) fn parts_of(nodes: &IndexSet<Node>, id: usize) -> Option<(usize, u32)>
    requires shared { AreShared nodes.now.keys }
    requires below { id < length nodes.now.keys }
    ensures parts { option_map (parts_seen (trees_of nodes.now.keys)) result
        ≡ spec.parts_of (tree_at (trees_of nodes.now.keys) id) }
    ensures below { IfSome result (λ parts. parts.0 < length nodes.now.keys) }
{
    let Node::Sum(rest, constant) = node_at(nodes, id) else {
        return None;
    };
    let n = constant_of(nodes, constant)?;
    Some((rest, n))
}

/// What is shifted to the left, and by how much.
pub(crate) fn shift_of(nodes: &IndexSet<Node>, id: usize) -> Option<(usize, u8)>
    requires shared { AreShared nodes.now.keys }
    requires below { id < length nodes.now.keys }
    ensures shift { option_map (parts_seen (trees_of nodes.now.keys)) result
        ≡ spec.shift_of (tree_at (trees_of nodes.now.keys) id) }
    ensures below { IfSome result (λ parts. parts.0 < length nodes.now.keys) }
{
    match node_at(nodes, id) {
        Node::Shifted(a, amount) => Some((a, amount)),
        _ => None,
    }
}

/// The sum of a tree and a constant, where neither is added to a constant.
fn plus_constant(nodes: &mut IndexSet<Node>, a: usize, n: u32) -> Result<usize, AllocError>
    requires shared { AreShared nodes.old.keys }
    requires below { a < length nodes.old.keys }
    ensures { IfOk result (λ id. Gives nodes.old.keys nodes.new.keys id
        (spec.plus_constant (tree_at (trees_of nodes.old.keys) a) n)) }
{
    if n == 0 {
        return Ok(a);
    }
    let constant = add(nodes, Node::Constant(n))?;
    add(nodes, Node::Sum(a, constant))
}

/// The sum of what is no constant and a constant.
fn plus(nodes: &mut IndexSet<Node>, a: usize, n: u32) -> Result<usize, AllocError>
    requires shared { AreShared nodes.old.keys }
    requires below { a < length nodes.old.keys }
    ensures { IfOk result (λ id. Gives nodes.old.keys nodes.new.keys id
        (spec.plus (tree_at (trees_of nodes.old.keys) a) n)) }
{
    match parts_of(nodes, a) {
        None => plus_constant(nodes, a, n),
        Some((rest, m)) => plus_constant(nodes, rest, m.wrapping_add(n)),
    }
}

/// A sum.
#[tactic(auto, unfolding(code_reach_spec::specs::RunUp::sum))]
pub(crate) fn sum(nodes: &mut IndexSet<Node>, a: usize, b: usize) -> Result<usize, AllocError>
    requires shared { AreShared nodes.old.keys }
    requires left { a < length nodes.old.keys }
    requires right { b < length nodes.old.keys }
    ensures { IfOk result (λ id. Gives nodes.old.keys nodes.new.keys id
        (spec.sum (tree_at (trees_of nodes.old.keys) a) (tree_at (trees_of nodes.old.keys) b))) }
{
    match (constant_of(nodes, a), constant_of(nodes, b)) {
        (Some(m), Some(n)) => add(nodes, Node::Constant(m.wrapping_add(n))),
        (Some(m), None) => plus(nodes, b, m),
        (None, Some(n)) => plus(nodes, a, n),
        (None, None) => add(nodes, Node::Sum(a, b)),
    }
}

/// The sum of a tree and a constant.
pub(crate) fn add_constant(
    nodes: &mut IndexSet<Node>,
    a: usize,
    n: u32,
) -> Result<usize, AllocError>
    requires shared { AreShared nodes.old.keys }
    requires below { a < length nodes.old.keys }
    ensures { IfOk result (λ id. Gives nodes.old.keys nodes.new.keys id
        (spec.sum (tree_at (trees_of nodes.old.keys) a) (spec.Constant n))) }
{
    let constant = add(nodes, Node::Constant(n))?;
    sum(nodes, a, constant)
}

/// The difference of trees of which the second one is no constant.
fn difference_of_trees(nodes: &mut IndexSet<Node>, a: usize, b: usize) -> Result<usize, AllocError>
    requires shared { AreShared nodes.old.keys }
    requires left { a < length nodes.old.keys }
    requires right { b < length nodes.old.keys }
    ensures { IfOk result (λ id. Gives nodes.old.keys nodes.new.keys id
        (spec.difference_by (tree_at (trees_of nodes.old.keys) a)
        (tree_at (trees_of nodes.old.keys) b) None None)) }
{
    if a == b {
        return add(nodes, Node::Constant(0));
    }
    add(nodes, Node::Difference(a, b))
}

/// A difference.
#[tactic(auto, unfolding(code_reach_spec::specs::RunUp::difference))]
pub(crate) fn difference(
    nodes: &mut IndexSet<Node>,
    a: usize,
    b: usize,
) -> Result<usize, AllocError>
    requires shared { AreShared nodes.old.keys }
    requires left { a < length nodes.old.keys }
    requires right { b < length nodes.old.keys }
    ensures { IfOk result (λ id. Gives nodes.old.keys nodes.new.keys id (spec.difference
        (tree_at (trees_of nodes.old.keys) a) (tree_at (trees_of nodes.old.keys) b))) }
{
    match (constant_of(nodes, a), constant_of(nodes, b)) {
        (Some(m), Some(n)) => add(nodes, Node::Constant(m.wrapping_sub(n))),
        (None, Some(n)) => plus(nodes, a, n.wrapping_neg()),
        (_, None) => difference_of_trees(nodes, a, b),
    }
}

/// A number shifted to the left by an amount, modulo 2^32.
fn shifted_number(n: u32, amount: u8) -> u32
    ensures { result ≡ n * 2 ^ amount % 2 ^ 32 }
{
    if amount >= 32 {
        return 0;
    }
    n << amount
}

/// A tree shifted to the left.
#[tactic(auto, unfolding(code_reach_spec::specs::RunUp::shifted))]
pub(crate) fn shifted(nodes: &mut IndexSet<Node>, a: usize, amount: u8) -> Result<usize, AllocError>
    requires shared { AreShared nodes.old.keys }
    requires below { a < length nodes.old.keys }
    ensures { IfOk result (λ id. Gives nodes.old.keys nodes.new.keys id
        (spec.shifted (tree_at (trees_of nodes.old.keys) a) amount)) }
{
    if let Some(n) = constant_of(nodes, a) {
        return add(nodes, Node::Constant(shifted_number(n, amount)));
    }
    if amount == 0 {
        return Ok(a);
    }
    add(nodes, Node::Shifted(a, amount))
}

/// The bits of a tree that a mask has.
#[tactic(auto, unfolding(code_reach_spec::specs::RunUp::masked))]
pub(crate) fn masked(nodes: &mut IndexSet<Node>, a: usize, mask: u32) -> Result<usize, AllocError>
    requires shared { AreShared nodes.old.keys }
    requires below { a < length nodes.old.keys }
    ensures { IfOk result (λ id. Gives nodes.old.keys nodes.new.keys id
        (spec.masked (tree_at (trees_of nodes.old.keys) a) mask)) }
{
    if let Some(n) = constant_of(nodes, a) {
        return add(nodes, Node::Constant(n & mask));
    }
    match mask {
        0 => add(nodes, Node::Constant(0)),
        u32::MAX => Ok(a),
        _ => add(nodes, Node::Masked(a, mask)),
    }
}
