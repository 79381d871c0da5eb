//! The names of a string table as a tree, in which each name is found in as many steps as it has
//! blocks.
//!
//! Names may be ends of a few long texts. So a name is read from its end, in blocks of
//! [`BLOCK`] bytes: names that are ends of one text share all but what is left before the last
//! block, and comparisons read no more than a block. Each offset at which whole blocks are left is
//! looked at once, and each symbol's name has one block more.

ghost use Rattle.std.specs.Prelude.{◌≡◌, ℕ, List, Some, IfOk, OnOk};
ghost use Rattle.std.specs.BTreeMap.{IsEmpty};
ghost use Rattle.elf_read_spec.specs.File.{name_in};
ghost use Rattle.elf_read.specs.NameTree.{AreBlocks, IsAdded, IsGrown, IsNamed};
ghost use Rattle.elf_read.specs.NameTree.{child as child_of, child_among, node_of};

use std::alloc::{AllocError, Global};
use std::collections::BTreeMap;

/// How many bytes a block of a name has.
pub(crate) const BLOCK: usize = 64;

/// The node of each block before the name of a node. A node is the offset of its name in the string
/// table, and 0 that of the empty name.
pub(crate) type Tree<'a> = BTreeMap<usize, BTreeMap<&'a [u8], usize>>;

/// Adds the names at all offsets at which whole blocks are left; the nodes of these offsets.
pub(crate) fn add_blocks<'a>(
    alloc: Global,
    tree: &mut Tree<'a>,
    nodes: &mut BTreeMap<usize, usize>,
    strings: &'a [u8],
) -> Result<(), AllocError>
    requires no_names { IsEmpty tree.old }
    requires no_nodes { IsEmpty nodes.old }
    ensures { OnOk result (AreBlocks tree.new strings.now nodes.new 1) }
{
    let mut at = strings.len();
    let mut node = 0;
    let mut count = 0;
    while at > 1 {
        at -= 1;
        if strings[at] == 0 {
            node = 0;
            count = 0;
        } else if count + 1 < BLOCK {
            count += 1;
        } else {
            node = add_block(alloc, tree, node, &strings[at..at + BLOCK], at)?;
            nodes.insert(at, node)?;
            count = 0;
        }
    }
    Ok(())
}

/// Adds a block before the name of a node with the node that is given, unless it is there; its
/// node.
fn add_block<'a>(
    alloc: Global,
    tree: &mut Tree<'a>,
    rest: usize,
    block: &'a [u8],
    i: usize,
) -> Result<usize, AllocError>
    ensures { IfOk result (λ node. IsGrown tree.old tree.new rest block.now i node) }
{
    if let Some(children) = tree.get_mut(&rest) {
        return add_child(children, block, i);
    }
    let mut children = BTreeMap::new(alloc);
    children.insert(block, i)?;
    tree.insert(rest, children)?;
    Ok(i)
}

/// Adds a block to those before one node.
fn add_child<'a>(
    children: &mut BTreeMap<&'a [u8], usize>,
    block: &'a [u8],
    i: usize,
) -> Result<usize, AllocError>
    ensures { IfOk result (λ node. IsAdded (child_among (Some children.old))
        (child_among (Some children.new)) block.now i node) }
{
    if let Some(node) = children.get(block).copied() {
        return Ok(node);
    }
    children.insert(block, i)?;
    Ok(i)
}

/// Adds the name at an offset, given the nodes of the offsets at which whole blocks are left; its
/// node.
pub(crate) fn add_name<'a>(
    alloc: Global,
    tree: &mut Tree<'a>,
    nodes: &BTreeMap<usize, usize>,
    name: &'a [u8],
    offset: u32,
) -> Result<usize, AllocError>
    ensures { IfOk result (λ node. (strings : List ℕ) → AreBlocks tree.old strings nodes.now 1
        → name.now ≡ name_in strings offset → IsNamed tree.old tree.new strings name.now node) }
{
    let first = name.len() % BLOCK;
    let mut rest = 0;
    if name.len() >= BLOCK {
        rest = nodes.get(&(offset as usize + first)).copied().unwrap_or(0);
    }
    if first == 0 {
        return Ok(rest);
    }
    add_block(alloc, tree, rest, &name[..first], offset as usize)
}

/// The node of a name.
pub(crate) fn node(tree: &Tree, name: &[u8]) -> Option<usize>
    ensures { result ≡ node_of tree.now name.now }
{
    let mut node = 0;
    let mut at = name.len();
    while at >= BLOCK {
        node = child(tree, node, &name[at - BLOCK..at])?;
        at -= BLOCK;
    }
    if at == 0 {
        return Some(node);
    }
    child(tree, node, &name[..at])
}

/// The node of a block before the name of a node.
fn child(tree: &Tree, rest: usize, block: &[u8]) -> Option<usize>
    ensures { result ≡ child_of tree.now rest block.now }
{
    let children = tree.get(&rest)?;
    children.get(block).copied()
}
