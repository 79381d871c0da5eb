//! Jumps by tables.

ghost use Rattle.std.specs.Prelude.{◌≡◌, ℕ, ◌+◌, ◌-◌, ◌*◌, ◌/◌, ◌≤◌, ◌^◌, is_some, IfOk, Some};
ghost use Rattle.std.specs.Option.{option_map};
ghost use Rattle.code_reach_spec.specs.RunUp as run_up;
ghost use Rattle.code_reach_spec.specs.Code as spec;
ghost use Rattle.code_reach_tables.specs.Nodes.{Holds, trees_of};
ghost use Rattle.code_reach_tables.specs.Followed.{IsFollowed, IsFine, IsBoundOr};
ghost use Rattle.code_reach_tables.specs.Tables.{target_at, jump_seen, IsTableOr, IsRunOr};
ghost use Rattle.code_reach_tables.specs.Tables.{is_before_jump};

use crate::nodes::{parts_of, shift_of};
use crate::straight::{Bound, Straight};
use crate::words::{instruction_at, is_straight, word};
use elf_read::Image;
use rv_instr::{Instr, Reg};
use std::alloc::{AllocError, Global};

/// A jump by a table.
#[derive(Clone, Copy)]
pub struct TableJump {
    /// How many words before the jump are its run-up.
    pub before: u32,
    /// The address of the branch that bounds the index.
    pub branch: u32,
    /// Where the table begins.
    pub first: u32,
    /// How many words it has.
    pub count: u32,
}

/// The word at an address, and 0 where it isn't fixed.
fn word_or_zero(image: &Image<'_>, address: u32) -> u32
    ensures { result ≡ target_at image.now address }
{
    if address > u32::MAX - 3 {
        return 0;
    }
    word(image, address).unwrap_or(0)
}

/// The word of a jump's table at an index.
pub fn target(image: &Image<'_>, jump: TableJump, index: u32) -> u32
    ensures { result ≡ target_at image.now (jump.first + 4 * index) }
{
    word_or_zero(image, jump.first.saturating_add(index.saturating_mul(4)))
}

/// Whether so many words from an address on are fixed.
fn are_fixed(image: &Image<'_>, address: u32, count: u32) -> bool
    requires { address + 4 * count ≤ 2 ^ 32 }
    ensures { result ≡ is_some (spec.words_from image.now address count) }
{
    for k in 0..count {
        if word(image, address + 4 * k).is_none() {
            return false;
        }
    }
    true
}

/// The table from which the register of the jump was loaded.
fn table(straight: &Straight) -> Option<(u32, usize)>
    requires { IsFine straight.now }
    ensures { (f : run_up.Followed) → IsFollowed straight.now f
        → IsTableOr (trees_of straight.now.nodes.keys) result (run_up.table_from f.source) }
{
    let source = straight.source?;
    let (scaled, first) = parts_of(&straight.nodes, source)?;
    let (index, amount) = shift_of(&straight.nodes, scaled)?;
    if amount == 2 {
        Some((first, index))
    } else {
        None
    }
}

/// The last bound of what a table's index is.
fn bound_on(straight: &Straight, index: usize) -> Option<Bound>
    requires { IsFine straight.now }
    ensures { (f : run_up.Followed) (t : run_up.Symbolic) → IsFollowed straight.now f
        → Holds (trees_of straight.now.nodes.keys) index t
        → IsBoundOr (trees_of straight.now.nodes.keys) result (run_up.bound_on t f.bounds) }
{
    let mut left = straight.bounds.len();
    while left > 0 {
        left -= 1;
        let bound = straight.bounds[left];
        if bound.index == index {
            return Some(bound);
        }
    }
    None
}

/// The jump by the table from `first` on, of which the index has this bound.
fn bounded(image: &Image<'_>, before: u32, first: u32, bound: Bound) -> Option<TableJump>
    ensures { (other : run_up.Bound) → other.branch ≡ bound.branch → other.count ≡ bound.count
        → option_map (jump_seen image.now) result
        ≡ spec.jump_by image.now before (Some (first, other)) }
{
    if !first.is_multiple_of(4) {
        return None;
    }
    if bound.count < 1 || bound.count > 1024 {
        return None;
    }
    if u64::from(first) + 4 * bound.count > 1 << 32 {
        return None;
    }
    let count = bound.count as u32;
    if !are_fixed(image, first, count) {
        return None;
    }
    Some(TableJump {
        before,
        branch: bound.branch,
        first,
        count,
    })
}

/// The jump that what was followed determines.
fn jump(image: &Image<'_>, before: u32, straight: &Straight) -> Option<TableJump>
    requires { IsFine straight.now }
    ensures { (f : run_up.Followed) → IsFollowed straight.now f
        → option_map (jump_seen image.now) result
        ≡ spec.jump_by image.now before (run_up.bounded f.bounds (run_up.table_from f.source)) }
{
    let (first, index) = table(straight)?;
    let bound = bound_on(straight, index)?;
    bounded(image, before, first, bound)
}

/// Follows so many words from an address on, if each may be before a jump by the register.
fn follow_words(
    image: &Image<'_>,
    r: Reg,
    start: u32,
    count: u32,
    straight: &mut Straight,
) -> Result<bool, AllocError>
    requires whole { start + 4 * count ≤ 2 ^ 32 }
    requires begun { IsFollowed straight.old run_up.before_all }
    ensures { IfOk result (IsRunOr image.now r start count straight.new) }
{
    for k in 0..count {
        let place = start + 4 * k;
        let Some(instruction) = instruction_at(image, place) else {
            return Ok(false);
        };
        if !is_straight(&instruction) {
            return Ok(false);
        }
        straight.follow(r, place, &instruction)?;
    }
    Ok(true)
}

/// The jump by a register at an address, if so many words before it are a run-up.
fn jump_from(
    alloc: Global,
    image: &Image<'_>,
    r: Reg,
    address: u32,
    before: u32,
) -> Result<Option<TableJump>, AllocError>
    requires { 4 * before ≤ address }
    ensures { IfOk result (λ found. option_map (jump_seen image.now) found
        ≡ spec.jump_from image.now r address before) }
{
    let start = address - 4 * before;
    let mut straight = Straight::new(alloc)?;
    let all = follow_words(image, r, start, before, &mut straight)?;
    if !all {
        return Ok(None);
    }
    let found = jump(image, before, &straight);
    Ok(found)
}

/// Whether the word at an address is an instruction that may be before a jump by a table.
fn may_be_before(image: &Image<'_>, address: u32) -> bool
    requires { address + 4 ≤ 2 ^ 32 }
    ensures { result ≡ is_before_jump image.now address }
{
    match instruction_at(image, address) {
        Some(instruction) => is_straight(&instruction),
        None => false,
    }
}

/// The jump by a register at an address, by the shortest run-up of at most so many words.
fn table_jump(
    alloc: Global,
    image: &Image<'_>,
    r: Reg,
    address: u32,
    most: u32,
) -> Result<Option<TableJump>, AllocError>
    requires before { 4 * most ≤ address }
    requires whole { address + 4 ≤ 2 ^ 32 }
    ensures { IfOk result (λ found. option_map (jump_seen image.now) found
        ≡ spec.table_jump image.now r address most) }
{
    let mut before = 0;
    while before < most {
        before += 1;
        if !may_be_before(image, address - 4 * before) {
            return Ok(None);
        }
        let found = jump_from(alloc, image, r, address, before)?;
        if found.is_some() {
            return Ok(found);
        }
    }
    Ok(None)
}

/// The jump by a table that an instruction of the function at an entry is.
pub fn table_at(
    alloc: Global,
    image: &Image<'_>,
    entry: u32,
    address: u32,
    instruction: &Instr,
) -> Result<Option<TableJump>, AllocError>
    requires from { entry ≤ address }
    requires whole { address + 4 ≤ 2 ^ 32 }
    ensures { IfOk result (λ found. option_map (jump_seen image.now) found
        ≡ spec.table_at image.now entry address instruction.now) }
{
    let Instr::Jalr { rd, base, offset } = *instruction else {
        return Ok(None);
    };
    if rd.number() != 0 || base.number() == 1 || offset != 0 {
        return Ok(None);
    }
    table_jump(alloc, image, base, address, (address - entry) / 4)
}
