//! Accesses to objects in memory: the guards that they break, and what they read and write.

ghost use Rattle.std.specs.Prelude.{◌≡◌, ◌+◌, ◌*◌, ◌/◌, ◌≤◌, ◌^◌, ◌<◌};
ghost use Rattle.std.specs.Prelude.{IfNone, IsErrOf, MatchOption, is_some, Ok};
ghost use Rattle.std.specs.Bool.{OnTrue};
ghost use Rattle.attempt.specs.declared.refusal.Refusal.TheVariants.{NoMemory};
ghost use Rattle.memory_spec.specs.Runs.{fixed_byte};
ghost use Rattle.memory_spec.specs.Viewed.{runs_of};
ghost use Rattle.c_types_spec.specs.Values as rule;
ghost use Rattle.c_run_spec.specs.Accesses as spec;
ghost use Rattle.c_run_value.specs.Settings.{setting_of, zone_of};
ghost use Rattle.c_run_value.specs.Gives.{Gives, GivesValue, IsKept, IsSize};

use crate::memory::Memory;
use crate::setting::{Setting, Stop, Zone, is_fixed, is_in_zone};
use attempt::{Refusal, attempt};
use c_run_spec::Guard;
use c_types_core::values::{bits_of, convert};
use c_types_spec::Scalar;
use memory_spec::Run;

/// Addresses are below this.
const ADDRESSES: u128 = 1 << 32;

/// How many bytes an object of the type has; none where the program doesn't compute with the type.
fn size_of(of: Scalar) -> Option<u32>
    ensures { MatchOption result (8 ≤ of.width → of.width ≤ 64 → ⊥) (λ size. IsSize of size) }
{
    if 8 <= of.width && of.width <= 64 {
        Some(of.width / 8)
    } else {
        None
    }
}

/// An object of a size may be at the address.
fn is_object(size: u32, address: u128) -> bool
    requires { 0 < size }
    ensures exact { result ≡ spec.is_object size address }
    ensures inside { OnTrue result (address + size ≤ 2 ^ 32) }
{
    if address == 0 || address > ADDRESSES {
        return false;
    }
    address % size as u128 == 0 && address + size as u128 <= ADDRESSES
}

/// One of so many bytes from an address on is in the zone.
#[tactic(auto, using(crate::proofs::Steps::some_steps))]
fn meets_zone(size: u32, zone: Zone, address: u64) -> bool
    requires { address + size ≤ 2 ^ 32 }
    ensures { result ≡ spec.some_byte (spec.in_zone (zone_of zone)) size address }
{
    if size == 0 {
        return false;
    }
    if is_in_zone(zone, address as u32) {
        return true;
    }
    meets_zone(size - 1, zone, address + 1)
}

/// One of so many bytes from an address on is fixed.
#[tactic(auto, using(crate::proofs::Steps::some_steps))]
fn meets_fixed(size: u32, fixed: &[Run], address: u64) -> bool
    requires { address + size ≤ 2 ^ 32 }
    ensures { result ≡ spec.some_byte (λ a. is_some (fixed_byte (runs_of fixed.now) a)) size
        address }
{
    if size == 0 {
        return false;
    }
    if is_fixed(fixed, address as u32) {
        return true;
    }
    meets_fixed(size - 1, fixed, address + 1)
}

/// The first guard that a read breaks.
#[tactic(auto, unfolding(c_run_spec::specs::Accesses::read_guard, crate::specs::Settings::setting_in))]
fn read_guard(setting: &Setting<'_, '_>, size: u32, address: u128) -> Option<Guard>
    requires { 0 < size }
    ensures exact { result ≡ spec.read_guard (setting_of setting.now) size address }
    ensures inside { IfNone result (address + size ≤ 2 ^ 32) }
{
    if !is_object(size, address) {
        return Some(Guard::Access);
    }
    if meets_zone(size, setting.barred, address as u64) {
        return Some(Guard::BarredZone);
    }
    None
}

/// The first guard that a write breaks.
#[tactic(auto, unfolding(c_run_spec::specs::Accesses::write_guard, crate::specs::Settings::setting_in))]
fn write_guard(setting: &Setting<'_, '_>, size: u32, address: u128) -> Option<Guard>
    requires { 0 < size }
    ensures exact { result ≡ spec.write_guard (setting_of setting.now) size address }
    ensures inside { IfNone result (address + size ≤ 2 ^ 32) }
{
    match read_guard(setting, size, address) {
        Some(guard) => Some(guard),
        None => {
            if meets_fixed(size, setting.place.fixed, address as u64) {
                Some(Guard::FixedByte)
            } else {
                None
            }
        }
    }
}

/// The number that so many bytes are, the lowest first.
#[tactic(auto, using(crate::proofs::Steps::bytes_steps, crate::proofs::Steps::byte_bounds))]
fn bytes_at(size: u32, memory: &Memory, address: u64) -> u64
    requires small { size ≤ 8 }
    requires inside { address + size ≤ 2 ^ 32 }
    ensures value { result ≡ spec.bytes_at memory.now size address }
    ensures below { result < 2 ^ (8 * size) }
{
    if size == 0 {
        return 0;
    }
    let low = memory.byte(address as u32) as u64;
    let high = bytes_at(size - 1, memory, address + 1);
    low + 256 * high
}

/// Writes so many bytes of a number, the lowest first.
#[tactic(auto, using(crate::proofs::Steps::with_steps))]
fn store_bytes(
    size: u32,
    memory: &mut Memory,
    address: u64,
    number: u64,
) -> Result<(), Refusal<Stop>>
    requires { address + size ≤ 2 ^ 32 }
    ensures { Gives (λ _. memory.new) result (Ok (spec.with_bytes memory.old size address number)) }
{
    if size == 0 {
        return Ok(());
    }
    match memory.put(address as u32, (number % 256) as u8) {
        Ok(()) => store_bytes(size - 1, memory, address + 1, number / 256),
        Err(_) => Err(Refusal::NoMemory),
    }
}

/// The value of a type that has these bits.
#[tactic(auto, using(crate::proofs::Bits::of_low_bits))]
fn of_bits(of: Scalar, bits: u64) -> i128
    requires low { 8 ≤ of.width }
    requires high { of.width ≤ 64 }
    requires below { bits < 2 ^ of.width }
    ensures { result ≡ rule.of_bits of bits }
{
    convert(bits as i128, of)
}

/// The value of the object at an address. Out of memory exactly where the type has no size of an
/// object.
#[tactic(auto, unfolding(c_run_spec::specs::Accesses::object_value))]
pub fn object_value(
    setting: &Setting<'_, '_>,
    memory: &Memory,
    of: Scalar,
    address: u128,
    offset: usize,
) -> Result<i128, Refusal<Stop>>
    ensures value { GivesValue result (spec.object_value (setting_of setting.now) memory.now of
        address offset) }
    ensures large { IsErrOf result NoMemory → 8 ≤ of.width → of.width ≤ 64 → ⊥ }
{
    let Some(size) = size_of(of) else {
        return Err(Refusal::NoMemory);
    };
    match read_guard(setting, size, address) {
        Some(guard) => Err(Refusal::Fault(Stop::Broke(guard, offset))),
        None => Ok(of_bits(of, bytes_at(size, memory, address as u64))),
    }
}

/// Stores a value in the object at an address. Where a guard is broken nothing is written.
#[tactic(auto, unfolding(c_run_spec::specs::Accesses::stored))]
pub fn store_object(
    setting: &Setting<'_, '_>,
    memory: &mut Memory,
    of: Scalar,
    address: u128,
    value: i128,
    offset: usize,
) -> Result<(), Refusal<Stop>>
    ensures exact { Gives (λ _. memory.new) result
        (spec.stored (setting_of setting.now) memory.old of
        address value offset) }
    ensures kept { IsKept memory.old memory.new result }
{
    let Some(size) = size_of(of) else {
        return Err(Refusal::NoMemory);
    };
    match write_guard(setting, size, address) {
        Some(guard) => Err(Refusal::Fault(Stop::Broke(guard, offset))),
        None => match store_bytes(size, memory, address as u64, bits_of(of.width, value)) {
            Ok(()) => Ok(()),
            Err(_) => Err(Refusal::NoMemory),
        },
    }
}
