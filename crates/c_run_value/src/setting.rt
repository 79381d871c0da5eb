//! What a run takes place in.

ghost use Rattle.std.specs.Prelude.{◌≡◌, unwrap_or, is_some};
ghost use Rattle.memory_spec.specs.Runs.{byte_in, fixed_byte};
ghost use Rattle.memory_spec.specs.Viewed.{run_of, runs_of};
ghost use Rattle.c_run_spec.specs.Accesses.{in_zone};
ghost use Rattle.c_run_value.specs.Settings.{zone_of, address_in};

use c_run_spec::Guard;
use c_types::typed::Typed;
use memory_spec::Run;

/// A global, and where it is.
#[derive(Clone, Copy)]
pub struct Global<'a> {
    /// Its name.
    pub name: &'a [u8],
    /// The address of its first byte.
    pub address: u32,
}

/// Addresses one after the other, from `low` to below `high`.
#[derive(Clone, Copy)]
pub struct Zone {
    pub low: u32,
    pub high: u32,
}

/// Where the globals are, and the bytes that no write meets.
#[derive(Clone, Copy)]
pub struct Place<'s, 'a> {
    /// The globals; of two with one name the first counts.
    pub globals: &'s [Global<'a>],
    /// The runs of fixed bytes.
    pub fixed: &'s [Run],
}

/// What stays as it is for a whole run.
#[derive(Clone, Copy)]
pub struct Setting<'s, 'a> {
    /// The unit, which has the functions' bodies.
    pub unit: &'s Typed<'a>,
    /// Where the globals are, and the fixed bytes.
    pub place: Place<'s, 'a>,
    /// No access meets it.
    pub barred: Zone,
}

/// Why a run stops short.
#[derive(Clone, Copy)]
pub enum Stop {
    /// It breaks a guard, reported at an offset.
    Broke(Guard, usize),
}

/// The address of a global, or 0.
#[tactic(auto, using(crate::proofs::Lookups::address_steps))]
pub fn global_address(globals: &[Global<'_>], name: &[u8]) -> u32
    ensures { result ≡ unwrap_or (address_in globals.now name.now) 0 }
{
    for global in globals {
        if global.name == name {
            return global.address;
        }
    }
    0
}

/// The address is one of the zone.
pub fn is_in_zone(zone: Zone, address: u32) -> bool
    ensures { result ≡ in_zone (zone_of zone) address }
{
    zone.low <= address && address < zone.high
}

/// A run has a byte at the address.
#[tactic(auto, using(crate::proofs::Lookups::byte_tests))]
fn has_byte(run: &Run, address: u32) -> bool
    ensures { result ≡ is_some (byte_in (run_of run.now) address) }
{
    if address < run.start {
        return false;
    }
    ((address - run.start) as usize) < run.bytes.len()
}

/// The byte at the address is fixed.
pub fn is_fixed(runs: &[Run], address: u32) -> bool
    ensures { result ≡ is_some (fixed_byte (runs_of runs.now) address) }
{
    for run in runs {
        if has_byte(run, address) {
            return true;
        }
    }
    false
}
