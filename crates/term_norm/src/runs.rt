// Runs of fixed bytes.

ghost use Rattle.std.specs.Prelude.{◌≡◌, ◌<◌, ◌^◌, All};
ghost use Rattle.memory_spec.specs.Runs as fixed_runs;
ghost use Rattle.memory_spec.specs.Viewed.{run_of, runs_of};

use memory_spec::Run;

// The byte of a run at an address.
fn byte_in(run: &Run, address: u64) -> Option<u8>
    ensures { result ≡ fixed_runs.byte_in (run_of run.now) address }
{
    let start = u64::from(run.start);
    if start <= address {
        run.bytes.get((address - start) as usize).copied()
    } else {
        None
    }
}

/// The byte that is fixed at an address: that of the first run that has it.
pub fn fixed_byte(runs: &[Run], address: u64) -> Option<u8>
    ensures { result ≡ fixed_runs.fixed_byte (runs_of runs.now) address }
{
    for run in runs {
        if let Some(byte) = byte_in(run, address) {
            return Some(byte);
        }
    }
    None
}

// What a list of bytes has are bytes, by its type.
fn hold_bytes(bytes: &[u8])
    ensures { All (λ b. b < 2 ^ 8) bytes.now }
{
    let _count = bytes.len();
}

/// What runs have are bytes. Only their number is looked at.
pub fn hold_runs(runs: &[Run])
    ensures { fixed_runs.AreBytes (runs_of runs.now) }
{
    for run in runs {
        hold_bytes(run.bytes.as_slice());
    }
}
