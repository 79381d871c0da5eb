ghost use Rattle.std.specs.Prelude.{◌≡◌, ◌^◌, ◌<◌, ℕ, List, All};
ghost use Rattle.memory_spec.specs.Runs.{Run, AreBytes, fixed_byte as byte_of_runs};
ghost use Rattle.elf_read_spec.specs.Image.{Image, fixed_byte};
ghost use Rattle.elf_read_spec.specs.File.{IsElf};
ghost use Rattle.elf_read_spec.specs.Runs.{AreRuns};

/// The runs of fixed bytes have the fixed bytes and nothing else; those of a file of bytes have
/// bytes.
pub fn runs_are_the_fixed_bytes()
    ensures fixed { (image : Image) (runs : List Run) → AreRuns image runs → (address : ℕ)
        → byte_of_runs runs address ≡ fixed_byte image address }
    ensures bytes { (bytes : List ℕ) (image : Image) (runs : List Run) → All (λ b. b < 2 ^ 8) bytes
        → IsElf bytes image → AreRuns image runs → AreBytes runs }
{}
