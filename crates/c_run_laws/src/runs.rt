//! Laws of runs: of every setting, function, arguments, memory and number of turns.

ghost use Rattle.std.specs.Prelude.{◌≡◌, ◌⊎◌, ℕ, ◌+◌, ◌%◌, ◌<◌, ◌≤◌, Bool, IsTrue, ℤ, List, Option};
ghost use Rattle.std.specs.Prelude.{Ok};
ghost use Rattle.memory_spec.specs.Memory.{Memory, byte_at};
ghost use Rattle.memory_spec.specs.Zones.{Zone};
ghost use Rattle.c_run_spec.specs.declared.Guard.TheVariants as guard;
ghost use Rattle.c_types_spec.specs.declared.Scalar.{Scalar};
ghost use Rattle.c_types_spec.specs.Values.{is_of};
ghost use Rattle.c_run_spec.specs.Setting.{Setting};
ghost use Rattle.c_run_spec.specs.Accesses.{size_of, stored, object_value};
ghost use Rattle.c_run_spec.specs.Calls.{More, Back, c_run};
ghost use Rattle.c_run_laws.specs.Statements.{is_barred, AreAlike, IsSameOutcome, fixing, barring};
ghost use Rattle.c_run_laws.specs.Statements.{IsInside, Breaks};

/// An outcome other than `More` is the same with every greater number of turns.
pub fn an_outcome_stays()
    ensures { (setting : Setting) (function : List ℕ) (arguments : List ℤ) (memory : Memory)
        (turns more : ℕ)
        → (c_run setting function arguments memory turns ≡ More)
        ⊎ (c_run setting function arguments memory (turns + more)
        ≡ c_run setting function arguments memory turns) }
{}

/// A run leaves the bytes of the barred zone and the fixed bytes as they were.
pub fn barred_bytes_stay()
    ensures { (setting : Setting) (function : List ℕ) (arguments : List ℤ) (memory after : Memory)
        (turns : ℕ)
        (v : Option ℤ) → c_run setting function arguments memory turns ≡ Back v after
        → (address : ℕ) → IsTrue (is_barred setting address) → byte_at after address
        ≡ byte_at memory address }
{}

/// A run doesn't depend on the bytes of the barred zone.
pub fn the_zone_is_not_read()
    ensures { (setting : Setting) (function : List ℕ) (arguments : List ℤ) (memory other : Memory)
        (turns : ℕ)
        → AreAlike setting memory other
        → IsSameOutcome setting (c_run setting function arguments memory turns)
        (c_run setting function arguments other turns) }
{}

/// A run that doesn't break guard 7 where further bytes are fixed is the same where they are not:
/// so, by the law above, it leaves every byte as it was that its own writes don't meet.
pub fn bytes_that_are_not_written_stay()
    ensures { (setting : Setting) (kept : ℕ → Bool) (function : List ℕ) (arguments : List ℤ)
        (memory : Memory)
        (turns : ℕ) → Breaks guard.FixedByte
        (c_run (fixing setting kept) function arguments memory turns)
        ⊎ (c_run setting function arguments memory turns
        ≡ c_run (fixing setting kept) function arguments memory turns) }
{}

/// A run that doesn't break guard 6 is the same where a zone inside the barred one is barred.
pub fn a_zone_inside_changes_nothing()
    ensures { (setting : Setting) (zone : Zone) (function : List ℕ) (arguments : List ℤ)
        (memory : Memory)
        (turns : ℕ) → IsInside zone setting.barred
        → Breaks guard.BarredZone (c_run setting function arguments memory turns)
        ⊎ (c_run (barring setting zone) function arguments memory turns
        ≡ c_run setting function arguments memory turns) }
{}

/// What is stored in an object is read from it.
pub fn what_is_stored_is_read()
    ensures { (setting : Setting) (memory after : Memory) (type : Scalar) (address offset : ℕ)
        (v : ℤ)
        → type.width % 8 ≡ 0 → IsTrue (is_of type v) → stored setting memory type address v offset
        ≡ Ok after
        → object_value setting after type address offset ≡ Ok v }
{}

/// A store leaves every byte outside its object as it was.
pub fn other_bytes_stay()
    ensures { (setting : Setting) (memory after : Memory) (type : Scalar) (address offset : ℕ)
        (v : ℤ)
        → stored setting memory type address v offset ≡ Ok after
        → (q : ℕ) → (q < address) ⊎ (address + size_of type ≤ q) → byte_at after q
        ≡ byte_at memory q }
{}
