ghost use Rattle.std.specs.Prelude.{◌≡◌, ◌+◌, ◌%◌, ◌^◌, ℕ, Some, None, pos};
ghost use Rattle.rv_instr.specs.declared.Instr.TheVariants.{Load, Jal, Immediate};
ghost use Rattle.rv_instr.specs.declared.LoadKind.TheVariants.{Word};
ghost use Rattle.rv_instr.specs.declared.ImmediateOperation.TheVariants.{Add};
ghost use Rattle.rv_machine_spec.specs.Machine.{Machine, read_register};
ghost use Rattle.rv_machine_spec.specs.Step.{execute};

/// LW at address 2 traps, whatever the machine.
#[tactic(auto, unfolding(rv_machine_spec::specs::Step::execute, rv_machine_spec::specs::Step::load, rv_machine_spec::specs::Machine::read_register))]
pub fn misaligned_load_traps()
    ensures { (m : Machine) → execute (Load Word 10 0 (pos 2)) m ≡ None }
{}

/// A jump from 00010000 by 2 traps.
#[tactic(auto, unfolding(rv_machine_spec::specs::Step::execute))]
pub fn misaligned_jump_traps()
    ensures { (m : Machine) → m.pc ≡ 0x10000 → execute (Jal 0 (pos 2)) m ≡ None }
{}

/// ADDI x0, x0, 5 changes nothing but pc.
#[tactic(auto, unfolding(rv_machine_spec::specs::Step::execute, rv_machine_spec::specs::Machine::write_register))]
pub fn zero_is_not_written()
    ensures { (m : Machine) → execute (Immediate Add 0 0 (pos 5)) m
        ≡ Some (record m { pc = (m.pc + 4) % 2 ^ 32 }) }
{}
