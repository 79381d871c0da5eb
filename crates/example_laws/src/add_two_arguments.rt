ghost use Rattle.std.specs.Prelude.{◌≡◌, IsSomeAnd};
ghost use Rattle.rv_machine_spec.specs.Machine.{read_register};
ghost use Rattle.rv_machine_spec.specs.Step.{after};
ghost use Rattle.example_laws.specs.AddTwoArguments.{start};

/// The worked example `add_two_arguments`: `add x10, x10, x11` and a return. From 5 in x10 and 7 in
/// x11 the machine is back at the caller's address after two steps, with 12 in x10.
pub fn adds_two_arguments()
    ensures { IsSomeAnd (after start 0x00020000 2) (λ m. (m.pc ≡ 0x00020000)
        × (read_register m 10 ≡ 12)) }
{}
