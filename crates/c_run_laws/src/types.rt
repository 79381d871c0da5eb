//! Values have the types of their expressions.

ghost use Rattle.std.specs.Prelude.{◌≡◌, ℕ, ℤ, IsTrue, Option, Ok};
ghost use Rattle.memory_spec.specs.Memory.{Memory};
ghost use Rattle.c_types_spec.specs.declared.Scalar.{Scalar};
ghost use Rattle.c_types_spec.specs.Values.{is_of};
ghost use Rattle.c_types_spec.specs.Core.{Core};
ghost use Rattle.c_types_spec.specs.HasType.{Scope, HasType};
ghost use Rattle.c_run_spec.specs.Setting.{Setting};
ghost use Rattle.c_run_spec.specs.Evaluation.{Locals, value};
ghost use Rattle.c_run_laws.specs.Typing.{LocalsHaveTypes, HasBytes, HasAddresses};

/// The value of an expression is one of its type, where the locals have values of their types.
pub fn a_value_has_its_type()
    ensures { (scope : Scope) (target : Option Scalar) (core : Core) (type : Scalar)
        (setting : Setting)
        (locals : Locals) (memory : Memory) (place : ℕ) (v : ℤ) → HasType scope target core type
        → LocalsHaveTypes scope.locals locals → HasBytes memory → HasAddresses setting
        → value setting locals memory place core ≡ Ok v → IsTrue (is_of type v) }
{}
