//! Worked facts of the claim: each function's clauses are facts, and its body is empty.
//!
//! They are of the example `add_two_arguments`: the bytes of its file and their image, a machine
//! that calls its function with 5 and 7, and the C run of this call. So there are files and a call
//! of which all holds that agreement asks.

ghost use Rattle.std.specs.Prelude.{◌≡◌, Some, codes};
ghost use Rattle.elf_read_spec.specs.Image.{function_named};
ghost use Rattle.elf_read_spec.specs.File.{IsElf};
ghost use Rattle.elf_read_spec.specs.declared.SymbolValues.TheVariants.{One};
ghost use Rattle.code_reach_spec.specs.Code.{IsStack};
ghost use Rattle.c_types_spec.specs.declared.Arithmetic.TheVariants.{Add};
ghost use Rattle.c_run_spec.specs.Calls.{body_named};
ghost use Rattle.validity_spec.specs.Convention.{argument_words, Meets};
ghost use Rattle.validity_spec.specs.Claim.{HaveTypes, BreaksNoGuard, RunsBack};
ghost use Rattle.example_laws.specs.AddTwoArguments.{start};
ghost use Rattle.example_laws.specs.Sum.{binary_body, binary_type, sum_unit};
ghost use Rattle.example_laws.specs.AddTwoArgumentsCalled.{file, image, values, run};

/// The bytes of the file are an executable, and this is its image.
pub fn the_file_of_add_two_arguments_is_an_executable()
    ensures { IsElf file image }
{}

/// The function has one entry in the file, where it takes no stack, and a body in the source.
pub fn add_two_arguments_has_code_and_a_body()
    ensures entry { function_named image (codes "f") ≡ One 0x10000 }
    ensures stack { IsStack image 0x10000 0 }
    ensures body { body_named sum_unit.bodies (codes "f") ≡ Some (binary_body Add) }
{}

/// The machine calls the function by the convention with 5 and 7.
pub fn a_call_of_add_two_arguments_meets_the_convention()
    ensures types { HaveTypes binary_type.parameters values }
    ensures meets { Meets image 0x10000 0 start (argument_words values) }
{}

/// The C run of this call breaks no guard and returns.
pub fn a_run_of_add_two_arguments_returns()
    ensures guards { BreaksNoGuard run }
    ensures back { RunsBack run }
{}
