ghost use Rattle.std.specs.Prelude.{◌≡◌, Some, None, pos, negsuc};
ghost use Rattle.rv_instr.specs.Instr.{instr};
ghost use Rattle.rv_instr.specs.declared.Instr.TheVariants.{Arithmetic, Jalr, Shift, Jal, Branch};
ghost use Rattle.rv_instr.specs.declared.Instr.TheVariants.{Store, Immediate};
ghost use Rattle.rv_instr.specs.declared.ArithmeticOperation.TheVariants.{Add, DivideUnsigned};
ghost use Rattle.rv_instr.specs.declared.ImmediateOperation.TheVariants as immediate;
ghost use Rattle.rv_instr.specs.declared.ShiftOperation.TheVariants.{RightArithmetic};
ghost use Rattle.rv_instr.specs.declared.BranchTest.TheVariants.{NotEqual};
ghost use Rattle.rv_instr.specs.declared.StoreKind.TheVariants as store_kind;

/// Words and their forms, the immediates of each format among them.
#[tactic(auto, unfolding(rv_instr::specs::Instr::instr, rv_instr::specs::Instr::instr_of, rv_instr::specs::Instr::instr_of_immediate))]
pub fn decodes()
    ensures add { instr 0x00b50533 ≡ Some (Arithmetic Add 10 10 11) }
    ensures divu { instr 0x02b55533 ≡ Some (Arithmetic DivideUnsigned 10 10 11) }
    ensures jalr { instr 0x00008067 ≡ Some (Jalr 0 1 (pos 0)) }
    ensures srai { instr 0x40155513 ≡ Some (Shift RightArithmetic 10 10 1) }
    ensures addi { instr 0xff010113 ≡ Some (Immediate immediate.Add 2 2 (negsuc 15)) }
    ensures sw { instr 0x00112623 ≡ Some (Store store_kind.Word 2 1 (pos 12)) }
    ensures bne { instr 0xfe051ce3 ≡ Some (Branch NotEqual 10 0 (negsuc 7)) }
    ensures jal { instr 0xff9ff0ef ≡ Some (Jal 1 (negsuc 7)) }
{}

/// SRLI with funct7 1, and an opcode of no instruction.
#[tactic(auto, unfolding(rv_instr::specs::Instr::instr, rv_instr::specs::Instr::instr_of, rv_instr::specs::Instr::instr_of_immediate))]
pub fn decodes_nothing()
    ensures shift { instr 0x02155513 ≡ None }
    ensures opcode { instr 0x0000000b ≡ None }
{}
