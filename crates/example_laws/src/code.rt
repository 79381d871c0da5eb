//! Functions of small images: an AUIPC pair, a tail call, a cycle of calls, and a stack. The words
//! of each image are in `specs/CodeSamples.antt`.

ghost use Rattle.std.specs.Prelude.{◌≡◌, Some, [], ◌∷◌};
ghost use Rattle.code_reach_spec.specs.declared.CodeKind.TheVariants.{Indirect, Leaves};
ghost use Rattle.code_reach_spec.specs.Code.{Calls, Jumps, Switches, Stops, flow_at};
ghost use Rattle.code_reach_spec.specs.Code.{IsReachable};
ghost use Rattle.code_reach_spec.specs.Code.{AreReachable, CallsOn, Reaches, IsCyclic, IsStack};
ghost use Rattle.code_reach_spec.specs.Faults.{IsFunctionFault};
ghost use Rattle.example_laws.specs.CodeSamples.{pair, tail_call, circle, frame};
ghost use Rattle.example_laws.specs.CodeSamples.{entered_pair, stray, pair_by_x1};
ghost use Rattle.example_laws.specs.CodeSamples.{switch, switch_by_bgeu, switch_on_sum};
ghost use Rattle.example_laws.specs.CodeSamples.{switch_unbounded, switch_out, switch_entered};

/// `auipc x5,0; jalr x1,12(x5); ret`: the two words together are a call of the function 12 bytes
/// after the AUIPC, and what follows them is reached. Where a function begins at the JALR the AUIPC
/// is none of its words, and the JALR goes to no known address.
pub fn a_pair_is_a_call()
    ensures flow { flow_at pair 0x10000 0x10004 ≡ Some (Calls 0x1000c) }
    ensures returns { IsReachable pair 0x10000 12 0x10008 }
    ensures calls { CallsOn pair 0x10000 12 0x1000c }
    ensures alone { flow_at pair 0x10004 0x10004 ≡ Some Stops }
{}

/// `auipc x1,0; jalr x0,12(x1)`: a jump with an offset from x1 is no return, and here it is a tail
/// call by a pair.
pub fn a_pair_is_a_tail_call()
    ensures flow { flow_at pair_by_x1 0x10000 0x10004 ≡ Some (Jumps 0x1000c) }
    ensures calls { CallsOn pair_by_x1 0x10000 12 0x1000c }
    ensures alone { flow_at pair_by_x1 0x10004 0x10004 ≡ Some Stops }
{}

/// `beq x0,x0,+8; auipc x5,0; jalr x0,8(x5); ret`: the branch goes to the JALR, which so can be
/// reached without its AUIPC. It is reported there.
pub fn a_pair_is_entered_at_its_auipc()
    ensures flow { flow_at entered_pair 0x10000 0x10008 ≡ Some (Jumps 0x1000c) }
    ensures refused { IsFunctionFault entered_pair 0x10000 16 Indirect 0x10008 }
{}

/// `jal x0,+4` at the end of a function: it ends by a jump to the next function, which is called so
/// and is no address of its own.
pub fn a_jump_out_is_a_tail_call()
    ensures flow { flow_at tail_call 0x10000 0x10000 ≡ Some (Jumps 0x10004) }
    ensures calls { CallsOn tail_call 0x10000 4 0x10004 }
    ensures reaches { Reaches tail_call 0x10000 0x10004 }
    ensures outside { IsReachable tail_call 0x10000 4 0x10004 → ⊥ }
{}

/// `jal x0,+8` at the end of a function, to the second word of the next one: no entry, and no tail
/// call.
pub fn a_jump_into_a_function_leaves()
    ensures refused { IsFunctionFault stray 0x10000 4 Leaves 0x10000 }
    ensures calls_nothing { CallsOn stray 0x10000 4 0x10008 → ⊥ }
{}

/// Two functions that call each other: a cycle of calls is reached.
pub fn a_circle_of_calls_is_cyclic()
    ensures { IsCyclic circle 0x10000 }
{}

/// `addi x2,x2,-16; ret`: both words are reached, and the stack is 16 bytes deep.
pub fn a_frame_takes_stack()
    ensures reachable { AreReachable frame 0x10000 8 (0x10000 ∷ 0x10004 ∷ []) }
    ensures stack { IsStack frame 0x10000 16 }
{}

/// `li x15,1; bltu x15,x10,+40; lui x15,16; slli x10,x10,2; add x15,x15,x10; lw x15,52(x15);
/// jr x15`: the jump goes to one of the two words from 00010034 on, by x10, which the branch bounds.
/// All six words before it are its run-up, since the first one has the bound.
pub fn a_table_is_jumped_by()
    ensures flow { flow_at switch 0x10000 0x10018 ≡ Some (Switches (record {
      before = 6;
      branch = 0x10004;
      targets = 0x1001c ∷ 0x10024 ∷ [];
    })) }
    ensures first { IsReachable switch 0x10000 52 0x1001c }
    ensures second { IsReachable switch 0x10000 52 0x10024 }
{}

/// `li x15,2; bgeu x10,x15,+40` bounds x10 by as much.
pub fn a_table_is_bounded_by_bgeu()
    ensures { flow_at switch_by_bgeu 0x10000 0x10018 ≡ Some (Switches (record {
      before = 6;
      branch = 0x10004;
      targets = 0x1001c ∷ 0x10024 ∷ [];
    })) }
{}

/// `li x14,1; addi x15,x10,-97; bltu x14,x15,+40`: the index is the sum that x15 has at the branch.
pub fn an_index_may_be_a_sum()
    ensures { flow_at switch_on_sum 0x10000 0x1001c ≡ Some (Switches (record {
      before = 7;
      branch = 0x10008;
      targets = 0x10020 ∷ 0x10028 ∷ [];
    })) }
{}

/// Without the branch nothing bounds x10, and the jump goes to no known address.
pub fn an_index_is_bounded()
    ensures flow { flow_at switch_unbounded 0x10000 0x10018 ≡ Some Stops }
    ensures refused { IsFunctionFault switch_unbounded 0x10000 52 Indirect 0x10018 }
{}

/// A word of the table outside of the function: reported at the jump.
pub fn a_table_stays_in_the_function()
    ensures refused { IsFunctionFault switch_out 0x10000 52 Leaves 0x10018 }
{}

/// `bltu x15,x10,+8` goes into the run-up: the jump can be reached without its first words.
pub fn a_run_up_is_entered_at_its_first_word()
    ensures refused { IsFunctionFault switch_entered 0x10000 52 Indirect 0x10018 }
{}
