//! Worked facts of the definition of code graphs: the nodes of eight small functions, written out
//! by hand.
//!
//! Each function's clauses are facts about the definitions of `decompile_spec`, and its body is
//! empty. The nodes have the numbers of `specs/Numbered.antt`. Each word is from the RISC-V
//! unprivileged specification.

ghost use Rattle.std.specs.Prelude.{◌≡◌, Some, None, [], ◌∷◌};
ghost use Rattle.term_core_spec.specs.Term.{add, bit_and, equal, less, not_term, load};
ghost use Rattle.term_core_spec.specs.Term.{join_four, store, byte};
ghost use Rattle.graph_core_spec.specs.declared.Next.TheVariants.{At, Ret, Err};
ghost use Rattle.graph_core_spec.specs.Graph.{Basic, Cond, Call};
ghost use Rattle.decompile_spec.specs.InstructionTerms.{number};
ghost use Rattle.decompile_spec.specs.Blocks.{call_inputs, tail_inputs};
ghost use Rattle.example_laws.specs.Numbered.{nodes_of, nodes_after, landing_after, x, e, m, sets};
ghost use Rattle.example_laws.specs.Numbered.{bounding, jumping};
ghost use Rattle.example_laws.specs.Numbered.{writes, asks};
ghost use Rattle.example_laws.specs.Numbered.{avoiding, comes_home, x10_plus};

/// Straight code: `add a0,a0,a1` and a return. One node sets x10, and the return is one test.
pub fn straight_code()
    ensures adds { nodes_of 8 0x10000 0x00b50533 ≡ Some (sets 10 (add (x 10) (x 11)) (At 11) ∷ []) }
    ensures returns { nodes_of 8 0x10004 0x00008067 ≡ Some (comes_home ∷ []) }
{}

/// A loop: `addi a5,x0,0; beq a0,x0,+16; add a5,a5,a0; addi a0,a0,-1; bne a0,x0,-8; addi a0,a5,0;
/// ret`. x0 is the number 0, an immediate is a word, and a branch continues at its target or at the
/// next instruction.
pub fn a_loop()
    ensures begins { nodes_of 28 0x10000 0x00000793
        ≡ Some (sets 15 (add (number 0) (number 0)) (At 11) ∷ []) }
    ensures leaves { nodes_of 28 0x10004 0x00050863
        ≡ Some (Cond (equal (x 10) (number 0)) (At 51) (At 21) ∷ []) }
    ensures adds { nodes_of 28 0x10008 0x00a787b3
        ≡ Some (sets 15 (add (x 15) (x 10)) (At 31) ∷ []) }
    ensures counts { nodes_of 28 0x1000c 0xfff50513
        ≡ Some (sets 10 (add (x 10) (number 0xffffffff)) (At 41) ∷ []) }
    ensures repeats { nodes_of 28 0x10010 0xfe051ce3
        ≡ Some (Cond (not_term (equal (x 10) (number 0))) (At 21) (At 51) ∷ []) }
    ensures moves { nodes_of 28 0x10014 0x00078513
        ≡ Some (sets 10 (add (x 15) (number 0)) (At 61) ∷ []) }
    ensures returns { nodes_of 28 0x10018 0x00008067 ≡ Some (comes_home ∷ []) }
{}

/// A store, `sw a1,0(a0)`, where the file fixes the bytes 10000 to 100ff and 20000 to 20003: the
/// alignment, then each run by address, then the memory with four bytes changed, the lowest first.
/// A store of one byte asks no alignment.
pub fn a_store_with_two_runs()
    ensures stores { nodes_of 8 0x10000 0x00b52023 ≡ Some (
        asks (equal (bit_and (x10_plus 0) (number 3)) (number 0)) (At 2)
        ∷ asks (avoiding 0x10000 0x100ff (x10_plus 0) (add (x10_plus 0) (number 3))) (At 3)
        ∷ asks (avoiding 0x20000 0x20003 (x10_plus 0) (add (x10_plus 0) (number 3))) (At 4)
        ∷ writes (store (store (store (store m (x10_plus 0) (byte 0 (x 11)))
        (add (x10_plus 0) (number 1)) (byte 1 (x 11)))
        (add (x10_plus 0) (number 2)) (byte 2 (x 11)))
        (add (x10_plus 0) (number 3)) (byte 3 (x 11))) (At 11) ∷ []) }
    ensures one_byte { nodes_of 8 0x10000 0x00b50023 ≡ Some (
        asks (avoiding 0x10000 0x100ff (x10_plus 0) (x10_plus 0)) (At 2)
        ∷ asks (avoiding 0x20000 0x20003 (x10_plus 0) (x10_plus 0)) (At 3)
        ∷ writes (store m (x10_plus 0) (byte 0 (x 11))) (At 11) ∷ []) }
    ensures returns { nodes_of 8 0x10004 0x00008067 ≡ Some (comes_home ∷ []) }
{}

/// A call with a frame: `addi sp,sp,-16; sw ra,12(sp); jal ra,+20; lw ra,12(sp); addi a0,a0,2; addi
/// sp,sp,16; ret`. The call is one node, with the address after it in x1; its landing node
/// continues at the instruction there.
pub fn a_call_with_a_frame()
    ensures opens { nodes_of 28 0x10000 0xff010113
        ≡ Some (sets 2 (add (x 2) (number 0xfffffff0)) (At 11) ∷ []) }
    ensures calls { nodes_of 28 0x10008 0x014000ef
        ≡ Some (Call 0x10 (call_inputs 0x1000c) [] 30 ∷ []) }
    ensures lands { landing_after 28 0x10008 0x014000ef ≡ Some (At 31) }
    ensures loads { nodes_of 28 0x1000c 0x00c12083 ≡ Some (
        asks (equal (bit_and (add (x 2) (number 12)) (number 3)) (number 0)) (At 32)
        ∷ sets 1 (join_four (load m (add (x 2) (number 12)))
        (load m (add (add (x 2) (number 12)) (number 1)))
        (load m (add (add (x 2) (number 12)) (number 2)))
        (load m (add (add (x 2) (number 12)) (number 3)))) (At 41) ∷ []) }
    ensures adds { nodes_of 28 0x10010 0x00250513
        ≡ Some (sets 10 (add (x 10) (number 2)) (At 51) ∷ []) }
    ensures closes { nodes_of 28 0x10014 0x01010113
        ≡ Some (sets 2 (add (x 2) (number 16)) (At 61) ∷ []) }
    ensures returns { nodes_of 28 0x10018 0x00008067 ≡ Some (comes_home ∷ []) }
{}

/// A tail call: `jal x0, +0x1000`, out of the function. It is a test that x1 is the return address,
/// and a call node; its landing node comes after these two, and returns.
pub fn a_tail_call()
    ensures calls { nodes_of 8 0x10000 0x0000106f
        ≡ Some (asks (equal (x 1) (e 1)) (At 2) ∷ Call 0x11 tail_inputs [] 10 ∷ []) }
    ensures lands { landing_after 8 0x10000 0x0000106f ≡ Some Ret }
{}

/// A pair, `auipc x5,1; jalr x1,0(x5)`, and one whose second word is `jalr x0,4(x5)`: the AUIPC
/// sets its register, and the JALR is the call or the tail call of a known address. Without the
/// AUIPC the JALR is an error.
pub fn a_pair()
    ensures adds { nodes_of 8 0x10000 0x00001297
        ≡ Some (sets 5 (number 0x11000) (At 11) ∷ []) }
    ensures calls { nodes_after 8 0x10004 0x00001297 0x000280e7
        ≡ Some (Call 0x11 (call_inputs 0x10008) [] 20 ∷ []) }
    ensures ends { nodes_after 8 0x10004 0x00001297 0x00428067
        ≡ Some (asks (equal (x 1) (e 1)) (At 12) ∷ Call 0x11 tail_inputs [] 20 ∷ []) }
    ensures alone { nodes_of 8 0x10004 0x00428067 ≡ Some (Basic [] Err ∷ []) }
{}

/// What ends in an error: ECALL and EBREAK; a jump or a call to no multiple of 4; and a landing
/// node after a call at the end of the function.
pub fn an_ecall_at_the_end()
    ensures sets { nodes_of 8 0x10000 0x00100513
        ≡ Some (sets 10 (add (number 0) (number 1)) (At 11) ∷ []) }
    ensures ecall { nodes_of 8 0x10004 0x00000073 ≡ Some (Basic [] Err ∷ []) }
    ensures ebreak { nodes_of 8 0x10004 0x00100073 ≡ Some (Basic [] Err ∷ []) }
    ensures misaligned_jump { nodes_of 8 0x10000 0x0020006f ≡ Some (Basic [] Err ∷ []) }
    ensures misaligned_call { nodes_of 8 0x10000 0x002000ef ≡ Some (Basic [] Err ∷ []) }
    ensures call_at_the_end { landing_after 8 0x10004 0x014000ef ≡ Some Err }
{}

/// A jump by a table: `bltu x15,x10,+40` keeps x10 in register 32 of the state where it falls
/// through, and `jr x15`, whose table has the words 1001c and 10024, goes by it. After the last
/// test is an error.
pub fn a_table()
    ensures bounds { bounding 52 0x10004 0x02a7e463 ≡ Some (
        Cond (less (x 15) (x 10)) (At 111) (At 12) ∷ sets 32 (x 10) (At 21) ∷ []) }
    ensures jumps { jumping 52 0x10018 (0x1001c ∷ 0x10024 ∷ []) ≡
        Cond (equal (x 32) (number 0)) (At 71) (At 62)
        ∷ Cond (equal (x 32) (number 1)) (At 91) Err ∷ [] }
{}
