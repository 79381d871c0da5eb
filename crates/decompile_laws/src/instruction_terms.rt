//! Laws on the terms of instructions: under any values of the variables that are alike a machine,
//! each instruction's term evaluates to what the machine computes, loads, stores or tests.
//!
//! The terms are those of `decompile_spec`, the machine that of `rv_machine_spec`. Nothing of the
//! crate runs: each function's clause is one law, and its body is empty.

ghost use Rattle.decompile_laws.specs.Evaluation.{OperationsCompute, BranchesTest, LoadsGive};
ghost use Rattle.decompile_laws.specs.Evaluation.{StoresLeave};

/// The term of each operation of two words evaluates to what the machine computes of them: signed
/// comparison, shifts by the low five bits, high products, division and remainder by 0 and of the
/// least number among them.
pub fn operations_compute()
    ensures { OperationsCompute }
{}

/// The test of each branch holds exactly where the machine takes the branch.
pub fn branches_test()
    ensures { BranchesTest }
{}

/// A load whose tests hold doesn't trap, and its term evaluates to what it puts into the register.
pub fn loads_give()
    ensures { LoadsGive }
{}

/// A store whose alignment test holds doesn't trap, and its term evaluates to the memory that it
/// leaves.
pub fn stores_leave()
    ensures { StoresLeave }
{}
