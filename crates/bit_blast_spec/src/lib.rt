//! The clauses of a goal, a truth value without stores, by Tseitin's transformation: gates and
//! their clauses (`specs/Gates.antt`), circuits for words (`specs/Circuits.antt`), and the clauses
//! of a whole goal (`specs/Goal.antt`). `specs/Folding.antt` and `specs/FoldedGoal.antt` have folded
//! gates, what a gate of constants, of equal or of opposite inputs is, each gate once; no clauses
//! are made of them yet. Nothing of the crate runs.
#![tactic(auto)]
