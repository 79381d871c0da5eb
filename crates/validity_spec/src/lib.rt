//! What the program claims of a function that it calls valid (`specs/Claim.antt`): its code agrees
//! with its C source (`specs/Source.antt`) whenever it is called by the convention
//! (`specs/Convention.antt`) and the C run breaks no guard. Definitions alone; nothing of it runs.
#![tactic(auto)]
