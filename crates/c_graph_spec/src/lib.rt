//! The graph of a C function, from its typed core.
//!
//! `specs/State.antt` has the variables: locals, whether each is set, the memory, the zone, the
//! result. `specs/Values.antt` has the terms of each form of expression, `specs/Guards.antt` the
//! tests of the guards that it may break, in the order in which they are evaluated.
//! `specs/Layout.antt` puts the nodes of each statement one after the other, and
//! `specs/SourceGraph.antt` is the graph of a function, and the nodes of its loops and calls.
//! `specs/Sizes.antt` states the limits that the terms ask of a core. Nothing of the crate runs.

#![tactic(auto)]
