//! A walk that has nothing of graphs: its states are numbers.

ghost use Rattle.std.specs.Prelude.{⊤, ℕ};
ghost use Rattle.example_laws.specs.Countdown.{countdown, leads_back, no_call};
ghost use Rattle.example_laws.proofs.GraphCountdown.{countdown_is_system};

use graph_core::{
    Walks, arrivals_add_up, ended_run_stays, run_goes_on, run_stops_as_its_rest, run_stops_once,
};
use row_io::Out;

#[derive(Drop)]
struct Countdown;

impl Walks for Countdown {
    ghost State = { ℕ };

    ghost system = { λ _. countdown };

    ghost leads = { λ _. leads_back };

    ghost lands = { λ _. no_call };

    ghost fine = { λ _ n. ⊤ };

    ghost count = { λ _. 1 };

    ghost is_system = { λ _. countdown_is_system };

    fn nodes(&self) -> usize {
        1
    }
}

/// The outcome of a row: the laws of walks are laws of this one too.
pub(crate) fn put_countdown(out: &mut Out) {
    let countdown = Countdown;
    ended_run_stays(&countdown);
    run_goes_on(&countdown);
    arrivals_add_up(&countdown);
    run_stops_once(&countdown);
    run_stops_as_its_rest(&countdown);
    out.put("nodes ");
    out.show(&countdown.nodes());
}
