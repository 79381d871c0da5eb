//! Transition systems as a trait, and the laws of their runs.

ghost use Rattle.std.specs.Prelude.{◌≡◌, ◌⊎◌, ℕ, ◌+◌, Bool, true, false, List};
ghost use Rattle.graph_core_spec.specs.TransitionSystem.{TransitionSystem, IsTransitionSystem};
ghost use Rattle.graph_core_spec.specs.declared.Mark.{Mark};
ghost use Rattle.graph_core_spec.specs.TransitionSystem.{AreCounted, Always, StopsAt, after};
ghost use Rattle.graph_core_spec.specs.TransitionSystem.{arrivals};
ghost use Rattle.graph_core_spec.specs.TransitionSystem.{marks_left, stopped};

/// A deterministic transition system whose states may be at numbered nodes (`graph_core_spec`,
/// `specs/TransitionSystem.antt`). Nothing of it runs but [`Walks::nodes`].
pub trait Walks {
    // What its states are.
    ghost State: { Type 0 };

    // Its steps, its ends and its nodes.
    ghost system: { Self → TransitionSystem State };

    // A run may come from the first node to the second, in one step or more.
    ghost leads: { Self → ℕ → ℕ → Type 0 };

    // The first node is one of a call, and the second its landing node.
    ghost lands: { Self → ℕ → ℕ → Type 0 };

    // A property of states that steps keep.
    ghost fine: { Self → State → Type 0 };

    // How many nodes it has.
    ghost count: { Self → ℕ };

    /// How many nodes it has.
    fn nodes(&self) -> usize
        ensures { result ≡ count self.now };

    ghost is_system: { (w : Self)
        → IsTransitionSystem (system w) (leads w) (lands w) (fine w) (count w) };
}

/// A run that has returned or failed stays as it is, and arrives nowhere.
pub fn ended_run_stays<W: Walks>(walks: &W)
    ensures stays { (s : W.State) (k : ℕ) → ((W.system walks.now).returned s ≡ true)
        ⊎ ((W.system walks.now).failed s ≡ true) → after (W.system walks.now) k s ≡ s }
    ensures nowhere { (s : W.State) (n k : ℕ) → ((W.system walks.now).returned s ≡ true)
        ⊎ ((W.system walks.now).failed s ≡ true) → arrivals (W.system walks.now) n k s ≡ 0 }
{}

/// A run is a function of its start: from its state it continues as any run from there.
pub fn run_goes_on<W: Walks>(walks: &W)
    ensures same { (s t : W.State) (k : ℕ) → s ≡ t
        → after (W.system walks.now) k s ≡ after (W.system walks.now) k t }
    ensures parts { (s : W.State) (j k : ℕ)
        → after (W.system walks.now) (j + k) s
        ≡ after (W.system walks.now) k (after (W.system walks.now) j s) }
{}

/// The arrivals of two parts of a run add up.
pub fn arrivals_add_up<W: Walks>(walks: &W)
    ensures { (s : W.State) (n j k : ℕ)
        → arrivals (W.system walks.now) n (j + k) s
        ≡ arrivals (W.system walks.now) n j s + arrivals (W.system walks.now) n k
        (after (W.system walks.now) j s) }
{}

/// A run stops at one moment, whatever marks stop it.
pub fn run_stops_once<W: Walks>(walks: &W)
    ensures { (s : W.State) (marks : List Mark) (t u : ℕ) → StopsAt (W.system walks.now) marks t s
        → StopsAt (W.system walks.now) marks u s → t ≡ u }
{}

/// A run stops as its rest does, at what is left of the marks.
pub fn run_stops_as_its_rest<W: Walks>(walks: &W)
    ensures { (s : W.State) (marks : List Mark) (t j : ℕ)
        → stopped (W.system walks.now) marks (t + j) s
        ≡ stopped (W.system walks.now) (marks_left (W.system walks.now) marks t s) j
        (after (W.system walks.now) t s) }
{}

/// Where each mark counts at least one arrival, a run that has not returned does not stop at its
/// start.
pub fn start_is_no_stop<W: Walks>(walks: &W)
    ensures { (s : W.State) (marks : List Mark) → AreCounted marks
        → (W.system walks.now).returned s ≡ false → stopped (W.system walks.now) marks 0 s ≡ false }
{}

/// What holds of a state and of its run after every number of steps is a property that steps keep.
pub fn steps_keep_what_always_holds<W: Walks>(walks: &W)
    ensures { (test : ℕ → W.State → Bool) (s : W.State) → Always (W.system walks.now) test s
        → Always (W.system walks.now) test ((W.system walks.now).step s) }
{}

/// Where one node leads to a second and that one to a third, the first leads to the third.
pub fn leading_is_transitive<W: Walks>(walks: &W)
    ensures { (m n o : ℕ) → W.leads walks.now m n → W.leads walks.now n o → W.leads walks.now m o }
{}
