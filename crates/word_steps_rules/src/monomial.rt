// Lists of terms, in any order.

ghost use Rattle.std.specs.Prelude.{◌≡◌, ◌≤◌, length};
ghost use Rattle.word_steps_rules.specs.Monomials as spec;

use term_bank::TermId;

/// How often an id is among some.
#[tactic(auto, unfolding(crate::specs::Monomials::times_among))]
pub(crate) fn times_among(ids: &[TermId], id: TermId) -> usize
    ensures value { result ≡ spec.times_among id ids.now }
    ensures most { result ≤ length ids.now }
{
    match ids.split_first() {
        None => 0,
        Some((first, rest)) => {
            let times = times_among(rest, id);
            if id == *first { times + 1 } else { times }
        }
    }
}

// Whether each of some ids is among two lists equally often.
#[tactic(auto, unfolding(crate::specs::Monomials::are_equally_often))]
fn are_equally_often(ids: &[TermId], first: &[TermId], second: &[TermId]) -> bool
    ensures { result ≡ spec.are_equally_often ids.now first.now second.now }
{
    match ids.split_first() {
        None => true,
        Some((id, rest)) => {
            times_among(first, *id) == times_among(second, *id)
                && are_equally_often(rest, first, second)
        }
    }
}

/// Whether two lists have the same ids, each as often.
pub(crate) fn same_ids(first: &[TermId], second: &[TermId]) -> bool
    ensures { result ≡ spec.same_ids first.now second.now }
{
    first.len() == second.len() && are_equally_often(first, first, second)
}
