//! Which of some terms are lines of a relation.

ghost use Rattle.proof_tree.specs.Frames.{terms_of};
ghost use Rattle.proof_tree.specs.Scope.{setting_of};
ghost use Rattle.sim_rules_terms.specs.Lines.{IsFirstBad};

use proof_tree::{Setting, is_line};
use term_core::Term;

/// The index of the first term that is no line in the body of the path, if there is one.
pub fn first_bad(setting: &Setting, path: &[u32], lines: &[Box<Term>]) -> Option<usize>
    ensures { IsFirstBad (setting_of setting.now) path.now (terms_of lines.now) result }
{
    for index in 0..lines.len() {
        if !is_line(setting, path, &lines[index]) {
            return Some(index);
        }
    }
    None
}
