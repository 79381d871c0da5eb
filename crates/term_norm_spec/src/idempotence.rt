// The normal form of a normal form: the function's clause is the law, and its body is empty. It
// holds of every term, well sorted or not, whatever the fixed bytes are. Terms of one value need
// not have one normal form.

ghost use Rattle.std.specs.Prelude.{◌≡◌, List};
ghost use Rattle.term_core_spec.specs.Term.{Term};
ghost use Rattle.memory_spec.specs.Runs.{Run};
ghost use Rattle.term_norm_spec.specs.Normal.{normal};

/// The normal form of a normal form is itself.
pub fn normal_form_is_its_own()
    ensures { (runs : List Run) (t : Term) → normal runs (normal runs t) ≡ normal runs t }
{}
