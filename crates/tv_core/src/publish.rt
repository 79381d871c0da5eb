ghost use Rattle.std.specs.Prelude.{◌≡◌, OnOk, IsErrOf};
ghost use Rattle.attempt.specs.declared.refusal.Refusal.TheVariants.{NoMemory};
ghost use Rattle.tv_base.specs.Faults.{HasCause};
ghost use Rattle.tv_core.specs.Decisions.{decision_of, text_in};
ghost use Rattle.tv_core.specs.Objects.{outputs_of};
ghost use Rattle.tv_core.specs.Ends.{LeavesText, LeavesTextPartly, Stores, Publishes};

use crate::decision::Decision;
use attempt::{Refusal, attempt};
use report_text::report;
use std::alloc::Global;
use tv_base::{OutsideFault, Sink, Store, write_all};

/// Writes a text under a name.
fn store_text<K: Store>(name: &str, text: &[u8], store: &mut K) -> Result<(), Refusal<OutsideFault>>
    ensures { Stores name.now text.now (K.state store.old) (K.state store.new) result }
{
    match store.begin(name) {
        Ok(()) => write_all(store, text),
        Err(fault) => Err(fault),
    }
}

/// Writes the certificate of a decision under its name, if there is one.
fn store_certificate<K: Store>(
    name: &str,
    certificate: &Option<Vec<u8>>,
    store: &mut K,
) -> Result<(), Refusal<OutsideFault>>
    ensures ok { OnOk result (LeavesText name.now (text_in certificate.now) (K.state store.old).held
        (K.state store.new).held) }
    ensures part { LeavesTextPartly name.now (text_in certificate.now) (K.state store.old).held
        (K.state store.new).held }
    ensures cause { HasCause (K.state store.old).faults (K.state store.new).faults result }
    ensures unfailing { OnOk result ((K.state store.new).faults ≡ (K.state store.old).faults) }
    ensures no_memory { IsErrOf result NoMemory → (K.state store.new).faults
        ≡ (K.state store.old).faults }
{
    match certificate {
        Some(text) => store_text(name, text.as_slice(), store),
        None => Ok(()),
    }
}

/// Writes the certificate, and then the report.
pub(crate) fn publish<R: Sink, K: Store>(
    alloc: Global,
    name: &str,
    decision: &Decision,
    out: &mut R,
    store: &mut K,
) -> Result<(), Refusal<OutsideFault>>
    ensures { Publishes name.now (decision_of decision.now) (outputs_of (R.state out.old)
        (K.state store.old)) (outputs_of (R.state out.new) (K.state store.new)) result }
{
    let text = report(alloc, &decision.verdict)?;
    attempt!(store_certificate(name, &decision.certificate, store));
    attempt!(write_all(out, text.as_slice()));
    Ok(())
}
