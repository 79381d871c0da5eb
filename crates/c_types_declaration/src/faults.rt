//! The first of several faults of one offset.

ghost use Rattle.c_types_spec.specs.Names as rule;
ghost use Rattle.c_types_scope.specs.States.{nothing};
ghost use Rattle.c_types_operator.specs.Gives.{Gives};

use attempt::Refusal;
use c_types_core::fault::TypeFault;
use c_types_spec::TypeFaultKind;

/// The first of the kinds whose test holds.
pub fn first_fault(tests: &[(bool, TypeFaultKind)], offset: usize) -> Result<(), Refusal<TypeFault>>
    ensures { Gives nothing result (rule.faults_at offset tests.now) }
{
    for test in tests {
        if test.0 {
            return Err(Refusal::Fault(TypeFault::At(test.1, offset)));
        }
    }
    Ok(())
}
