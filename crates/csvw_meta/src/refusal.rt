//! What a condition on metadata fails with. No memory is taken for it.
ghost use Rattle.std.specs.Prelude.{◌≡◌};
ghost use Rattle.csvw_meta.specs.Fault.{fault_cause, unsupported};
ghost use Rattle.csvw_meta.specs.Refusal.{IsFaultOf, condition_of, ensure as ensure_of};

use crate::fault::MetaFault;
use std::alloc::Global;

/// The fault of a condition that is not met; the name of what is not served is borrowed.
#[derive(Drop)]
pub(crate) enum Refusal<'a> {
    Unsupported(&'a str),
    Fault(MetaFault),
}

impl<'a> Refusal<'a> {
    /// Returns the fault, with a name of its own. Memory is taken for the name alone.
    pub(crate) fn fault(self, alloc: Global) -> MetaFault
        ensures { IsFaultOf self.entry result }
    {
        match self {
            Refusal::Unsupported(key) => match String::from_str(alloc, key) {
                Ok(key) => MetaFault::Unsupported { key },
                Err(_) => MetaFault::NoMemory,
            },
            Refusal::Fault(fault) => fault,
        }
    }
}

/// Checks that the test is true.
pub(crate) fn ensure<'a>(test: bool, fault: MetaFault) -> Result<(), Refusal<'a>>
    ensures { condition_of result ≡ ensure_of test (fault_cause fault) }
{
    if test {
        Ok(())
    } else {
        Err(Refusal::Fault(fault))
    }
}

/// Checks that the test is true; if not, the member or the datatype of that name is not served.
pub(crate) fn ensure_served<'a>(test: bool, key: &'a str) -> Result<(), Refusal<'a>>
    ensures { condition_of result ≡ ensure_of test (unsupported key.now) }
{
    if test {
        Ok(())
    } else {
        Err(Refusal::Unsupported(key))
    }
}
