//! What is asked of names while a file is resolved.
ghost use Rattle.uc_meaning.specs.Meanings.{Known, name_meaning, reference_meaning};
ghost use Rattle.uc_meaning.specs.Results.{Gives};

use crate::usings::Usings;
use crate::wanted::Wanted;
use std::alloc::Global;
use uc_base::Fault;
use uc_scratch::{Reference, Written};
use uc_tree::Target;

/// What written names, hashes and builtins mean.
pub trait Meanings {
    ghost known: { Self → Known };

    /// Behind the step of local binders.
    fn name(
        &self,
        alloc: Global,
        wanted: Wanted,
        usings: &Usings,
        written: &Written,
    ) -> Result<Target, Fault>
        ensures { Gives (λ t. t) result (name_meaning (known self.now) wanted usings.now written.now) };

    fn reference(&self, wanted: Wanted, written: &Reference) -> Result<Target, Fault>
        ensures { Gives (λ t. t) result (reference_meaning (known self.now) wanted written.now) };
}
