//! Definitions of terms.
ghost use Rattle.std.specs.Prelude.{◌≡◌, IfOk};

use crate::copying::copy_signature;
use crate::term::Term;
use crate::ty::Ty;
use std::alloc::{AllocError, Global};

/// A definition: its signature, where one is written, and its body.
#[derive(Debug, Drop)]
pub struct Definition {
    pub signature: Option<Ty>,
    pub body: Term,
}

impl Definition {
    pub fn copy(&self, alloc: Global) -> Result<Definition, AllocError>
        ensures { IfOk result (λ d. d ≡ self.now) }
    {
        let signature = copy_signature(alloc, &self.signature)?;
        let body = self.body.copy(alloc)?;
        Ok(Definition { signature, body })
    }
}
