//! The forms whose conditions and subjects are open.
ghost use Rattle.std.specs.Prelude.{◌≡◌, List, [], ◌∷◌, OnOk, MatchOption};

use crate::walk::Form;
use std::alloc::{AllocError, Global};
use std::marker::Model;

/// The open forms. Contracts see them as a list, the innermost first.
#[derive(Debug, Drop)]
pub struct Forms {
    forms: Vec<Form>,
}

impl Model for Forms {
    ghost use Rattle.std.specs.Prelude.{List, reverse};
    ghost use Rattle.uc_scratch.specs.declared.walk.Form.{Form};

    ghost Value = { List Form };

    ghost view = { λ s. reverse s.forms.items };
}

impl Forms {
    pub fn new(alloc: Global) -> Forms
        ensures { result ≡ [] }
    {
        Forms {
            forms: Vec::new(alloc),
        }
    }

    pub fn push(&mut self, form: Form) -> Result<(), AllocError>
        ensures { OnOk result (self.new ≡ form ∷ self.old) }
    {
        self.forms.push(form)?;
        Ok(())
    }

    pub fn pop(&mut self) -> Option<Form>
        ensures { MatchOption result (self.old ≡ []) (λ f. self.old ≡ f ∷ self.new) }
    {
        self.forms.pop()
    }
}
