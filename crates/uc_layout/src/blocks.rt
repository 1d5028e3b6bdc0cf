//! The tokens of a text with the marks of its blocks and items.
ghost use Rattle.std.specs.Prelude.{◌≡◌, [], ◌∷◌, ◌++◌, OnOk, OnErr};
ghost use Rattle.uc_layout.specs.Tokens.{seen};

use crate::token::{Kind, Token};
use std::alloc::{AllocError, Global};
use std::marker::Model;
use uc_base::Place;

/// The tokens of a text with the marks of its blocks and items. Contracts see their kinds, texts and places.
#[derive(Debug, Drop)]
pub struct Blocks<'a> {
    tokens: Vec<Token<'a>>,
}

impl<'a> Model for Blocks<'a> {
    ghost use Rattle.std.specs.Prelude.{List};
    ghost use Rattle.uc_layout.specs.Tokens.{Seen, seen};

    ghost Value = { List Seen };

    ghost view = { λ b. seen b.tokens.items };
}

impl<'a> Blocks<'a> {
    pub(crate) fn new(alloc: Global) -> Blocks<'a>
        ensures { result ≡ [] }
    {
        Blocks {
            tokens: Vec::new(alloc),
        }
    }

    pub(crate) fn push(
        &mut self,
        kind: Kind,
        text: &'a [u8],
        place: Place,
    ) -> Result<(), AllocError>
        ensures { OnOk result (self.new ≡ self.old ++ (record { kind = kind; text = text.now; place = place }) ∷ []) }
    {
        self.tokens.push(Token { kind, text, place })?;
        Ok(())
    }

    /// The tokens and marks, in the order of the text.
    pub fn tokens(&self) -> &[Token<'a>]
        ensures { seen result.now ≡ self.now }
    {
        self.tokens.as_slice()
    }
}
