//! How brackets and blocks nest.
ghost use Rattle.std.specs.Prelude.{◌≡◌, [], ◌∷◌, length, OnOk, IfOk, MatchOption};
ghost use Rattle.uc_layout.specs.Tokens.{seen, seen_one};
ghost use Rattle.uc_scratch.specs.Terminals.{symbol_terminal, terminal_of};
ghost use Rattle.uc_scratch.specs.Nesting as spec;
ghost use Rattle.uc_scratch.specs.Nesting.{behind_block, behind_bracket, open_behind};

#[cfg(test)]
mod tests;

use std::alloc::{AllocError, Global};
use std::marker::Model;
use uc_base::Place;
use uc_layout::{Kind, Token};

/// How many levels of brackets and blocks may be open at once.
pub const LEVEL_LIMIT: usize = 128;

/// What is open at a token.
#[derive(Clone, Copy, Debug, PartialEq, Eq)]
pub enum Open {
    Bracket,
    Block,
}

/// What a token does to what is open.
#[derive(Clone, Copy, Debug, PartialEq, Eq)]
pub enum Nests {
    OpensBracket,
    ClosesBracket,
    OpensBlock,
    ClosesBlock,
    Neither,
}

/// What is open. Contracts see it as a list, the innermost first.
#[derive(Drop)]
struct OpenStack {
    levels: Vec<Open>,
}

impl Model for OpenStack {
    ghost use Rattle.std.specs.Prelude.{List, reverse};
    ghost use Rattle.uc_scratch.specs.declared.nesting.Open.{Open};

    ghost Value = { List Open };

    ghost view = { λ s. reverse s.levels.items };
}

impl OpenStack {
    fn new(alloc: Global) -> OpenStack
        ensures { result ≡ [] }
    {
        OpenStack {
            levels: Vec::new(alloc),
        }
    }

    fn depth(&self) -> usize
        ensures { result ≡ length self.now }
    {
        self.levels.len()
    }

    fn push(&mut self, level: Open) -> Result<(), AllocError>
        ensures { OnOk result (self.new ≡ level ∷ self.old) }
    {
        self.levels.push(level)?;
        Ok(())
    }

    fn pop(&mut self) -> Option<Open>
        ensures { MatchOption result ((self.old ≡ []) × (self.new ≡ [])) (λ o. self.old ≡ o ∷ self.new) }
    {
        self.levels.pop()
    }

    /// Ends the innermost block, with all that is open inside.
    fn end_block(&mut self)
        ensures { self.new ≡ behind_block self.old }
    {
        'brackets: while let Some(Open::Bracket) = self.pop() {}
    }

    /// Closes what is innermost if it is a bracket.
    fn close_bracket(&mut self) -> Result<(), AllocError>
        ensures { OnOk result (self.new ≡ behind_bracket self.old) }
    {
        match self.pop() {
            Some(Open::Block) => self.push(Open::Block),
            Some(Open::Bracket) | None => Ok(()),
        }
    }

    /// Goes on behind a token that nests so.
    fn pass(&mut self, nests: Nests) -> Result<(), AllocError>
        ensures { OnOk result (self.new ≡ open_behind nests self.old) }
    {
        match nests {
            Nests::OpensBracket => self.push(Open::Bracket),
            Nests::ClosesBracket => self.close_bracket(),
            Nests::OpensBlock => self.push(Open::Block),
            Nests::ClosesBlock => {
                self.end_block();
                Ok(())
            }
            Nests::Neither => Ok(()),
        }
    }
}

fn nests_of_symbol(token: &Token) -> Nests
    ensures { result
        ≡ spec.nests_of (symbol_terminal (record { text = token.now.text.now; place = token.now.place })) }
{
    let text = token.text;
    if text == b"(".as_slice() || text == b"[".as_slice() {
        Nests::OpensBracket
    } else if text == b")".as_slice() || text == b"]".as_slice() {
        Nests::ClosesBracket
    } else {
        Nests::Neither
    }
}

fn nests_of(token: &Token) -> Nests
    ensures { result ≡ spec.nests_of (terminal_of (seen_one token.now)) }
{
    match token.kind {
        Kind::Symbol => nests_of_symbol(token),
        Kind::Opens => Nests::OpensBlock,
        Kind::Closes => Nests::ClosesBlock,
        _ => Nests::Neither,
    }
}

fn opened_place(before: Place, here: Place, nests: Nests) -> Option<Place>
    ensures { result ≡ spec.opened_place before here nests }
{
    match nests {
        Nests::OpensBracket => Some(here),
        Nests::OpensBlock => Some(before),
        Nests::ClosesBracket | Nests::ClosesBlock | Nests::Neither => None,
    }
}

/// The first place of a text that opens level 129 of brackets and blocks.
pub fn too_deep_place(alloc: Global, tokens: &[Token]) -> Result<Option<Place>, AllocError>
    ensures { IfOk result (λ place. place ≡ spec.too_deep_place (seen tokens.now)) }
{
    let mut stack = OpenStack::new(alloc);
    let mut before = Place { line: 1, column: 1 };
    let mut rest = tokens;
    'tokens: while let [token, after @ ..] = rest {
        let nests = nests_of(token);
        if stack.depth() == LEVEL_LIMIT {
            let place = opened_place(before, token.place, nests);
            if place.is_some() {
                return Ok(place);
            }
        }
        stack.pass(nests)?;
        before = token.place;
        rest = after;
    }
    Ok(None)
}
