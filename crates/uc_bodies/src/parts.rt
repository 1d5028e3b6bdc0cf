//! The parts of an expression that is being read.
ghost use Rattle.std.specs.Prelude.{◌≡◌, [], ◌∷◌, Ok, OnOk, IfOk};
ghost use Rattle.uc_meaning.specs.ExprMeanings as spec;
ghost use Rattle.uc_meaning.specs.ExprMeanings.{innermost, others};
ghost use Rattle.uc_meaning.specs.Results.{Gives};
ghost use Rattle.uc_signatures.specs.PlacedViews.{placed_of};
ghost use Rattle.uc_bodies.specs.BodyViews.{operand_of, parts_of, outer_of, with_outer, placed_cases};

use crate::nodes::{cases_at, conditional_at, match_at};
use crate::operands::{FRONT, Operand, and_if, applied_if, or_if, or_nothing};
use std::alloc::{AllocError, Global};
use uc_base::{Fault, Place};
use uc_signatures::Placed;
use uc_tree::{Case, Term};

/// What has been read of an expression: the operands of `||`, those of `&&`, an operator with what stands left of it,
/// and the application behind these.
#[derive(Drop)]
pub struct Parts {
    ors: Option<Operand>,
    ands: Option<Operand>,
    half: Option<Operand>,
    atoms: Option<Operand>,
}

impl Parts {
    pub fn none() -> Parts
        ensures { parts_of result ≡ spec.no_parts }
    {
        Parts {
            ors: None,
            ands: None,
            half: None,
            atoms: None,
        }
    }

    /// An atom or a form behind the atoms before it.
    #[tactic(auto, unfolding(uc_meaning::specs::ExprMeanings::with_atom))]
    pub fn with_atom(mut self, alloc: Global, atom: Operand) -> Result<Parts, Fault>
        ensures { Gives parts_of result (Ok (spec.with_atom (parts_of self) (operand_of atom))) }
    {
        self.atoms = Some(applied_if(alloc, self.atoms.take(), atom)?);
        Ok(self)
    }

    /// The same with a form.
    pub fn with_form(self, alloc: Global, form: Placed<Term>) -> Result<Parts, Fault>
        ensures { Gives parts_of result (Ok (spec.with_atom (parts_of self) (spec.form (placed_of form)))) }
    {
        self.with_atom(alloc, Operand::form(form))
    }

    /// The same with a lambda over a match on its variable.
    pub fn with_cases(
        self,
        alloc: Global,
        place: Place,
        cases: Placed<Vec<Case>>,
    ) -> Result<Parts, Fault>
        ensures { Gives parts_of result
            (Ok (spec.with_atom (parts_of self) (spec.form (spec.cases_at place (placed_cases cases))))) }
    {
        let term = cases_at(alloc, place, cases)?;
        self.with_form(alloc, term)
    }

    /// Takes the operands up to here.
    #[tactic(auto, unfolding(uc_meaning::specs::ExprMeanings::infix_of))]
    fn take_infix(&mut self, alloc: Global) -> Result<Operand, AllocError>
        ensures operand { IfOk result (λ a. operand_of a ≡ spec.infix_of (parts_of self.old)) }
        ensures rest { OnOk result (self.new ≡ record self.old { half = None; atoms = None }) }
    {
        let operand = or_nothing(alloc, self.atoms.take())?;
        applied_if(alloc, self.half.take(), operand)
    }

    /// Takes the operands of `&&` up to here.
    #[tactic(auto, unfolding(uc_meaning::specs::ExprMeanings::and_of))]
    fn take_and(&mut self, alloc: Global) -> Result<Operand, AllocError>
        ensures operand { IfOk result (λ a. operand_of a ≡ spec.and_of (parts_of self.old)) }
        ensures rest { OnOk result (self.new
            ≡ record { ors = self.old.ors; ands = None; half = None; atoms = None }) }
    {
        let operand = self.take_infix(alloc)?;
        and_if(alloc, self.ands.take(), operand)
    }

    /// Takes the whole expression up to here.
    #[tactic(auto, unfolding(uc_meaning::specs::ExprMeanings::whole_of))]
    fn take_whole(mut self, alloc: Global) -> Result<Operand, AllocError>
        ensures { IfOk result (λ a. operand_of a ≡ spec.whole_of (parts_of self)) }
    {
        let operands = self.take_and(alloc)?;
        or_if(alloc, self.ors.take(), operands)
    }

    #[tactic(auto, unfolding(uc_meaning::specs::ExprMeanings::behind_operator))]
    pub fn behind_operator(mut self, alloc: Global, operator: Placed<Term>) -> Result<Parts, Fault>
        ensures { Gives parts_of result (Ok (spec.behind_operator (parts_of self) (placed_of operator))) }
    {
        let left = self.take_infix(alloc)?;
        self.half = Some(left.under_operator(alloc, operator)?);
        Ok(self)
    }

    #[tactic(auto, unfolding(uc_meaning::specs::ExprMeanings::behind_and))]
    pub fn behind_and(mut self, alloc: Global) -> Result<Parts, Fault>
        ensures { Gives parts_of result (Ok (spec.behind_and (parts_of self))) }
    {
        let operands = self.take_and(alloc)?;
        self.ands = Some(operands);
        Ok(self)
    }

    #[tactic(auto, unfolding(uc_meaning::specs::ExprMeanings::behind_or))]
    pub fn behind_or(self, alloc: Global) -> Result<Parts, Fault>
        ensures { Gives parts_of result (Ok (spec.behind_or (parts_of self))) }
    {
        let operands = self.take_whole(alloc)?;
        Ok(Parts {
            ors: Some(operands),
            ands: None,
            half: None,
            atoms: None,
        })
    }

    /// The whole expression.
    pub fn whole(self, alloc: Global) -> Result<Placed<Term>, Fault>
        ensures { Gives placed_of result (Ok (spec.whole_of (parts_of self)).1) }
    {
        Ok(self.take_whole(alloc)?.term)
    }
}

/// An expression in whose condition or subject a step stands, with the place of its `if` or `match`.
#[derive(Drop)]
struct Opened {
    place: Place,
    parts: Parts,
}

/// The expressions in whose condition or subject a step stands, the innermost last.
#[derive(Drop)]
pub struct Outside {
    opened: Vec<Opened>,
}

impl Outside {
    pub fn new(alloc: Global) -> Outside
        ensures { outer_of result ≡ [] }
    {
        Outside {
            opened: Vec::new(alloc),
        }
    }

    /// Goes into the condition or subject of a form behind these parts.
    pub fn begin(&mut self, place: Place, parts: Parts) -> Result<Parts, Fault>
        ensures { Gives (with_outer self.new) result
            (Ok (spec.no_parts, (place, parts_of parts) ∷ outer_of self.old)) }
    {
        self.opened.push(Opened { place, parts })?;
        Ok(Parts::none())
    }

    /// Takes the innermost; none has no parts.
    fn pop(&mut self) -> Opened
        ensures innermost { (result.place, parts_of result.parts) ≡ innermost (outer_of self.old) }
        ensures others { outer_of self.new ≡ others (outer_of self.old) }
    {
        match self.opened.pop() {
            None => Opened {
                place: FRONT,
                parts: Parts::none(),
            },
            Some(opened) => opened,
        }
    }

    /// The parts round a conditional behind both its branches.
    pub fn end_if(
        &mut self,
        alloc: Global,
        condition: Parts,
        consequent: Placed<Term>,
        alternative: Placed<Term>,
    ) -> Result<Parts, Fault>
        ensures { Gives (with_outer self.new) result
            (Ok (
              spec.with_atom (innermost (outer_of self.old)).1 (spec.form (spec.conditional_at (innermost (outer_of self.old)).0
                  (spec.whole_of (parts_of condition)).1 (placed_of consequent) (placed_of alternative))),
              others (outer_of self.old),
            )) }
    {
        let condition = condition.take_whole(alloc)?.term;
        let Opened { place, parts } = self.pop();
        let form = conditional_at(alloc, place, condition, consequent, alternative)?;
        parts.with_form(alloc, form)
    }

    /// The parts round a match behind its cases.
    pub fn end_match(
        &mut self,
        alloc: Global,
        subject: Parts,
        cases: Placed<Vec<Case>>,
    ) -> Result<Parts, Fault>
        ensures { Gives (with_outer self.new) result
            (Ok (
              spec.with_atom (innermost (outer_of self.old)).1 (spec.form (spec.match_at (innermost (outer_of self.old)).0
                  (spec.whole_of (parts_of subject)).1 (placed_cases cases))),
              others (outer_of self.old),
            )) }
    {
        let subject = subject.take_whole(alloc)?.term;
        let Opened { place, parts } = self.pop();
        let form = match_at(alloc, place, subject, cases)?;
        parts.with_form(alloc, form)
    }
}
