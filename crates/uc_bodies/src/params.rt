//! Parameters of lambdas and bindings.
ghost use Rattle.std.specs.Prelude.{◌≡◌, ◌++◌, map, reverse, length, Ok, OnOk, IfOk};
ghost use Rattle.std.specs.Option.{option_copied};
ghost use Rattle.uc_meaning.specs.ExprMeanings as spec;
ghost use Rattle.uc_meaning.specs.Results.{Gives};
ghost use Rattle.uc_signatures.specs.PlacedViews.{placed_of};
ghost use Rattle.uc_bodies.specs.BodyViews.{params_of, listed};

use crate::fronts::param_place;
use crate::nodes::lambda_at;
use std::alloc::{AllocError, Global};
use uc_base::Fault;
use uc_scratch::{BindingFront, Param};
use uc_signatures::{LocalNames, Placed};
use uc_tree::Term;

/// The parameters of a lambda or behind a name, or those on both sides of an operator.
#[derive(Clone, Copy)]
pub enum Params<'a> {
    Prefix(&'a [Param]),
    Infix(&'a Param, &'a Param),
}

/// The binder of a parameter.
fn binder_of(param: &Param) -> Option<&[u8]>
    ensures { option_copied result ≡ spec.param_binder param.now }
{
    match param {
        Param::Name(w) => Some(w.text.as_slice()),
        Param::Any(_) => None,
    }
}

fn enter_all(params: &[Param], binders: &mut LocalNames) -> Result<(), AllocError>
    ensures { OnOk result (binders.new ≡ reverse (map spec.param_binder params.now) ++ binders.old) }
{
    for param in params {
        binders.push(binder_of(param))?;
    }
    Ok(())
}

impl<'a> Params<'a> {
    /// The parameters of a binding.
    pub fn of(front: &'a BindingFront) -> Params<'a>
        ensures { listed result ≡ params_of front.now }
    {
        match front {
            BindingFront::Prefix(_, params) => Params::Prefix(params),
            BindingFront::Infix(left, _, right) => Params::Infix(left, right),
        }
    }

    pub fn len(self) -> usize
        ensures { result ≡ length (listed self.entry) }
    {
        match self {
            Params::Prefix(params) => params.len(),
            Params::Infix(..) => 2,
        }
    }

    /// Enters the binders, of which the last is the innermost.
    pub fn enter(self, binders: &mut LocalNames) -> Result<(), AllocError>
        ensures { OnOk result (binders.new ≡ reverse (map spec.param_binder (listed self.entry)) ++ binders.old) }
    {
        match self {
            Params::Prefix(params) => enter_all(params, binders),
            Params::Infix(left, right) => {
                binders.push(binder_of(left))?;
                binders.push(binder_of(right))
            }
        }
    }

    /// The lambdas over a body.
    pub fn over(self, alloc: Global, body: Placed<Term>) -> Result<Placed<Term>, Fault>
        ensures { Gives placed_of result (Ok (spec.lambdas_over (listed self.entry) (placed_of body))) }
    {
        match self {
            Params::Prefix(params) => Ok(lambdas_over(alloc, params, body)?),
            Params::Infix(left, right) => {
                let inner = lambda_at(alloc, param_place(right), body)?;
                Ok(lambda_at(alloc, param_place(left), inner)?)
            }
        }
    }
}

/// A lambda for each parameter, the first outermost.
fn lambdas_over(
    alloc: Global,
    params: &[Param],
    body: Placed<Term>,
) -> Result<Placed<Term>, AllocError>
    ensures { IfOk result (λ t. placed_of t ≡ spec.lambdas_over params.now (placed_of body)) }
{
    let mut term = body;
    let mut left = params.len();
    while left > 0 {
        left -= 1;
        term = lambda_at(alloc, param_place(&params[left]), term)?;
    }
    Ok(term)
}
