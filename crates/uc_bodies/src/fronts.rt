//! The names of signatures and bindings, and where these begin.
ghost use Rattle.std.specs.Prelude.{◌≡◌};
ghost use Rattle.uc_scratch.specs.ExprGrammar as grammar;
ghost use Rattle.uc_scratch.specs.NameFaults as faults;
ghost use Rattle.uc_meaning.specs.ExprMeanings as spec;
ghost use Rattle.uc_bodies.specs.BodyViews as views;

use uc_base::Place;
use uc_scratch::{BindingFront, Head, Param, Written};

/// The name that a head has.
pub fn head_name(head: &Head) -> &Written
    ensures { result.now ≡ grammar.head_name head.now }
{
    match head {
        Head::Path(w) | Head::Bracketed(_, w) | Head::Operator(w) => w,
    }
}

pub fn head_place(head: &Head) -> Place
    ensures { result ≡ faults.head_place head.now }
{
    match head {
        Head::Path(w) | Head::Operator(w) => w.place,
        Head::Bracketed(place, _) => *place,
    }
}

pub fn param_place(param: &Param) -> Place
    ensures { result ≡ spec.param_place param.now }
{
    match param {
        Param::Name(w) => w.place,
        Param::Any(place) => *place,
    }
}

pub fn front_name(front: &BindingFront) -> &Written
    ensures { result.now ≡ views.front_name front.now }
{
    match front {
        BindingFront::Prefix(head, _) => head_name(head),
        BindingFront::Infix(_, name, _) => name,
    }
}

/// Where a binding begins: at its name, or at its first parameter.
pub fn front_place(front: &BindingFront) -> Place
    ensures { result ≡ views.front_place front.now }
{
    match front {
        BindingFront::Prefix(head, _) => head_place(head),
        BindingFront::Infix(left, _, _) => param_place(left),
    }
}
