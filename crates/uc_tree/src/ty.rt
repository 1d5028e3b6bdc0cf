//! Types as trees.
ghost use Rattle.std.specs.Prelude.{◌≡◌, IfOk};
ghost use Rattle.uc_tree.specs.Types as types;
ghost use Rattle.uc_tree.specs.Types.{tys_of};

use crate::target::Target;
use std::alloc::{AllocError, Global};
use std::marker::Model;

/// A type. Contracts see the `Ty` of `specs/Types.antt`.
#[cycle(ty)]
#[derive(Debug, Drop)]
pub struct Ty {
    pub node: TyNode,
}

/// The front of a type. A variable counts quantifiers outwards from 0.
#[cycle(ty)]
#[derive(Debug, Drop)]
pub enum TyNode {
    Var(u32),
    Forall(Box<Ty>),
    Arrow(Box<Ty>, Box<Ty>),
    Unit,
    Tuple(Vec<Ty>),
    Data(Target, Vec<Ty>),
}

impl Model for Ty {
    ghost use Rattle.uc_tree.specs.Types.{Ty as Plain, ty_size};
    ghost use Rattle.uc_tree.specs.TypeCodes.{coded_ty};

    ghost Value = { Plain };

    ghost coded = { coded_ty };

    ghost use Rattle.uc_tree.specs.TypeViews.{ty_of};

    ghost view = { λ t. ty_of t.node };

    ghost size = { ty_size };

    ghost use Rattle.uc_tree.specs.TypeFalls.{falls};

    ghost size_decreases = { λ t h. falls t.node };
}

impl Ty {
    pub fn variable(index: u32) -> Ty
        ensures { result ≡ types.variable index }
    {
        Ty {
            node: TyNode::Var(index),
        }
    }

    pub fn forall(alloc: Global, body: Ty) -> Result<Ty, AllocError>
        ensures { IfOk result (λ t. t ≡ types.quantified body) }
    {
        Ok(Ty {
            node: TyNode::Forall(Box::new(alloc, body)?),
        })
    }

    pub fn arrow(alloc: Global, from: Ty, to: Ty) -> Result<Ty, AllocError>
        ensures { IfOk result (λ t. t ≡ types.arrow from to) }
    {
        Ok(Ty {
            node: TyNode::Arrow(Box::new(alloc, from)?, Box::new(alloc, to)?),
        })
    }

    pub fn unit() -> Ty
        ensures { result ≡ types.unit }
    {
        Ty { node: TyNode::Unit }
    }

    pub fn tuple(parts: Vec<Ty>) -> Ty
        ensures { result ≡ types.tuple (tys_of parts.items) }
    {
        Ty {
            node: TyNode::Tuple(parts),
        }
    }

    pub fn data(head: Target, arguments: Vec<Ty>) -> Ty
        ensures { result ≡ types.applied head (tys_of arguments.items) }
    {
        Ty {
            node: TyNode::Data(head, arguments),
        }
    }
}
