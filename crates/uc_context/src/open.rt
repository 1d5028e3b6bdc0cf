//! Types with free variables.
ghost use Rattle.std.specs.Prelude.{◌≡◌, IfOk};
ghost use Rattle.uc_context.specs.Opens as opens;
ghost use Rattle.uc_context.specs.Opens.{opens_of};

use std::alloc::{AllocError, Global};
use std::marker::Model;
use uc_tree::Target;

/// A type with free variables. Contracts see the `Open` of `specs/Opens.antt`.
#[cycle(open)]
#[derive(Debug, Drop)]
pub struct Open {
    pub node: OpenNode,
}

/// The front of a type. A bound variable counts quantifiers outwards from 0; rigid variables and
/// existentials are numbered.
#[cycle(open)]
#[derive(Debug, Drop)]
pub enum OpenNode {
    Bound(u32),
    Rigid(u64),
    Exists(u64),
    Forall(Box<Open>),
    Arrow(Box<Open>, Box<Open>),
    Unit,
    Tuple(Vec<Open>),
    Data(Target, Vec<Open>),
}

impl Model for Open {
    ghost use Rattle.uc_context.specs.Opens.{Open as Plain, open_size};
    ghost use Rattle.uc_context.specs.OpenCodes.{coded_open};

    ghost Value = { Plain };

    ghost coded = { coded_open };

    ghost use Rattle.uc_context.specs.OpenViews.{open_of};

    ghost view = { λ t. open_of t.node };

    ghost size = { open_size };

    ghost use Rattle.uc_context.specs.OpenFalls.{falls};

    ghost size_decreases = { λ t h. falls t.node };
}

impl Open {
    pub fn bound(index: u32) -> Open
        ensures { result ≡ opens.bound index }
    {
        Open {
            node: OpenNode::Bound(index),
        }
    }

    pub fn rigid(number: u64) -> Open
        ensures { result ≡ opens.rigid number }
    {
        Open {
            node: OpenNode::Rigid(number),
        }
    }

    pub fn existential(number: u64) -> Open
        ensures { result ≡ opens.existential number }
    {
        Open {
            node: OpenNode::Exists(number),
        }
    }

    pub fn forall(alloc: Global, body: Open) -> Result<Open, AllocError>
        ensures { IfOk result (λ t. t ≡ opens.quantified body) }
    {
        Ok(Open {
            node: OpenNode::Forall(Box::new(alloc, body)?),
        })
    }

    pub fn arrow(alloc: Global, from: Open, to: Open) -> Result<Open, AllocError>
        ensures { IfOk result (λ t. t ≡ opens.arrow from to) }
    {
        Ok(Open {
            node: OpenNode::Arrow(Box::new(alloc, from)?, Box::new(alloc, to)?),
        })
    }

    pub fn unit() -> Open
        ensures { result ≡ opens.unit }
    {
        Open {
            node: OpenNode::Unit,
        }
    }

    pub fn tuple(parts: Vec<Open>) -> Open
        ensures { result ≡ opens.tuple (opens_of parts.items) }
    {
        Open {
            node: OpenNode::Tuple(parts),
        }
    }

    pub fn data(head: Target, arguments: Vec<Open>) -> Open
        ensures { result ≡ opens.applied head (opens_of arguments.items) }
    {
        Open {
            node: OpenNode::Data(head, arguments),
        }
    }
}
