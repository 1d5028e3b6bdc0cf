//! Scratch files as they are written.

use crate::block::{Binding, Signature, Use};
use crate::expr::Expr;
use crate::type_expr::TypeAtom;
use crate::written::Written;
use std::marker::Model;
use uc_base::Place;

/// A scratch file. Contracts see the `Item`s of `specs/Files.antt`.
#[derive(Debug, Drop)]
pub struct File {
    pub items: Vec<Item>,
}

/// An item of a file.
#[derive(Debug, Drop)]
pub enum Item {
    Use(Use),
    Declaration(Declaration),
    Signature(Signature),
    Binding(Binding),
    Watch(Watch),
}

/// A declared type with its parameters and constructors, of which there is at least one.
#[derive(Debug, Drop)]
pub struct Declaration {
    pub sort: DeclarationSort,
    pub name: Written,
    pub params: Vec<Written>,
    pub constructors: Vec<Constructor>,
}

/// The words before the name of a declared type: `type` alone, with `structural`, with `unique`, or with `unique` and
/// a tag. The place is the first word's.
#[derive(Debug, Drop)]
pub enum DeclarationSort {
    Plain(Place),
    Structural(Place),
    Unique(Place),
    Tagged(Place, Written),
}

/// A constructor and the types of its fields.
#[derive(Debug, Drop)]
pub struct Constructor {
    pub name: Written,
    pub fields: Vec<TypeAtom>,
}

/// `>` and the expression behind it. The place is that of `>`.
#[derive(Debug, Drop)]
pub struct Watch {
    pub place: Place,
    pub of: Expr,
}

impl Model for File {
    ghost use Rattle.std.specs.Prelude.{List};
    ghost use Rattle.uc_scratch.specs.Files.{Item as Plain};
    ghost use Rattle.uc_scratch.specs.FileCodes.{coded_items};

    ghost Value = { List Plain };

    ghost coded = { coded_items };

    ghost use Rattle.uc_scratch.specs.FileViews.{items_of};

    ghost view = { λ f. items_of f.items.items };
}
