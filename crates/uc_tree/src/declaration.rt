//! Declarations of types.
ghost use Rattle.std.specs.Prelude.{◌≡◌, IfOk};
ghost use Rattle.uc_tree.specs.Declarations.{fields_of};

use crate::copying::copy_types;
use crate::ty::Ty;
use std::alloc::{AllocError, Global};
use std::marker::Model;
use uc_base::Bytes;

/// A declared type. Contracts see the `Decl` of `specs/Declarations.antt`. In its fields the parameters
/// come after the quantifiers: the last parameter is nearest.
#[derive(Debug, Drop)]
pub struct Decl {
    /// The tag that makes the type unlike all others; none where the type is structural.
    pub tag: Option<Bytes>,
    pub params: u32,
    /// The fields of each constructor.
    pub ctors: Vec<Vec<Ty>>,
}

impl Model for Decl {
    ghost use Rattle.uc_tree.specs.Declarations.{Decl as Plain, coded_decl, fields_of};

    ghost Value = { Plain };

    ghost coded = { coded_decl };

    ghost view = { λ d. record { tag = d.tag; params = d.params; ctors = fields_of d.ctors.items } };
}

pub fn copy_tag(alloc: Global, tag: &Option<Bytes>) -> Result<Option<Bytes>, AllocError>
    ensures { IfOk result (λ t. t ≡ tag.now) }
{
    match tag {
        None => Ok(None),
        Some(bytes) => Ok(Some(Bytes::from_slice(alloc, bytes.as_slice())?)),
    }
}

fn copy_fields(alloc: Global, ctors: &[Vec<Ty>]) -> Result<Vec<Vec<Ty>>, AllocError>
    ensures { IfOk result (λ cs. fields_of cs.items ≡ fields_of ctors.now) }
{
    let mut copied = Vec::new(alloc);
    for fields in ctors {
        copied.push(copy_types(alloc, fields)?)?;
    }
    Ok(copied)
}

impl Decl {
    pub fn copy(&self, alloc: Global) -> Result<Decl, AllocError>
        ensures { IfOk result (λ d. d ≡ self.now) }
    {
        let tag = copy_tag(alloc, &self.tag)?;
        let ctors = copy_fields(alloc, &self.ctors)?;
        Ok(Decl {
            tag,
            params: self.params,
            ctors,
        })
    }
}
