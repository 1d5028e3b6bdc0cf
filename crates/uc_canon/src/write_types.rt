//! Types as canonical text.
ghost use Rattle.std.specs.Prelude.{◌≡◌, ◌++◌, OnOk};
ghost use Rattle.uc_tree.specs.Types.{tys_of};
ghost use Rattle.uc_canon.specs.Spelling.{type_target_text, type_text, counted_types, signature_text};

use crate::write_basics::{write_number, write_tag};
use std::alloc::AllocError;
use uc_base::Ref;
use uc_tree::{Target, Ty, TyNode};

fn write_type_target(target: &Target, out: &mut Vec<u8>) -> Result<(), AllocError>
    ensures { OnOk result (out.new.items ≡ out.old.items ++ type_target_text target.now) }
{
    match target {
        Target::Stored(Ref::Builtin(n)) => {
            out.push(b'b')?;
            write_number(u64::from(*n), out)
        }
        Target::Stored(Ref::Def(hash, n)) => {
            out.push(b'h')?;
            hash.append_text(out)?;
            write_number(u64::from(*n), out)
        }
        Target::Own(n) => {
            out.push(b'm')?;
            write_number(u64::from(*n), out)
        }
        Target::Stored(Ref::Ctor(_, _, _)) => Ok(()),
        Target::OwnCtor(_, _) => Ok(()),
    }
}

#[cycle(write_type)]
#[tactic(auto, using(crate::proofs::Counts::parts))]
pub(crate) fn write_type(ty: &Ty, out: &mut Vec<u8>) -> Result<(), AllocError>
    ensures { OnOk result (out.new.items ≡ out.old.items ++ type_text ty.now) }
{
    match &ty.node {
        TyNode::Var(n) => {
            out.push(b'v')?;
            write_number(u64::from(*n), out)
        }
        TyNode::Forall(a) => {
            out.push(b'q')?;
            write_type(a, out)
        }
        TyNode::Arrow(a, b) => {
            out.push(b'a')?;
            write_type(a, out)?;
            write_type(b, out)
        }
        TyNode::Unit => write_tag(b'e', out),
        TyNode::Tuple(ts) => {
            out.push(b'p')?;
            write_types(ts, out)
        }
        TyNode::Data(x, ts) => {
            out.push(b't')?;
            write_type_target(x, out)?;
            write_types(ts, out)
        }
    }
}

/// Writes how many, and then each.
#[cycle(write_type)]
#[tactic(auto, using(crate::proofs::Counts::parts))]
pub(crate) fn write_types(types: &[Ty], out: &mut Vec<u8>) -> Result<(), AllocError>
    ensures { OnOk result (out.new.items ≡ out.old.items ++ counted_types (tys_of types.now)) }
{
    write_number(types.len() as u64, out)?;
    for ty in types {
        write_type(ty, out)?;
    }
    Ok(())
}

pub(crate) fn write_signature(signature: &Option<Ty>, out: &mut Vec<u8>) -> Result<(), AllocError>
    ensures { OnOk result (out.new.items ≡ out.old.items ++ signature_text signature.now) }
{
    match signature {
        None => write_tag(b'-', out),
        Some(ty) => {
            out.push(b':')?;
            write_type(ty, out)
        }
    }
}
