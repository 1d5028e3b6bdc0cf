//! Components as canonical text.
ghost use Rattle.std.specs.Prelude.{◌≡◌, ◌++◌, OnOk, IfOk, IfErr};
ghost use Rattle.uc_base.specs.declared.fault.Fault.TheVariants.{Memory};
ghost use Rattle.uc_tree.specs.Declarations.{fields_of};
ghost use Rattle.uc_canon.specs.Members.{members_of, text_of};
ghost use Rattle.uc_canon.specs.Spelling.{definition_text, definitions_text, tag_text, counted_constructors, declaration_text, declarations_text};

use crate::component::Component;
use crate::write_basics::{write_bytes, write_number};
use crate::write_terms::write_term;
use crate::write_types::{write_signature, write_types};
use std::alloc::{AllocError, Global};
use uc_base::{Bytes, Fault};
use uc_tree::{Decl, Definition, Ty};

pub(crate) fn write_definition(definition: &Definition, out: &mut Vec<u8>) -> Result<(), AllocError>
    ensures { OnOk result (out.new.items ≡ out.old.items ++ definition_text definition.now) }
{
    write_signature(&definition.signature, out)?;
    write_term(&definition.body, out)
}

fn write_definitions(members: &[Definition], out: &mut Vec<u8>) -> Result<(), AllocError>
    ensures { OnOk result (out.new.items ≡ out.old.items ++ definitions_text members.now) }
{
    for member in members {
        write_definition(member, out)?;
    }
    Ok(())
}

fn write_tag(tag: &Option<Bytes>, out: &mut Vec<u8>) -> Result<(), AllocError>
    ensures { OnOk result (out.new.items ≡ out.old.items ++ tag_text tag.now) }
{
    match tag {
        None => {
            out.push(b's')?;
            Ok(())
        }
        Some(tag) => {
            out.push(b'u')?;
            write_bytes(tag.as_slice(), out)
        }
    }
}

fn write_constructors(ctors: &[Vec<Ty>], out: &mut Vec<u8>) -> Result<(), AllocError>
    ensures { OnOk result (out.new.items ≡ out.old.items ++ counted_constructors (fields_of ctors.now)) }
{
    write_number(ctors.len() as u64, out)?;
    for fields in ctors {
        write_types(fields, out)?;
    }
    Ok(())
}

pub(crate) fn write_declaration(declaration: &Decl, out: &mut Vec<u8>) -> Result<(), AllocError>
    ensures { OnOk result (out.new.items ≡ out.old.items ++ declaration_text declaration.now) }
{
    write_tag(&declaration.tag, out)?;
    write_number(u64::from(declaration.params), out)?;
    write_constructors(&declaration.ctors, out)
}

fn write_declarations(members: &[Decl], out: &mut Vec<u8>) -> Result<(), AllocError>
    ensures { OnOk result (out.new.items ≡ out.old.items ++ declarations_text members.now) }
{
    for member in members {
        write_declaration(member, out)?;
    }
    Ok(())
}

/// The canonical text of a component, with its members in the given order. Each target has to be of a kind that has
/// a text at its place; another leaves nothing there.
pub fn write_component(alloc: Global, of: &Component) -> Result<Bytes, Fault>
    ensures text { IfOk result (λ text. text ≡ text_of (members_of of.now)) }
    ensures err { IfErr result (λ fault. fault ≡ Memory) }
{
    let mut out = Vec::new(alloc);
    match of {
        Component::Terms(members) => {
            out.push(b'T')?;
            write_number(members.len() as u64, &mut out)?;
            write_definitions(members, &mut out)?;
        }
        Component::Kinds(members) => {
            out.push(b'D')?;
            write_number(members.len() as u64, &mut out)?;
            write_declarations(members, &mut out)?;
        }
    }
    Ok(Bytes::from_vec(out))
}
