//! Numbers, texts and literals as canonical text.
ghost use Rattle.std.specs.Prelude.{◌≡◌, [], ◌∷◌, ◌++◌, OnOk};
ghost use Rattle.uc_canon.specs.Spelling.{number_text, bytes_text, literal_text};

use std::alloc::AllocError;
use uc_base::write_decimal;
use uc_tree::Literal;

pub(crate) fn write_tag(tag: u8, out: &mut Vec<u8>) -> Result<(), AllocError>
    ensures { OnOk result (out.new.items ≡ out.old.items ++ tag ∷ []) }
{
    out.push(tag)?;
    Ok(())
}

#[tactic(auto, unfolding(crate::specs::Spelling::number_text))]
pub(crate) fn write_number(number: u64, out: &mut Vec<u8>) -> Result<(), AllocError>
    ensures { OnOk result (out.new.items ≡ out.old.items ++ number_text number) }
{
    write_decimal(number, out)?;
    out.push(b';')?;
    Ok(())
}

pub(crate) fn write_bytes(bytes: &[u8], out: &mut Vec<u8>) -> Result<(), AllocError>
    ensures { OnOk result (out.new.items ≡ out.old.items ++ bytes_text bytes.now) }
{
    write_number(bytes.len() as u64, out)?;
    out.extend_from_slice(bytes)
}

pub(crate) fn write_literal(literal: &Literal, out: &mut Vec<u8>) -> Result<(), AllocError>
    ensures { OnOk result (out.new.items ≡ out.old.items ++ literal_text literal.now) }
{
    match literal {
        Literal::Nat(n) => {
            out.push(b'n')?;
            write_number(*n, out)
        }
        Literal::Int(z) => {
            out.push(b'i')?;
            out.push(if z.is_negative() { b'-' } else { b'+' })?;
            write_number(z.unsigned_abs(), out)
        }
        Literal::Boolean(true) => write_tag(b'y', out),
        Literal::Boolean(false) => write_tag(b'z', out),
        Literal::Text(text) => {
            out.push(b'x')?;
            write_bytes(text.as_slice(), out)
        }
        Literal::Char(c) => {
            out.push(b'c')?;
            write_number(u64::from(*c), out)
        }
    }
}
