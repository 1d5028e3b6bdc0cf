//! What a stored definition, a constructor or a builtin is called.
ghost use Rattle.std.specs.Prelude.{◌≡◌, ◌++◌, OnOk};
ghost use Rattle.uc_base.specs.Ref.{ref_text, member_text};

use crate::builtin::builtin_name_of;
use crate::decimal::write_decimal;
use crate::hash::Hash;
use std::alloc::AllocError;

/// A reference, ordered as written: kind, hash, numbers.
#[derive(Clone, Copy, Debug, PartialEq, Eq, PartialOrd, Ord, Hash)]
pub enum Ref {
    /// The member of that number of the component under a hash.
    Def(Hash, u32),
    /// A constructor of such a member: member number, constructor number.
    Ctor(Hash, u32, u32),
    /// A builtin, by its number in the table.
    Builtin(u16),
}

fn write_member(hash: &Hash, member: u32, out: &mut Vec<u8>) -> Result<(), AllocError>
    ensures { OnOk result (out.new.items ≡ out.old.items ++ member_text hash.now.0 member) }
{
    out.push(b'#')?;
    hash.append_text(out)?;
    if member != 0 {
        out.push(b'.')?;
        write_decimal(u64::from(member), out)?;
    }
    Ok(())
}

impl Ref {
    /// Writes the reference as it is printed.
    pub fn write_text(&self, out: &mut Vec<u8>) -> Result<(), AllocError>
        ensures { OnOk result (out.new.items ≡ out.old.items ++ ref_text self.now) }
    {
        match self {
            Ref::Def(hash, member) => write_member(hash, *member, out),
            Ref::Ctor(hash, member, ctor) => {
                write_member(hash, *member, out)?;
                out.push(b'#')?;
                write_decimal(u64::from(*ctor), out)
            }
            Ref::Builtin(number) => {
                out.extend_from_slice(b"##")?;
                match builtin_name_of(*number) {
                    Some(name) => out.extend_from_slice(name.as_bytes()),
                    None => Ok(()),
                }
            }
        }
    }
}
