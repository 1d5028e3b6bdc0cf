//! The digest that a stored component stands under.
ghost use Rattle.std.specs.Prelude.{◌≡◌, ◌↔◌, ◌++◌, IsTrue, IsSome, IfSome, OnOk};
ghost use Rattle.hex.specs.Hex.{encode_lower};
ghost use Rattle.uc_base.specs.Hash as spec;
ghost use Rattle.uc_base.specs.Hash.{IsHashText};

use std::alloc::AllocError;

/// A digest of 64 bytes. Order is that of the bytes, which is that of the text.
#[derive(Clone, Copy, Debug, PartialEq, Eq, PartialOrd, Ord, Hash)]
pub struct Hash(pub [u8; 64]);

/// How many digits the text of a hash has.
pub const HASH_TEXT_LEN: usize = 128;

fn is_lower_digit(digit: u8) -> bool
    ensures { result ≡ spec.is_lower_digit digit }
{
    matches!(digit, b'0'..=b'9' | b'a'..=b'f')
}

fn is_hash_text(digits: &[u8]) -> bool
    ensures { IsTrue result ↔ IsHashText digits.now }
{
    digits.len() == HASH_TEXT_LEN && digits.iter().all(|digit| is_lower_digit(*digit))
}

impl Hash {
    /// Writes the 128 lower-case hexadecimal digits.
    pub fn write_text(&self, out: &mut [u8; 128])
        ensures { out.new ≡ encode_lower self.now.0 }
    {
        match hex::encode_to_slice(&self.0, out) {
            Ok(()) => {}
            Err(_) => unreachable!(),
        }
    }

    /// Writes the digits behind what stands in a vector.
    pub fn append_text(&self, out: &mut Vec<u8>) -> Result<(), AllocError>
        ensures { OnOk result (out.new.items ≡ out.old.items ++ encode_lower self.now.0) }
    {
        let mut digits = [0; HASH_TEXT_LEN];
        self.write_text(&mut digits);
        out.extend_from_slice(&digits)
    }

    /// The hash of a text of digits.
    pub fn read_text(digits: &[u8]) -> Option<Hash>
        ensures found { IsSome result ↔ IsHashText digits.now }
        ensures value { IfSome result (λ hash. digits.now ≡ encode_lower hash.0) }
    {
        if !is_hash_text(digits) {
            return None;
        }
        let mut bytes = [0; 64];
        match hex::decode_to_slice(digits, &mut bytes) {
            Ok(()) => Some(Hash(bytes)),
            Err(_) => unreachable!(),
        }
    }
}
