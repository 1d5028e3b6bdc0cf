//! Digests of canonical texts.
ghost use Rattle.std.specs.Prelude.{◌≡◌, ◌%◌, sum};

use sha2::{Digest, Sha512};
use uc_base::Hash;

/// Computes the hash that a text stands under.
pub trait Digester {
    ghost use Rattle.std.specs.Prelude.{ℕ, List};
    ghost use Rattle.uc_base.specs.declared.hash.Hash.{Hash as HashValue};

    /// The digest of a list of bytes.
    ghost digest_of: { List ℕ → HashValue };

    fn digest(&self, bytes: &[u8]) -> Hash
        ensures { result ≡ digest_of bytes.now };
}

/// SHA-512 of FIPS 180-4.
#[derive(Clone, Copy, Debug)]
pub struct Sha512Digester;

impl Digester for Sha512Digester {
    ghost use Rattle.uc_outside.specs.Digests.{sha512_hash};

    ghost digest_of = { sha512_hash };

    fn digest(&self, bytes: &[u8]) -> Hash {
        Hash(Sha512::digest(bytes))
    }
}

/// 64 equal bytes, each the sum of the text's bytes modulo 256. For tests of collisions.
#[derive(Clone, Copy, Debug)]
pub struct SumDigester;

// The sum of the bytes, which wraps.
fn wrapping_sum(bytes: &[u8]) -> u8
    ensures { result ≡ sum bytes.now % 256 }
{
    let mut total = 0u8;
    for byte in bytes {
        total = total.wrapping_add(*byte);
    }
    total
}

impl Digester for SumDigester {
    ghost use Rattle.uc_outside.specs.Digests.{sum_hash};

    ghost digest_of = { sum_hash };

    fn digest(&self, bytes: &[u8]) -> Hash {
        Hash([wrapping_sum(bytes); 64])
    }
}

#[cfg(test)]
mod tests {
    use super::*;

    #[test]
    fn digests(rt: HostRuntime) {
        // FIPS 180-4: the digest of `abc` begins so.
        let Hash(digest) = Sha512Digester.digest(b"abc");
        let front = [0xdd, 0xaf, 0x35, 0xa1, 0x93, 0x61, 0x7a, 0xba];
        for (i, byte) in front.iter().enumerate() {
            assert_eq!(rt; digest[i], *byte);
        }
        // Both sum to 507.
        let Hash(first) = SumDigester.digest(b"T1;-n14;");
        let Hash(second) = SumDigester.digest(b"T1;-n23;");
        assert!(rt; first == [0xfb; 64] && second == [0xfb; 64]);
    }
}
