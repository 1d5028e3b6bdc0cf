//! Numbers in decimal digits.
ghost use Rattle.std.specs.Prelude.{◌≡◌, ◌++◌, OnOk, MatchOption};
ghost use Rattle.std.specs.Fmt.{decimal};
ghost use Rattle.std.specs.Str.Parse.{digits_value};
ghost use Rattle.uc_base.specs.Decimal.{IsDecimal};

use std::alloc::AllocError;
use std::str;

/// Writes the decimal digits of a number, without leading zeros.
pub fn write_decimal(number: u64, out: &mut Vec<u8>) -> Result<(), AllocError>
    ensures { OnOk result (out.new.items ≡ out.old.items ++ decimal number) }
{
    let digits = number.to_string(*out.allocator())?;
    out.extend_from_slice(digits.as_bytes())
}

/// The number that decimal digits spell, leading zeros or not. `None` for other texts and past 2^64 - 1.
pub fn read_decimal(digits: &[u8]) -> Option<u64>
    ensures { MatchOption result (IsDecimal digits.now → ⊥) (λ number. IsDecimal digits.now × (number ≡ digits_value 10 digits.now)) }
{
    if let [b'+', ..] = digits {
        return None;
    }
    match str::from_utf8(digits) {
        Ok(text) => text.parse::<u64>().ok(),
        Err(_) => None,
    }
}
