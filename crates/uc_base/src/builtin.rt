//! The table of builtins: six types and forty-one terms.
ghost use Rattle.std.specs.Prelude.{◌≡◌, ◌+◌, ◌^◌, ◌<◌, length, map, slice_get, IfSome};
ghost use Rattle.std.specs.List.{position_from};
ghost use Rattle.std.specs.Str.{bytes_eq};
ghost use Rattle.uc_base.specs.Builtin as spec;
ghost use Rattle.std.specs.Option.{option_copied};
ghost use Rattle.uc_base.specs.Builtin.{builtin_number, builtin_name};

/// The names of the builtin types, by number from 0 on.
pub const BUILTIN_TYPES: [&str; 6] = ["Nat", "Int", "Boolean", "Text", "Char", "List"];

/// The number of the first builtin term.
pub const FIRST_BUILTIN_TERM: u16 = 16;

/// The names of the builtin terms, by number from `FIRST_BUILTIN_TERM` on.
pub const BUILTIN_TERMS: [&str; 41] = [
    "Nat.+",
    "Nat.*",
    "Nat./",
    "Nat.mod",
    "Nat.drop",
    "Nat.sub",
    "Nat.==",
    "Nat.<",
    "Nat.<=",
    "Nat.>",
    "Nat.>=",
    "Nat.increment",
    "Nat.toInt",
    "Nat.toText",
    "Int.+",
    "Int.-",
    "Int.*",
    "Int./",
    "Int.==",
    "Int.<",
    "Int.<=",
    "Int.>",
    "Int.>=",
    "Int.negate",
    "Int.toText",
    "Boolean.not",
    "Text.++",
    "Text.size",
    "Text.==",
    "Text.take",
    "Text.drop",
    "Text.toCharList",
    "Text.fromCharList",
    "Char.toNat",
    "List.++",
    "List.+:",
    "List.:+",
    "List.size",
    "List.take",
    "List.drop",
    "List.empty",
];

fn place_from(start: usize, names: &[&str], name: &[u8]) -> Option<usize>
    requires { start + length names.now < 2 ^ 16 }
    ensures place { result ≡ position_from (bytes_eq name.now) start (map (λ row. row.now) names.now) }
    ensures bound { IfSome result (λ i. i < start + length names.now) }
{
    match names {
        [] => None,
        [first, rest @ ..] => {
            if name == first.as_bytes() {
                Some(start)
            } else {
                place_from(start + 1, rest, name)
            }
        }
    }
}

fn place_in(names: &[&str], name: &[u8]) -> Option<usize>
    requires { length names.now < 2 ^ 16 }
    ensures place { result ≡ spec.place_in (map (λ row. row.now) names.now) name.now }
    ensures bound { IfSome result (λ i. i < length names.now) }
{
    place_from(0, names, name)
}

/// The number of the builtin of that name.
pub fn builtin_number_of(name: &[u8]) -> Option<u16>
    ensures { result ≡ builtin_number name.now }
{
    match place_in(&BUILTIN_TYPES, name) {
        Some(i) => Some(i as u16),
        None => match place_in(&BUILTIN_TERMS, name) {
            Some(i) => Some(i as u16 + FIRST_BUILTIN_TERM),
            None => None,
        },
    }
}

fn name_at(names: &[&'static str], at: usize) -> Option<&'static str>
    ensures { option_copied result ≡ slice_get (map (λ row. row.now) names.now) at }
{
    if at < names.len() {
        Some(names[at])
    } else {
        None
    }
}

/// The name that the table has at a number.
pub fn builtin_name_of(number: u16) -> Option<&'static str>
    ensures { option_copied result ≡ builtin_name number }
{
    if number < FIRST_BUILTIN_TERM {
        name_at(&BUILTIN_TYPES, number as usize)
    } else {
        name_at(&BUILTIN_TERMS, (number - FIRST_BUILTIN_TERM) as usize)
    }
}
