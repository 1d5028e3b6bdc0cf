//! How a text that is being written stands to the least one so far.
ghost use Rattle.std.specs.Prelude.{ℕ, ◌↔◌, ◌++◌, List};
ghost use Rattle.uc_canon.specs.Starts.{ComesBefore};

/// How a text that is being written stands to the least one so far.
#[derive(Clone, Copy)]
pub(crate) enum Standing<'a> {
    /// It comes before it, whatever follows; or there is none yet.
    Less,
    /// It is the same so far; the rest of the least one.
    Same(&'a [u8]),
    /// It comes behind it, whatever follows.
    Greater,
}

/// How it stands with a part more.
pub(crate) fn with_part<'a>(standing: Standing<'a>, part: &[u8]) -> Standing<'a>
    ensures { (rest : List ℕ) → ComesBefore standing.entry (part.now ++ rest) ↔ ComesBefore result rest }
{
    match standing {
        Standing::Less => Standing::Less,
        Standing::Same(known) => match known.strip_prefix(part) {
            Some(rest) => Standing::Same(rest),
            None if part < known => Standing::Less,
            None => Standing::Greater,
        },
        Standing::Greater => Standing::Greater,
    }
}
