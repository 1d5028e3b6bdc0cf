//! Written texts as names, and numbers of members.
ghost use Rattle.std.specs.Prelude.{◌≡◌, ◌+◌, IfOk};
ghost use Rattle.uc_scratch.specs.NameFaults as faults;
ghost use Rattle.uc_meaning.specs.Programs.{named};
ghost use Rattle.uc_meaning.specs.Results.{Gives};

use std::alloc::{AllocError, Global};
use uc_base::{Fault, Name, is_name};
use uc_scratch::{BindingFront, Head, Written};

/// A text as a name.
pub fn parse_name(alloc: Global, text: &[u8]) -> Result<Name, Fault>
    ensures { Gives (λ name. name) result (named text.now) }
{
    if is_name(text) {
        Name::parse(alloc, text)
    } else {
        Err(Fault::BadName)
    }
}

/// The name of a binding.
pub fn front_name(front: &BindingFront) -> &Written
    ensures { result.now ≡ faults.front_name front.now }
{
    match front {
        BindingFront::Prefix(Head::Path(name), _)
        | BindingFront::Prefix(Head::Bracketed(_, name), _)
        | BindingFront::Prefix(Head::Operator(name), _)
        | BindingFront::Infix(_, name, _) => name,
    }
}

/// The next number. There is no memory for a file in which it doesn't fit.
pub fn next_number(number: u32) -> Result<u32, AllocError>
    ensures { IfOk result (λ next. next ≡ number + 1) }
{
    match number.checked_add(1) {
        None => Err(AllocError),
        Some(next) => Ok(next),
    }
}

/// A count as a number of a tree. There is no memory for one that doesn't fit.
pub fn small_number(count: usize) -> Result<u32, AllocError>
    ensures { IfOk result (λ number. number ≡ count) }
{
    if count > u32::MAX as usize {
        Err(AllocError)
    } else {
        Ok(count as u32)
    }
}
