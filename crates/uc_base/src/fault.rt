//! The named faults, one for each cause of a refusal.
ghost use Rattle.std.specs.Prelude.{◌≡◌, ◌++◌, take, OnOk, IfOk, IfErr};
ghost use Rattle.uc_base.specs.declared.fault.Fault.TheVariants.{Memory};
ghost use Rattle.uc_base.specs.Fault.{fault_number, fault_name, at_detail, names_detail, fault_detail, fault_line};
ghost use Rattle.uc_base.specs.declared.fault.TheConstants.{SHOWN_NAMES};

use crate::bytes::Bytes;
use crate::decimal::write_decimal;
use crate::hash::Hash;
use crate::name::Name;
use crate::name_list::NameList;
use crate::place::{At, Place};
use std::alloc::{AllocError, AllocFailed, Global};

/// Why a call was refused.
#[derive(Debug, PartialEq, Eq, Drop)]
pub enum Fault {
    /// The text isn't UTF-8.
    NotUtf8,
    /// A text is past its limit.
    TextTooLong,
    /// Something in a text is no token.
    BadToken(Place),
    /// The text isn't the one form that is built so far.
    NotBuilt,
    /// The grammar has no reading of the item of a text that begins here.
    BadSyntax(Place),
    /// A token of Unison that this profile leaves out.
    LeftOut(Place),
    /// Brackets and blocks nest too deep here, or a tree of the item that begins here has too many levels.
    TooDeep(Place),
    /// The name stands here for the second time where it may stand once.
    DuplicateName(Place),
    /// The signature that begins here isn't followed by its binding.
    LoneSignature(Place),
    /// No name means what is written here.
    Unbound(Place, Name),
    /// Several names, in name order, could be meant by what is written here.
    Ambiguous(Place, NameList),
    /// A data type has another number of arguments than its declaration has parameters.
    BadArity(At),
    /// A quantifier stands inside an argument of a data type, a list or a tuple.
    Impredicative(At),
    /// A member of a cycle has no signature.
    NeedsSignature(At),
    /// The rules of typing have no derivation.
    IllTyped(At),
    /// A type is past the limits of nodes and levels.
    TypeTooLarge(At),
    /// No branch has this name.
    NoSuchBranch(Name),
    /// A branch has this name already.
    BranchTaken(Name),
    /// The head has no such name.
    NoSuchName(Name),
    /// The head has this name already.
    NameTaken(Name),
    /// The two names are the same.
    SameName(Name),
    /// A definition of this name uses what would lose its last name.
    StillUsed(Name),
    /// The branch of this name has an empty past.
    NothingToUndo(Name),
    /// The first branch can't be dropped.
    MainKept,
    /// A text is no name.
    BadName,
    /// Two different canonical texts, the stored or earlier one first, have one digest.
    Collision(Hash, Bytes, Bytes),
    /// No stored hash begins with the digits, or what has it lacks the member, the constructor or the sort.
    NoSuchHash(At),
    /// The journal's text would be longer than its limit.
    JournalFull,
    /// There would be more branches than the limit.
    TooManyBranches,
    /// Several stored hashes begin with the digits.
    AmbiguousHash(At),
    /// All heads together would have more names than the limit.
    TooManyNames,
    /// The table of definitions would pass one of its limits.
    StoreFull,
    /// A call of the disk failed.
    JournalFault,
    /// The file isn't a journal.
    NotACodebase,
    /// The file's record at this offset isn't whole or has no meaning.
    Damaged(u64),
    /// A read of the input failed.
    InputFault,
    /// A write or a flush of the output failed.
    OutputFault,
    /// Memory ran out.
    Memory,
    /// The words are outside the forms.
    Usage,
}

fn write_at(at: &At, out: &mut Vec<u8>) -> Result<(), AllocError>
    ensures { OnOk result (out.new.items ≡ out.old.items ++ at_detail at.now) }
{
    match at {
        At::Place(place) => {
            out.push(b' ')?;
            place.write_text(out)
        }
        At::Nowhere | At::Spot(_) => Ok(()),
    }
}

/// How many names a line has at most.
const SHOWN_NAMES: usize = 10;

fn first_names(names: &[Name]) -> &[Name]
    ensures { result.now ≡ take SHOWN_NAMES names.now }
{
    if names.len() > SHOWN_NAMES {
        &names[..SHOWN_NAMES]
    } else {
        names
    }
}

fn write_names(names: &[Name], out: &mut Vec<u8>) -> Result<(), AllocError>
    ensures { OnOk result (out.new.items ≡ out.old.items ++ names_detail names.now) }
{
    match names {
        [] => Ok(()),
        [first, rest @ ..] => {
            out.push(b' ')?;
            out.extend_from_slice(first.text())?;
            write_names(rest, out)
        }
    }
}

/// The line of `Fault::Memory`, for when there is no memory to make it.
pub const MEMORY_LINE: &str = "refused 50 Memory";

impl From<AllocError> for Fault {
    ghost from_gives = { λ _ fault. fault ≡ Memory };

    fn from(_: AllocError) -> Fault {
        Fault::Memory
    }
}

impl<T: Drop> From<AllocFailed<T>> for Fault {
    ghost from_gives = { λ _ fault. fault ≡ Memory };

    fn from(_: AllocFailed<T>) -> Fault {
        Fault::Memory
    }
}

impl Fault {
    /// The number that stands for the fault in lines and answers.
    pub fn number(&self) -> u8
        ensures { result ≡ fault_number self.now }
    {
        match self {
            Fault::NotUtf8 => 1,
            Fault::TextTooLong => 2,
            Fault::BadToken(_) => 3,
            Fault::NotBuilt => 4,
            Fault::BadSyntax(_) => 5,
            Fault::LeftOut(_) => 6,
            Fault::TooDeep(_) => 7,
            Fault::DuplicateName(_) => 8,
            Fault::LoneSignature(_) => 9,
            Fault::Unbound(..) => 10,
            Fault::Ambiguous(..) => 11,
            Fault::BadArity(_) => 12,
            Fault::Impredicative(_) => 13,
            Fault::NeedsSignature(_) => 14,
            Fault::IllTyped(_) => 15,
            Fault::TypeTooLarge(_) => 16,
            Fault::NoSuchBranch(_) => 20,
            Fault::BranchTaken(_) => 21,
            Fault::NoSuchName(_) => 22,
            Fault::NameTaken(_) => 23,
            Fault::SameName(_) => 24,
            Fault::StillUsed(_) => 25,
            Fault::NothingToUndo(_) => 27,
            Fault::MainKept => 28,
            Fault::BadName => 29,
            Fault::Collision(..) => 32,
            Fault::NoSuchHash(_) => 33,
            Fault::JournalFull => 34,
            Fault::TooManyBranches => 35,
            Fault::AmbiguousHash(_) => 39,
            Fault::TooManyNames => 40,
            Fault::StoreFull => 41,
            Fault::JournalFault => 42,
            Fault::NotACodebase => 43,
            Fault::Damaged(_) => 44,
            Fault::InputFault => 45,
            Fault::OutputFault => 46,
            Fault::Memory => 50,
            Fault::Usage => 60,
        }
    }

    fn name(&self) -> &'static str
        ensures { result.now ≡ fault_name self.now }
    {
        match self {
            Fault::NotUtf8 => "NotUtf8",
            Fault::TextTooLong => "TextTooLong",
            Fault::BadToken(_) => "BadToken",
            Fault::NotBuilt => "NotBuilt",
            Fault::BadSyntax(_) => "BadSyntax",
            Fault::LeftOut(_) => "LeftOut",
            Fault::TooDeep(_) => "TooDeep",
            Fault::DuplicateName(_) => "DuplicateName",
            Fault::LoneSignature(_) => "LoneSignature",
            Fault::Unbound(..) => "Unbound",
            Fault::Ambiguous(..) => "Ambiguous",
            Fault::BadArity(_) => "BadArity",
            Fault::Impredicative(_) => "Impredicative",
            Fault::NeedsSignature(_) => "NeedsSignature",
            Fault::IllTyped(_) => "IllTyped",
            Fault::TypeTooLarge(_) => "TypeTooLarge",
            Fault::NoSuchBranch(_) => "NoSuchBranch",
            Fault::BranchTaken(_) => "BranchTaken",
            Fault::NoSuchName(_) => "NoSuchName",
            Fault::NameTaken(_) => "NameTaken",
            Fault::SameName(_) => "SameName",
            Fault::StillUsed(_) => "StillUsed",
            Fault::NothingToUndo(_) => "NothingToUndo",
            Fault::MainKept => "MainKept",
            Fault::BadName => "BadName",
            Fault::Collision(..) => "Collision",
            Fault::NoSuchHash(_) => "NoSuchHash",
            Fault::JournalFull => "JournalFull",
            Fault::TooManyBranches => "TooManyBranches",
            Fault::AmbiguousHash(_) => "AmbiguousHash",
            Fault::TooManyNames => "TooManyNames",
            Fault::StoreFull => "StoreFull",
            Fault::JournalFault => "JournalFault",
            Fault::NotACodebase => "NotACodebase",
            Fault::Damaged(_) => "Damaged",
            Fault::InputFault => "InputFault",
            Fault::OutputFault => "OutputFault",
            Fault::Memory => "Memory",
            Fault::Usage => "Usage",
        }
    }

    fn write_detail(&self, out: &mut Vec<u8>) -> Result<(), AllocError>
        ensures { OnOk result (out.new.items ≡ out.old.items ++ fault_detail self.now) }
    {
        match self {
            Fault::BadToken(place)
            | Fault::BadSyntax(place)
            | Fault::LeftOut(place)
            | Fault::TooDeep(place)
            | Fault::DuplicateName(place)
            | Fault::LoneSignature(place) => {
                out.push(b' ')?;
                place.write_text(out)
            }
            Fault::Unbound(place, name) => {
                out.push(b' ')?;
                place.write_text(out)?;
                out.push(b' ')?;
                out.extend_from_slice(name.text())
            }
            Fault::Ambiguous(place, names) => {
                out.push(b' ')?;
                place.write_text(out)?;
                write_names(first_names(names.as_slice()), out)
            }
            Fault::BadArity(at)
            | Fault::Impredicative(at)
            | Fault::NeedsSignature(at)
            | Fault::IllTyped(at)
            | Fault::TypeTooLarge(at)
            | Fault::NoSuchHash(at)
            | Fault::AmbiguousHash(at) => write_at(at, out),
            Fault::NoSuchBranch(name)
            | Fault::BranchTaken(name)
            | Fault::NoSuchName(name)
            | Fault::NameTaken(name)
            | Fault::SameName(name)
            | Fault::StillUsed(name)
            | Fault::NothingToUndo(name) => {
                out.push(b' ')?;
                out.extend_from_slice(name.text())
            }
            Fault::Collision(hash, _, _) => {
                out.extend_from_slice(b" #")?;
                hash.append_text(out)
            }
            Fault::Damaged(offset) => {
                out.push(b' ')?;
                write_decimal(*offset, out)
            }
            _ => Ok(()),
        }
    }

    /// The line that is printed, without a line feed.
    pub fn line(&self, alloc: Global) -> Result<Bytes, Fault>
        ensures line { IfOk result (λ line. line ≡ fault_line self.now) }
        ensures err { IfErr result (λ fault. fault ≡ Memory) }
    {
        let mut out = Vec::new(alloc);
        out.extend_from_slice(b"refused ")?;
        write_decimal(u64::from(self.number()), &mut out)?;
        out.push(b' ')?;
        out.extend_from_slice(self.name().as_bytes())?;
        self.write_detail(&mut out)?;
        Ok(Bytes::from_vec(out))
    }
}
