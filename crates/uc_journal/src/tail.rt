//! The end of a journal: records behind gates. A closed gate stands behind the last record, and is on the disk before
//! anything is written behind it.
ghost use Rattle.std.specs.Prelude.{◌<◌};
ghost use Rattle.uc_journal.specs.Text.{text_limit};

use crate::Record;
use crate::begin::begin;
use crate::load::load;
use crate::through::write_through;
use std::alloc::Global;
use uc_base::{Bytes, Fault};
use uc_outside::{Disk, Failed};

/// The most bytes of a journal's text.
pub const MAX_TEXT: u64 = 67_108_864;

/// Where a journal on a disk ends. The disk is passed to each call, and is to be the same one.
#[derive(Debug, Drop)]
pub struct Tail {
    /// The offset of the gate behind the last record. The text ends with that gate.
    pub gate: u64,
    /// Whether a fault may have left that gate open.
    pub unsettled: bool,
    ghost small: { gate < text_limit },
}

impl Tail {
    ghost use Rattle.std.specs.Prelude.{◌≡◌, ◌⊎◌, ◌↔◌, ◌+◌, ◌≤◌, ◌^◌, List, [], ◌∷◌, ◌++◌, ℕ, Option, Some, None, false, length, OnOk, OnErr, IfOk, IfErr, IsErrOf, MatchResult};
    ghost use Rattle.uc_base.specs.declared.fault.Fault.TheVariants.{JournalFault, JournalFull, NotACodebase, Damaged};
    ghost use Rattle.uc_outside.specs.Count.{Rose, HasCause};
    ghost use Rattle.uc_outside.specs.Disk.{LeavesOnly, LeavesThen};
    ghost use Rattle.uc_journal.specs.Journal.{KeepsOn, IsWithOrWithout, Opens};
    ghost use Rattle.uc_journal.specs.Refused.{ReadFault, OutsideFault};
    ghost use Rattle.uc_journal.specs.Text.{IsFileOf, IsAlien, IsDamagedAt};
    ghost use Rattle.uc_journal.specs.Reaches.{Reaches};

    /// Opens a disk, which it begins with a sync, or makes a new journal where the file has at most nine bytes. It gives the
    /// payloads in order.
    pub fn open<D: Disk>(alloc: Global, disk: &mut D) -> Result<(Tail, Vec<Bytes>), Fault>
        ensures kept { D.tells → IfOk result (λ opened. KeepsOn D.tells (D.view disk.new) opened.0 opened.1.items None) }
        ensures file { D.tells → IfOk result (λ opened. IsFileOf opened.1.items (D.view disk.old).seen) }
        ensures reaches { D.tells → IfOk result (λ opened. Reaches (D.view disk.new) opened.0.gate) }

        // Whatever the moment of a crash, it leaves the same payloads.
        ensures any_moment { D.tells → (payloads : List (List ℕ)) → IsFileOf payloads (D.view disk.old).seen → Opens D.view disk.old disk.new (IsFileOf payloads) }

        // Each file is of one of three kinds, and so is its answer, unless the disk fails or memory is wanting.
        ensures reads { D.tells → (payloads : List (List ℕ)) → IsFileOf payloads (D.view disk.old).seen → MatchResult result (λ opened. opened.1.items ≡ payloads) OutsideFault }
        ensures alien { D.tells → IsAlien (D.view disk.old).seen → MatchResult result (λ _. ⊥) (λ fault. (fault ≡ NotACodebase) ⊎ OutsideFault fault) }
        ensures damaged { D.tells → (at : ℕ) → IsDamagedAt at (D.view disk.old).seen → MatchResult result (λ _. ⊥) (λ fault. (fault ≡ Damaged at) ⊎ OutsideFault fault) }
        ensures only_alien { D.tells → IsErrOf result NotACodebase → IsAlien (D.view disk.old).seen }
        ensures only_damaged { D.tells → (at : ℕ) → IsErrOf result (Damaged at) → IsDamagedAt at (D.view disk.old).seen }
        ensures fault { IfErr result (λ fault. ReadFault fault ⊎ ((fault ≡ JournalFault) × Rose (D.faults disk.old) (D.faults disk.new))) }
        ensures counts { D.faults disk.old ≤ D.faults disk.new }
        ensures place { D.place disk.new ≡ D.place disk.old }
    {
        Tail::start(alloc, disk)
    }

    // The same, with what each refusal says of the file.
    fn start<D: Disk>(alloc: Global, disk: &mut D) -> Result<(Tail, Vec<Bytes>), Fault>
        ensures kept { D.tells → IfOk result (λ opened. KeepsOn D.tells (D.view disk.new) opened.0 opened.1.items None) }
        ensures file { D.tells → IfOk result (λ opened. IsFileOf opened.1.items (D.view disk.old).seen) }
        ensures reaches { D.tells → IfOk result (λ opened. Reaches (D.view disk.new) opened.0.gate) }
        ensures any_moment { D.tells → (payloads : List (List ℕ)) → IsFileOf payloads (D.view disk.old).seen → Opens D.view disk.old disk.new (IsFileOf payloads) }
        ensures alien { D.tells → IsErrOf result NotACodebase → IsAlien (D.view disk.old).seen }
        ensures damaged { D.tells → (at : ℕ) → IsErrOf result (Damaged at) → IsDamagedAt at (D.view disk.old).seen }
        ensures fault { IfErr result (λ fault. ReadFault fault ⊎ ((fault ≡ JournalFault) × Rose (D.faults disk.old) (D.faults disk.new))) }
        ensures counts { D.faults disk.old ≤ D.faults disk.new }
        ensures place { D.place disk.new ≡ D.place disk.old }
    {
        let Ok(()) = disk.sync() else {
            return Err(Fault::JournalFault);
        };
        let Ok(len) = disk.len() else {
            return Err(Fault::JournalFault);
        };
        if len <= 9 {
            let Ok(()) = begin(disk) else {
                return Err(Fault::JournalFault);
            };
            return Ok((Tail::settled(8), Vec::new(alloc)));
        }
        let (gate, payloads) = load(alloc, disk, len)?;
        Ok((Tail::settled(gate), payloads))
    }

    fn settled(gate: u64) -> Tail
        requires { gate < text_limit }
        ensures gate { result.gate ≡ gate }
        ensures settled { result.unsettled ≡ false }
    {
        Tail {
            gate,
            unsettled: false,
        }
    }

    /// Closes the gate that a failed append may have left open.
    pub fn settle<D: Disk>(&mut self, disk: &mut D) -> Result<(), Fault>
        requires reaches { D.tells → Reaches (D.view disk.old) self.old.gate }
        ensures reaches { D.tells → Reaches (D.view disk.new) self.new.gate }
        ensures settled { (payloads : List (List ℕ)) (unsettled : Option (List ℕ)) → KeepsOn D.tells (D.view disk.old) self.old payloads unsettled
            → OnOk result (KeepsOn D.tells (D.view disk.new) self.new payloads None) }
        ensures kept { (payloads : List (List ℕ)) (unsettled : Option (List ℕ)) → KeepsOn D.tells (D.view disk.old) self.old payloads unsettled
            → OnErr result (KeepsOn D.tells (D.view disk.new) self.new payloads unsettled) }
        ensures any_moment { (payloads : List (List ℕ)) (unsettled : Option (List ℕ)) → KeepsOn D.tells (D.view disk.old) self.old payloads unsettled
            → LeavesOnly (D.view disk.old) (D.view disk.new) (IsWithOrWithout payloads unsettled) }
        ensures fault { IfErr result (λ e. (e ≡ JournalFault) × Rose (D.faults disk.old) (D.faults disk.new)) }
        ensures counts { D.faults disk.old ≤ D.faults disk.new }
        ensures place { D.place disk.new ≡ D.place disk.old }
        ensures same { self.new.gate ≡ self.old.gate }
    {
        match self.close(disk) {
            Ok(()) => Ok(()),
            Err(_) => Err(Fault::JournalFault),
        }
    }

    // The same with the disk's own error.
    fn close<D: Disk>(&mut self, disk: &mut D) -> Result<(), Failed>
        requires reaches { D.tells → Reaches (D.view disk.old) self.old.gate }
        ensures reaches { D.tells → Reaches (D.view disk.new) self.new.gate }
        ensures settled { (payloads : List (List ℕ)) (unsettled : Option (List ℕ)) → KeepsOn D.tells (D.view disk.old) self.old payloads unsettled
            → OnOk result (KeepsOn D.tells (D.view disk.new) self.new payloads None) }
        ensures kept { (payloads : List (List ℕ)) (unsettled : Option (List ℕ)) → KeepsOn D.tells (D.view disk.old) self.old payloads unsettled
            → OnErr result (KeepsOn D.tells (D.view disk.new) self.new payloads unsettled) }
        ensures any_moment { (payloads : List (List ℕ)) (unsettled : Option (List ℕ)) → KeepsOn D.tells (D.view disk.old) self.old payloads unsettled
            → LeavesOnly (D.view disk.old) (D.view disk.new) (IsWithOrWithout payloads unsettled) }
        ensures cause { HasCause (D.faults disk.old) (D.faults disk.new) result }
        ensures place { D.place disk.new ≡ D.place disk.old }
        ensures same { self.new.gate ≡ self.old.gate }
    {
        if self.unsettled {
            write_through(disk, self.gate, &[0])?;
            self.unsettled = false;
        }
        Ok(())
    }

    /// Adds a payload. At `Ok` it is acknowledged: each crash from then on leaves a file that has it. After
    /// `JournalFault` it may have it, up to the next call that settles.
    pub fn append<D: Disk>(&mut self, disk: &mut D, packed: &Record) -> Result<(), Fault>
        requires reaches { D.tells → Reaches (D.view disk.old) self.old.gate }
        ensures reaches { D.tells → Reaches (D.view disk.new) self.new.gate }
        ensures appended { (payloads : List (List ℕ)) (unsettled : Option (List ℕ)) → KeepsOn D.tells (D.view disk.old) self.old payloads unsettled
            → OnOk result (KeepsOn D.tells (D.view disk.new) self.new (payloads ++ packed.now ∷ []) None) }
        ensures kept { (payloads : List (List ℕ)) (unsettled : Option (List ℕ)) → KeepsOn D.tells (D.view disk.old) self.old payloads unsettled
            → OnErr result ((next : Option (List ℕ)) × KeepsOn D.tells (D.view disk.new) self.new payloads next
            × ((next ≡ unsettled) ⊎ (next ≡ None) ⊎ (next ≡ Some packed.now))) }

        // Up to a moment a crash leaves what the settling may leave, and then the payloads with the new one or without.
        ensures any_moment { (payloads : List (List ℕ)) (unsettled : Option (List ℕ)) → KeepsOn D.tells (D.view disk.old) self.old payloads unsettled
            → LeavesThen D.view disk.old disk.new (IsWithOrWithout payloads unsettled) (IsWithOrWithout payloads (Some packed.now)) }
        ensures counts { D.faults disk.old ≤ D.faults disk.new }
        ensures place { D.place disk.new ≡ D.place disk.old }
        ensures full { IsErrOf result JournalFull ↔ (text_limit < self.old.gate + 6 + length packed.now) }
        ensures untouched { IsErrOf result JournalFull → (self.new ≡ self.old) × (disk.new ≡ disk.old) }
        ensures fault { IfErr result (λ e. (e ≡ JournalFull) ⊎ ((e ≡ JournalFault) × Rose (D.faults disk.old) (D.faults disk.new))) }
    {
        if packed.bytes().len() as u64 >= MAX_TEXT - self.gate {
            return Err(Fault::JournalFull);
        }
        match self.write(disk, packed) {
            Ok(()) => Ok(()),
            Err(_) => Err(Fault::JournalFault),
        }
    }

    // Adds a payload that fits.
    fn write<D: Disk>(&mut self, disk: &mut D, packed: &Record) -> Result<(), Failed>
        requires reaches { D.tells → Reaches (D.view disk.old) self.old.gate }
        requires fits { self.old.gate + length packed.now + 5 < text_limit }
        ensures reaches { D.tells → Reaches (D.view disk.new) self.new.gate }
        ensures appended { (payloads : List (List ℕ)) (unsettled : Option (List ℕ)) → KeepsOn D.tells (D.view disk.old) self.old payloads unsettled
            → OnOk result (KeepsOn D.tells (D.view disk.new) self.new (payloads ++ packed.now ∷ []) None) }
        ensures kept { (payloads : List (List ℕ)) (unsettled : Option (List ℕ)) → KeepsOn D.tells (D.view disk.old) self.old payloads unsettled
            → OnErr result ((next : Option (List ℕ)) × KeepsOn D.tells (D.view disk.new) self.new payloads next
            × ((next ≡ unsettled) ⊎ (next ≡ None) ⊎ (next ≡ Some packed.now))) }
        ensures any_moment { (payloads : List (List ℕ)) (unsettled : Option (List ℕ)) → KeepsOn D.tells (D.view disk.old) self.old payloads unsettled
            → LeavesThen D.view disk.old disk.new (IsWithOrWithout payloads unsettled) (IsWithOrWithout payloads (Some packed.now)) }
        ensures cause { HasCause (D.faults disk.old) (D.faults disk.new) result }
        ensures place { D.place disk.new ≡ D.place disk.old }
    {
        let bytes = packed.bytes();
        self.close(disk)?;
        write_through(disk, self.gate + 1, bytes)?;
        self.unsettled = true;
        write_through(disk, self.gate, &[1])?;
        self.gate += bytes.len() as u64;
        self.unsettled = false;
        Ok(())
    }
}
