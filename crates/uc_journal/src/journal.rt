//! A journal that owns its disk.
ghost use Rattle.uc_journal.specs.Reaches.{Reaches};

use crate::{Record, Tail};
use std::alloc::Global;
use uc_base::{Bytes, Fault};
use uc_outside::Disk;

/// A journal on its disk.
#[derive(Drop)]
pub struct Journal<D: Disk> {
    disk: D,
    tail: Tail,
    ghost reaches: { D.tells → Reaches (D.view disk) tail.gate },
}

/// A disk that was not opened.
#[derive(Drop)]
pub struct Unopened<D: Disk> {
    pub fault: Fault,
    pub disk: D,
}

impl<D: Disk> Journal<D> {
    ghost use Rattle.std.specs.Prelude.{◌≡◌, ◌⊎◌, ◌↔◌, ◌+◌, ◌≤◌, ◌<◌, List, [], ◌∷◌, ◌++◌, ℕ, Option, Some, None, length, IfOk, OnOk, OnErr, IfErr, IsErrOf, MatchResult};
    ghost use Rattle.uc_base.specs.declared.fault.Fault.TheVariants.{JournalFault, JournalFull, NotACodebase, Damaged};
    ghost use Rattle.uc_outside.specs.Count.{Rose};
    ghost use Rattle.uc_outside.specs.Disk.{LeavesOnly, LeavesThen};
    ghost use Rattle.uc_journal.specs.Journal.{Keeps, IsWithOrWithout, Opens, disk_of, text_length, IsUntouched};
    ghost use Rattle.uc_journal.specs.Refused.{ReadFault, OutsideFault};
    ghost use Rattle.uc_journal.specs.Text.{text_limit, IsFileOf, IsAlien, IsDamagedAt};

    /// Opens a disk, which it begins with a sync, or makes a new journal where the file has at most nine bytes. It gives the
    /// payloads in order. A refusal hands the disk back.
    pub fn open(alloc: Global, disk: D) -> Result<(Journal<D>, Vec<Bytes>), Unopened<D>>
        ensures kept { D.tells → IfOk result (λ opened. Keeps opened.0 opened.1.items None × IsFileOf opened.1.items (D.view disk).seen) }

        // Whatever the moment of a crash, it leaves the same payloads.
        ensures any_moment { D.tells → (payloads : List (List ℕ)) → IsFileOf payloads (D.view disk).seen
            → MatchResult result (λ opened. Opens D.view disk (disk_of opened.0) (IsFileOf payloads)) (λ refused. Opens D.view disk refused.disk (IsFileOf payloads)) }

        // Each file is of one of three kinds, and so is its answer, unless the disk fails or memory is wanting.
        ensures reads { D.tells → (payloads : List (List ℕ)) → IsFileOf payloads (D.view disk).seen
            → MatchResult result (λ opened. opened.1.items ≡ payloads) (λ refused. OutsideFault refused.fault) }
        ensures alien { D.tells → IsAlien (D.view disk).seen → MatchResult result (λ _. ⊥) (λ refused. (refused.fault ≡ NotACodebase) ⊎ OutsideFault refused.fault) }
        ensures damaged { D.tells → (at : ℕ) → IsDamagedAt at (D.view disk).seen → MatchResult result (λ _. ⊥) (λ refused. (refused.fault ≡ Damaged at) ⊎ OutsideFault refused.fault) }
        ensures only_alien { D.tells → IfErr result (λ refused. refused.fault ≡ NotACodebase → IsAlien (D.view disk).seen) }
        ensures only_damaged { D.tells → (at : ℕ) → IfErr result (λ refused. refused.fault ≡ Damaged at → IsDamagedAt at (D.view disk).seen) }
        ensures fault { IfErr result (λ refused. ReadFault refused.fault ⊎ ((refused.fault ≡ JournalFault) × Rose (D.faults disk) (D.faults refused.disk))) }
        ensures place { MatchResult result (λ opened. D.place (disk_of opened.0) ≡ D.place disk) (λ refused. D.place refused.disk ≡ D.place disk) }
    {
        let mut disk = disk;
        match Tail::open(alloc, &mut disk) {
            Ok((tail, payloads)) => Ok((Journal { disk, tail }, payloads)),
            Err(fault) => Err(Unopened { fault, disk }),
        }
    }

    /// Closes the gate that a failed append may have left open.
    pub fn settle(&mut self) -> Result<(), Fault>
        ensures settled { (payloads : List (List ℕ)) (unsettled : Option (List ℕ)) → Keeps self.old payloads unsettled
            → OnOk result (Keeps self.new payloads None) }
        ensures kept { (payloads : List (List ℕ)) (unsettled : Option (List ℕ)) → Keeps self.old payloads unsettled
            → OnErr result (Keeps self.new payloads unsettled) }
        ensures any_moment { (payloads : List (List ℕ)) (unsettled : Option (List ℕ)) → Keeps self.old payloads unsettled
            → LeavesOnly (D.view (disk_of self.old)) (D.view (disk_of self.new)) (IsWithOrWithout payloads unsettled) }
        ensures fault { IfErr result (λ e. (e ≡ JournalFault) × Rose (D.faults (disk_of self.old)) (D.faults (disk_of self.new))) }
        ensures counts { D.faults (disk_of self.old) ≤ D.faults (disk_of self.new) }
        ensures place { D.place (disk_of self.new) ≡ D.place (disk_of self.old) }
        ensures same_length { text_length self.new ≡ text_length self.old }
    {
        self.tail.settle(&mut self.disk)
    }

    /// Adds a payload. At `Ok` it is acknowledged: each crash from then on leaves a file that has it. After
    /// `JournalFault` it may have it, up to the next call that settles. A call settles first what an earlier one left.
    pub fn append(&mut self, packed: &Record) -> Result<(), Fault>
        ensures appended { (payloads : List (List ℕ)) (unsettled : Option (List ℕ)) → Keeps self.old payloads unsettled
            → OnOk result (Keeps self.new (payloads ++ packed.now ∷ []) None) }
        ensures kept { (payloads : List (List ℕ)) (unsettled : Option (List ℕ)) → Keeps self.old payloads unsettled
            → OnErr result ((next : Option (List ℕ)) × Keeps self.new payloads next × ((next ≡ unsettled) ⊎ (next ≡ None) ⊎ (next ≡ Some packed.now))) }

        // Up to a moment a crash leaves what the settling may leave, and then the payloads with the new one or without.
        ensures any_moment { (payloads : List (List ℕ)) (unsettled : Option (List ℕ)) → Keeps self.old payloads unsettled
            → LeavesThen D.view (disk_of self.old) (disk_of self.new) (IsWithOrWithout payloads unsettled) (IsWithOrWithout payloads (Some packed.now)) }
        ensures full { IsErrOf result JournalFull ↔ (text_limit < text_length self.old + 5 + length packed.now) }
        ensures untouched { IsErrOf result JournalFull → IsUntouched self.old self.new }
        ensures fault { IfErr result (λ e. (e ≡ JournalFull) ⊎ ((e ≡ JournalFault) × Rose (D.faults (disk_of self.old)) (D.faults (disk_of self.new)))) }
        ensures counts { D.faults (disk_of self.old) ≤ D.faults (disk_of self.new) }
        ensures place { D.place (disk_of self.new) ≡ D.place (disk_of self.old) }
    {
        self.tail.append(&mut self.disk, packed)
    }

    /// Gives the disk back, as the last call left it.
    pub fn into_disk(self) -> D
        ensures same { result ≡ disk_of self }

        // An opening of it reads back the payloads, and behind them at most the one whose fault isn't settled.
        ensures reads_back { (payloads : List (List ℕ)) (unsettled : Option (List ℕ)) → Keeps self payloads unsettled → IsWithOrWithout payloads unsettled (D.view result).seen }
    {
        self.disk
    }
}
