//! Deletions: names that go, and what is lost with them.
ghost use Rattle.std.specs.Prelude.{◌≡◌, ◌⊎◌, None, Some, IfOk, IfErr, OnOk, option_map, find};
ghost use Rattle.std.specs.List.{list_any};
ghost use Rattle.std.specs.Option.{option_copied};
ghost use Rattle.uc_base.specs.declared.fault.Fault.TheVariants.{Memory};
ghost use Rattle.uc_base.specs.declared.reference.Ref.{Ref as PlainRef};
ghost use Rattle.uc_branch.specs.Pairs.{pair_name};
ghost use Rattle.uc_branch.specs.Reaches.{reaches};
ghost use Rattle.uc_branch.specs.Deleting as spec;
ghost use Rattle.uc_branch.specs.Deleting.{head_outside, head_without, head_without_below, is_lost, uses_lost, removal_fault, delete_fault, delete_below_fault};

use crate::head::Head;
use crate::moving::lesser;
use crate::reach::Reach;
use crate::ref_set::RefSet;
use std::alloc::{AllocError, Global};
use uc_base::{Fault, Name, Ref};
use uc_tree::Known;

/// Whether a reference is to a definition or declaration.
pub fn is_def(target: &Ref) -> bool
    ensures { result ≡ spec.is_def target.now }
{
    matches!(target, Ref::Def(..))
}

/// What has a name that goes, and which of that has a name that stays.
#[derive(Drop)]
struct Loss {
    gone: RefSet,
    kept: RefSet,
}

impl Loss {
    ghost use Rattle.uc_branch.specs.Losses.{among_lost};

    fn new(alloc: Global, before: &Head, reach: &Reach, after: &Head) -> Result<Loss, AllocError>
        requires { after.now ≡ head_outside (reaches reach.now) before.now }
        ensures { IfOk result (λ loss. (r : PlainRef) → among_lost loss r ≡ is_lost before.now after.now r) }
    {
        let gone = RefSet::of_taken(alloc, before, reach)?;
        let kept = gone.named_in(alloc, after)?;
        Ok(Loss { gone, kept })
    }

    /// Whether a reference is lost.
    fn has(&self, r: &Ref) -> bool
        ensures { result ≡ among_lost self.now r.now }
    {
        self.gone.contains(r) && !self.kept.contains(r)
    }

    /// Whether some of the references are lost.
    fn has_some(&self, refs: &[Ref]) -> bool
        ensures { result ≡ list_any (among_lost self.now) refs.now }
    {
        refs.iter().any(|r| self.has(r))
    }

    /// The first name of a definition that uses what is lost.
    fn first_user<'a, K: Known>(&self, pairs: &'a [(Name, Ref)], known: &K) -> Option<&'a Name>
        ensures { option_copied result ≡ option_map pair_name (find (uses_lost (K.direct known.now) (among_lost self.now)) pairs.now) }
    {
        for pair in pairs {
            if is_def(&pair.1) && self.has_some(known.refs(&pair.1)) {
                return Some(&pair.0);
            }
        }
        None
    }
}

impl Head {
    /// The head without the names that a deletion takes.
    fn removed<K: Known>(
        &self,
        alloc: Global,
        reach: &Reach,
        name: &Name,
        known: &K,
    ) -> Result<Head, Fault>
        ensures ok { IfOk result (λ head. head ≡ head_outside (reaches reach.now) self.now) }
        ensures accepted { OnOk result (removal_fault (reaches reach.now) name.now (K.direct known.now) self.now ≡ None) }
        ensures refused { IfErr result (λ fault. (removal_fault (reaches reach.now) name.now (K.direct known.now) self.now ≡ Some fault) ⊎ (fault ≡ Memory)) }
    {
        if !self.has_some(reach) {
            return Err(Fault::NoSuchName(name.copy(alloc)?));
        }
        let left = self.outside(alloc, reach)?;
        let loss = Loss::new(alloc, self, reach, &left)?;
        let user = lesser(
            loss.first_user(left.kinds.as_slice(), known),
            loss.first_user(left.terms.as_slice(), known),
        );
        if let Some(user) = user {
            return Err(Fault::StillUsed(user.copy(alloc)?));
        }
        Ok(left)
    }

    /// The head without the type and the term of a name.
    pub fn deleted<K: Known>(&self, alloc: Global, name: &Name, known: &K) -> Result<Head, Fault>
        ensures ok { IfOk result (λ head. head ≡ head_without name.now self.now) }
        ensures accepted { OnOk result (delete_fault name.now (K.direct known.now) self.now ≡ None) }
        ensures refused { IfErr result (λ fault. (delete_fault name.now (K.direct known.now) self.now ≡ Some fault) ⊎ (fault ≡ Memory)) }
    {
        self.removed(alloc, &Reach::Exactly(name), name, known)
    }

    /// The head without all names below a name.
    pub fn namespace_deleted<K: Known>(
        &self,
        alloc: Global,
        name: &Name,
        known: &K,
    ) -> Result<Head, Fault>
        ensures ok { IfOk result (λ head. head ≡ head_without_below name.now self.now) }
        ensures accepted { OnOk result (delete_below_fault name.now (K.direct known.now) self.now ≡ None) }
        ensures refused { IfErr result (λ fault. (delete_below_fault name.now (K.direct known.now) self.now ≡ Some fault) ⊎ (fault ≡ Memory)) }
    {
        self.removed(alloc, &Reach::Below(name), name, known)
    }
}
