//! What a codebase is asked: names, references, arities and types.
ghost use Rattle.std.specs.Prelude.{◌≡◌, ℕ, List, [], Option, Bool, option_map};
ghost use Rattle.std.specs.Option.{option_copied};
ghost use Rattle.std.specs.List.Sorted.{IsStrictlySortedBy};
ghost use Rattle.std.specs.Map.{lookup};
ghost use Rattle.std.specs.Cmp.Lexicographic.{pointwise};
ghost use Rattle.std.specs.Prelude.{nat_eq};
ghost use Rattle.uc_base.specs.declared.hash.Hash.{Hash as PlainHash};
ghost use Rattle.uc_base.specs.declared.place.Sort.{Sort as PlainSort};
ghost use Rattle.uc_base.specs.declared.reference.Ref.{Ref as PlainRef};
ghost use Rattle.uc_base.specs.declared.reference.Ref.TheVariants.{Ctor, Builtin};
ghost use Rattle.uc_tree.specs.declared.target.Target.{Target as PlainTarget};
ghost use Rattle.uc_tree.specs.Types.{Ty as PlainTy};
ghost use Rattle.uc_tree.specs.Lookups.{Pairs, pair_order, next_pair, found_by_prefix};
ghost use Rattle.uc_tree.specs.References.{ref_order};

use crate::target::Target;
use crate::ty::Ty;
use uc_base::{Hash, Name, Ref, Sort};

/// How many hashes begin with the digits.
#[derive(Clone, Copy, Debug, PartialEq, Eq)]
pub enum Found {
    None,
    One(Hash),
    Many,
}

/// Which names stand for which references, and what is stored.
pub trait Names {
    /// The names of a sort in name order, each once.
    ghost pairs: { Self → PlainSort → Pairs };

    ghost in_order: { (names : Self) (sort : PlainSort) → IsStrictlySortedBy pair_order (pairs names sort) };

    /// The hashes of all that is stored, each once.
    ghost hashes: { Self → List PlainHash };

    /// Whether a reference exists and is of a sort.
    ghost is_held: { Self → PlainSort → PlainRef → Bool };

    fn find(&self, sort: Sort, name: &Name) -> Option<&Ref>
        ensures { option_copied result ≡ lookup (pointwise nat_eq name.now) (pairs self.now sort) };

    /// The next name in name order; the first for `None`.
    fn after(&self, sort: Sort, name: Option<&Name>) -> Option<(&Name, &Ref)>
        ensures { option_map (λ pair. (pair.0.now, pair.1.now)) result ≡ next_pair (option_copied name.entry) (pairs self.now sort) };

    fn by_prefix(&self, digits: &[u8]) -> Found
        ensures { result ≡ found_by_prefix digits.now (hashes self.now) };

    fn holds(&self, sort: Sort, of: &Ref) -> bool
        ensures { result ≡ is_held self.now sort of.now };
}

/// The direct references of what is stored.
pub trait Known {
    ghost direct: { Self → PlainRef → List PlainRef };

    fn refs(&self, of: &Ref) -> &[Ref]
        ensures { result.now ≡ direct self.now of.now };

    /// They stand in reference order, each once.
    ghost in_order: { (known : Self) (of : PlainRef) → IsStrictlySortedBy ref_order (direct known of) };

    /// A constructor has none.
    ghost of_constructor: { (known : Self) (hash : PlainHash) (member ctor : ℕ) → direct known (Ctor hash member ctor) ≡ [] };

    /// A builtin has none.
    ghost of_builtin: { (known : Self) (number : ℕ) → direct known (Builtin number) ≡ [] };
}

/// How many parameters a declared type takes.
pub trait Arities {
    ghost arity_of: { Self → PlainTarget → Option ℕ };

    fn arity(&self, of: &Target) -> Option<u32>
        ensures { result ≡ arity_of self.now of.now };
}

/// The types of definitions, constructors and builtins.
pub trait Env: Arities {
    ghost type_at: { Self → PlainRef → Option PlainTy };

    fn type_of(&self, of: &Ref) -> Option<&Ty>
        ensures { option_copied result ≡ type_at self.now of.now };
}
