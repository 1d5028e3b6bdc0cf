//! The view of a table that lends some of its definitions.
ghost use Rattle.std.specs.Prelude.{◌≡◌, ℕ, List, option_map};
ghost use Rattle.std.specs.Option.{option_copied};
ghost use Rattle.uc_base.specs.declared.hash.Hash.{Hash as PlainHash};
ghost use Rattle.uc_base.specs.declared.reference.Ref.{Ref as PlainRef};
ghost use Rattle.uc_tree.specs.declared.target.Target.{Target as PlainTarget};
ghost use Rattle.uc_store.specs.Storable.{IsMade};
ghost use Rattle.uc_store.specs.Table.{Table, entry_under, stored_at, type_of_ref, arity_in};

use crate::store::Store;
use crate::stored::Stored;
use uc_base::{Hash, Ref};
use uc_outside::Digester;
use uc_tree::Env;

/// A table of which some definitions are lent.
pub trait Shelf: Env {
    /// What is stored.
    ghost table: { Self → Table };

    /// The hash that a text stands under.
    ghost digest_of: { List ℕ → PlainHash };

    /// Which references are lent.
    ghost lends: { Self → PlainRef → Type 0 };

    fn digest(&self, bytes: &[u8]) -> Hash
        ensures value { result ≡ digest_of bytes.now }
        // The table was made of storable components, each under the digest of its canonical text.
        ensures made { IsMade digest_of (table self.now) };

    /// The definition or declaration of a reference that is lent.
    fn item(&self, of: &Ref) -> Option<&Stored>
        requires { lends self.now of.now }
        ensures { option_copied result ≡ stored_at (table self.now) of.now };

    /// The stored text that has the digest of a text.
    fn twin(&self, text: &[u8]) -> Option<&[u8]>
        ensures { option_copied result ≡ option_map (λ e. e.text) (entry_under (digest_of text.now) (table self.now)) };

    /// The types are those of the table.
    ghost types: { (shelf : Self) (of : PlainRef) → Self.type_at shelf of ≡ type_of_ref (table shelf) of };

    /// The arities are those of the table.
    ghost arities: { (shelf : Self) (of : PlainTarget) → Self.arity_of shelf of ≡ arity_in (table shelf) of };
}

impl<H: Digester + Drop> Shelf for Store<H> {
    ghost use Rattle.std.proofs.Common.{refl};

    ghost table = { λ store. store };

    ghost digest_of = { H.digest_of };

    ghost lends = { λ _ _. Unit {0} };

    ghost types = { λ shelf of. refl };

    ghost arities = { λ shelf of. refl };

    fn digest(&self, bytes: &[u8]) -> Hash {
        self.tell_made();
        Store::digest(self, bytes)
    }

    fn item(&self, of: &Ref) -> Option<&Stored> {
        self.get(of)
    }

    fn twin(&self, text: &[u8]) -> Option<&[u8]> {
        self.text(&Store::digest(self, text))
    }
}
