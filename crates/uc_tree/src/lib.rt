//! Types, patterns, terms, definitions and declarations as trees.
#![tactic(auto)]

mod constructors;
mod copying;
mod counting;
mod declaration;
mod definition;
mod equality;
mod hints;
mod item;
mod laws;
mod literal;
mod lookups;
mod numbering;
mod pattern;
mod ref_map;
mod references;
mod replacing;
mod target;
mod targets;
mod term;
mod ty;

pub use constructors::constructor_type;
pub use copying::{copy_cases, copy_patterns, copy_signature, copy_terms, copy_types};
pub use counting::{depth, type_nodes};
pub use declaration::Decl;
pub use definition::Definition;
pub use hints::Hints;
pub use item::Item;
pub use laws::replacing_laws;
pub use literal::Literal;
pub use lookups::{Arities, Env, Found, Known, Names};
pub use pattern::{Pattern, PatternNode};
pub use ref_map::{Image, RefMap};
pub use references::refs_of;
pub use replacing::{rewrite, with_members, with_own};
pub use target::Target;
pub use targets::targets_of;
pub use term::{Case, Term, TermNode};
pub use ty::{Ty, TyNode};

#[cfg(test)]
mod tests;
