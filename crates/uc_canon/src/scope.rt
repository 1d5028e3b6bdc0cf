//! What a tree that is read may name.
ghost use Rattle.std.specs.Prelude.{◌≡◌, ◌-◌, ◌^◌, min};
ghost use Rattle.uc_tree.specs.Bound as bound;
ghost use Rattle.uc_tree.specs.Patterns.{patterns_of};
ghost use Rattle.uc_canon.specs.Scopes.{quantified_scope, types_scope, binders_scope, signature_scope};

use uc_tree::{Pattern, PatternNode, Ty, TyNode};

/// What a type may name.
#[derive(Clone, Copy)]
pub(crate) struct TypeScope {
    /// So many members of its component.
    pub members: u32,
    /// So many variables; past the last u64 that.
    pub variables: u64,
}

impl TypeScope {
    /// Under a quantifier.
    pub(crate) fn quantified(self) -> TypeScope
        ensures { result ≡ quantified_scope self }
    {
        TypeScope {
            variables: self.variables.saturating_add(1),
            ..self
        }
    }
}

/// What a term may name.
#[derive(Clone, Copy)]
pub(crate) struct TermScope {
    /// So many members of its component.
    pub members: u32,
    /// So many variables of its types; past the last u64 that.
    pub type_variables: u64,
    /// So many variables; past the last u64 that.
    pub variables: u64,
}

impl TermScope {
    /// Of the types of the term, which name no member.
    pub(crate) fn types(self) -> TypeScope
        ensures { result ≡ types_scope self }
    {
        TypeScope {
            members: 0,
            variables: self.type_variables,
        }
    }

    /// Under so many variables.
    pub(crate) fn under_binders(self, count: u64) -> TermScope
        ensures { result ≡ binders_scope count self }
    {
        TermScope {
            variables: self.variables.saturating_add(count),
            ..self
        }
    }

    /// Under the quantifiers of a signature.
    pub(crate) fn under_signature(self, signature: &Option<Ty>) -> TermScope
        ensures { result ≡ signature_scope signature.now self }
    {
        match signature {
            None => self,
            Some(ty) => TermScope {
                type_variables: self.type_variables.saturating_add(front_quantifiers(ty)),
                ..self
            },
        }
    }
}

/// The quantifiers at the front of a type; past the last u64 that.
fn front_quantifiers(ty: &Ty) -> u64
    ensures { result ≡ min (bound.front_quantifiers ty.now) (2 ^ 64 - 1) }
{
    match &ty.node {
        TyNode::Forall(inside) => front_quantifiers(inside).saturating_add(1),
        TyNode::Var(_) => 0,
        TyNode::Arrow(_, _) => 0,
        TyNode::Unit => 0,
        TyNode::Tuple(_) => 0,
        TyNode::Data(_, _) => 0,
    }
}

/// How many variables a pattern binds; past the last u64 that.
#[cycle(binder_count)]
#[tactic(auto, using(crate::proofs::Counts::parts))]
pub(crate) fn binder_count(pattern: &Pattern) -> u64
    ensures { result ≡ min (bound.binder_count pattern.now) (2 ^ 64 - 1) }
{
    match &pattern.node {
        PatternNode::Any | PatternNode::Literal(_) | PatternNode::Unit => 0,
        PatternNode::Var => 1,
        PatternNode::As(inside) => binder_count(inside).saturating_add(1),
        PatternNode::Tuple(parts) | PatternNode::List(parts) | PatternNode::Ctor(_, parts) => {
            binders_count(parts)
        }
        PatternNode::Cons(first, second) | PatternNode::Snoc(first, second) => {
            binder_count(first).saturating_add(binder_count(second))
        }
    }
}

#[cycle(binder_count)]
#[tactic(auto, using(crate::proofs::Counts::parts))]
fn binders_count(patterns: &[Pattern]) -> u64
    ensures { result ≡ min (bound.binders_count (patterns_of patterns.now)) (2 ^ 64 - 1) }
{
    let mut count = 0u64;
    for pattern in patterns {
        count = count.saturating_add(binder_count(pattern));
    }
    count
}
