//! Readers of names, parameters and what an item begins with.
ghost use Rattle.std.specs.Prelude.{◌≡◌, List, [], ◌∷◌, true, IfOk, MatchOption};
ghost use Rattle.std.specs.Option.{option_copied};
ghost use Rattle.uc_base.specs.declared.place.Place.{Place as PlaceSeen};
ghost use Rattle.uc_scratch.specs.declared.terminal.Terminal.{Terminal as Seen};
ghost use Rattle.uc_scratch.specs.declared.terminal.Terminal.TheVariants.{Left, Right, Equals};
ghost use Rattle.uc_scratch.specs.declared.written.Written.{Written as WrittenSeen};
ghost use Rattle.uc_scratch.specs.declared.written.Head.{Head as HeadSeen};
ghost use Rattle.uc_scratch.specs.declared.written.Param.{Param as ParamSeen};
ghost use Rattle.uc_scratch.specs.Terminals as spec;
ghost use Rattle.uc_scratch.specs.Terminals.{IsOperator, IsParam};
ghost use Rattle.uc_scratch.specs.Fronts.{IsParamFront, IsUsedFront, IsLambda, NoLambda, IsUse, IsUsePath, NoUse, IsOperatorFront, IsSigned, IsPrefix, IsInfix, IsItemFront};
ghost use Rattle.uc_scratch.specs.Follows.{ends_params, ends_used};
ghost use Rattle.uc_scratch.specs.ExprGrammar.{ReadsParams, ReadsUsed, ReadsHead, ReadsBound};

use crate::front::{Mark, behind, first, left_of, use_of};
use crate::terminal::Terminal;
use crate::written::{Head, Param, Written};
use std::alloc::{AllocError, Global};
use uc_base::Place;

/// The path that a token is.
pub fn path_of(t: &Terminal) -> Option<&Written>
    ensures { option_copied result ≡ spec.path_of t.now }
{
    match t {
        Terminal::Small(w) => Some(w),
        Terminal::Capital(w) => Some(w),
        Terminal::Dotted(w) => Some(w),
        _ => None,
    }
}

/// The wordy segment that a token is.
pub fn word_of(t: &Terminal) -> Option<&Written>
    ensures { option_copied result ≡ spec.word_of t.now }
{
    match t {
        Terminal::Small(w) => Some(w),
        Terminal::Capital(w) => Some(w),
        _ => None,
    }
}

/// The operator that a token is.
pub fn operator_of(t: &Terminal) -> Option<&Written>
    ensures { option_copied result ≡ spec.operator_of t.now }
{
    match t {
        Terminal::Cons(w) => Some(w),
        Terminal::Snoc(w) => Some(w),
        Terminal::Greater(w) => Some(w),
        Terminal::Operator(w) => Some(w),
        _ => None,
    }
}

/// The parameter that a token is.
pub fn param_of(alloc: Global, t: &Terminal) -> Result<Option<Param>, AllocError>
    ensures { IfOk result (λ o. o ≡ spec.param_of t.now) }
{
    match t {
        Terminal::Small(w) => Ok(Some(Param::Name(w.copy(alloc)?))),
        Terminal::Capital(w) => Ok(Some(Param::Name(w.copy(alloc)?))),
        Terminal::Wildcard(p) => Ok(Some(Param::Any(*p))),
        _ => Ok(None),
    }
}

/// The parameter at the front.
fn param_front(
    alloc: Global,
    tokens: &[Terminal],
) -> Result<Option<(Param, &[Terminal])>, AllocError>
    ensures { IfOk result (λ o. MatchOption o (ends_params tokens.now ≡ true) (λ x. IsParamFront tokens.now x.0 x.1.now)) }
{
    match first(tokens) {
        None => Ok(None),
        Some((t, rest)) => {
            let found = param_of(alloc, t)?;
            match found {
                None => Ok(None),
                Some(param) => Ok(Some((param, rest))),
            }
        }
    }
}

/// All parameters at the front.
pub fn read_params(
    alloc: Global,
    tokens: &[Terminal],
) -> Result<(Vec<Param>, &[Terminal]), AllocError>
    ensures found { IfOk result (λ x. ReadsParams tokens.now x.0.items x.1.now) }
    ensures ends { IfOk result (λ x. ends_params x.1.now ≡ true) }
{
    let mut params = Vec::new(alloc);
    let mut rest = tokens;
    'params: loop {
        let front = param_front(alloc, rest)?;
        match front {
            None => return Ok((params, rest)),
            Some((param, after)) => {
                params.push(param)?;
                rest = after;
            }
        }
    }
}

/// The parameters of a lambda at the front, and what stands behind its arrow.
pub fn lambda_front(
    alloc: Global,
    tokens: &[Terminal],
) -> Result<Option<(Vec<Param>, &[Terminal])>, AllocError>
    ensures { IfOk result (λ o. MatchOption o (NoLambda tokens.now) (λ x. IsLambda tokens.now x.0.items x.1.now)) }
{
    let (params, after) = read_params(alloc, tokens)?;
    if params.is_empty() {
        return Ok(None);
    }
    match behind(Mark::Arrow, after) {
        None => Ok(None),
        Some(body) => Ok(Some((params, body))),
    }
}

/// The name of a `use` at the front.
fn used_front(tokens: &[Terminal]) -> Option<(&Written, &[Terminal])>
    ensures { MatchOption result (ends_used tokens.now ≡ true) (λ x. IsUsedFront tokens.now x.0.now x.1.now) }
{
    match first(tokens) {
        None => None,
        Some((t, rest)) => match word_of(t) {
            Some(w) => Some((w, rest)),
            None => match operator_of(t) {
                Some(w) => Some((w, rest)),
                None => None,
            },
        },
    }
}

/// All names of a `use` at the front.
fn read_used(alloc: Global, tokens: &[Terminal]) -> Result<(Vec<Written>, &[Terminal]), AllocError>
    ensures found { IfOk result (λ x. ReadsUsed tokens.now x.0.items x.1.now) }
    ensures ends { IfOk result (λ x. ends_used x.1.now ≡ true) }
{
    let mut names = Vec::new(alloc);
    let mut rest = tokens;
    'names: while let Some((name, after)) = used_front(rest) {
        names.push(name.copy(alloc)?)?;
        rest = after;
    }
    Ok((names, rest))
}

/// What an item begins with, and the tokens behind it.
#[derive(Drop)]
pub enum ItemFront<'a> {
    Used(Place, Written, Vec<Written>, &'a [Terminal]),
    Signed(Head, &'a [Terminal]),
    Prefix(Head, Vec<Param>, &'a [Terminal]),
    Infix(Param, Written, Param, &'a [Terminal]),
    Other,
}

/// The `use` at the front, with all its names.
fn use_front(
    alloc: Global,
    tokens: &[Terminal],
) -> Result<Option<(Place, Written, Vec<Written>, &[Terminal])>, AllocError>
    ensures { IfOk result (λ o. MatchOption o (NoUse tokens.now)
        (λ x. IsUse tokens.now x.0 x.1 x.2.items x.3.now × (ends_used x.3.now ≡ true))) }
{
    match use_path(tokens) {
        None => Ok(None),
        Some((place, path, after)) => {
            let path = path.copy(alloc)?;
            let (names, rest) = read_used(alloc, after)?;
            Ok(Some((place, path, names, rest)))
        }
    }
}

/// The `use` at the front and its path.
fn use_path(tokens: &[Terminal]) -> Option<(Place, &Written, &[Terminal])>
    ensures { MatchOption result (NoUse tokens.now) (λ x. IsUsePath tokens.now x.0 x.1.now x.2.now) }
{
    match first(tokens) {
        None => None,
        Some((word, after)) => match use_of(word) {
            None => None,
            Some(place) => match first(after) {
                None => None,
                Some((t, rest)) => match path_of(t) {
                    None => None,
                    Some(path) => Some((place, path, rest)),
                },
            },
        },
    }
}

/// The operator in brackets at the front, behind the opening one.
pub fn bracketed_operator(tokens: &[Terminal]) -> Option<(&Written, &[Terminal])>
    ensures { MatchOption result
        ((t : Seen) (w : WrittenSeen) (us : List Seen) → tokens.now ≡ t ∷ Right ∷ us → IsOperator t w → ⊥)
        (λ x. (t : Seen) × (tokens.now ≡ t ∷ Right ∷ x.1.now) × IsOperator t x.0.now) }
{
    match first(tokens) {
        None => None,
        Some((t, after)) => match operator_of(t) {
            None => None,
            Some(w) => match behind(Mark::Right, after) {
                None => None,
                Some(rest) => Some((w, rest)),
            },
        },
    }
}

/// The operator in brackets at the front, as a head.
fn bracketed_front(
    alloc: Global,
    tokens: &[Terminal],
) -> Result<Option<(Head, &[Terminal])>, AllocError>
    ensures { IfOk result (λ o. MatchOption o
        ((p : PlaceSeen) (t : Seen) (w : WrittenSeen) (us : List Seen) → tokens.now ≡ Left p ∷ t ∷ Right ∷ us → IsOperator t w → ⊥)
        (λ x. ReadsBound tokens.now x.0 x.1.now)) }
{
    match first(tokens) {
        None => Ok(None),
        Some((t, rest)) => match left_of(t) {
            None => Ok(None),
            Some(place) => match bracketed_operator(rest) {
                None => Ok(None),
                Some((w, after)) => Ok(Some((Head::Bracketed(place, w.copy(alloc)?), after))),
            },
        },
    }
}

/// The head of a binding at the front.
fn bound_front(
    alloc: Global,
    tokens: &[Terminal],
) -> Result<Option<(Head, &[Terminal])>, AllocError>
    ensures { IfOk result (λ o. MatchOption o ((h : HeadSeen) (us : List Seen) → ReadsBound tokens.now h us → ⊥)
        (λ x. ReadsBound tokens.now x.0 x.1.now)) }
{
    match first(tokens) {
        None => Ok(None),
        Some((t, rest)) => match path_of(t) {
            Some(w) => Ok(Some((Head::Path(w.copy(alloc)?), rest))),
            None => {
                let front = bracketed_front(alloc, tokens)?;
                match front {
                    None => Ok(None),
                    Some((head, after)) => Ok(Some((head, after))),
                }
            }
        },
    }
}

/// The head at the front.
fn head_front(alloc: Global, tokens: &[Terminal]) -> Result<Option<(Head, &[Terminal])>, AllocError>
    ensures { IfOk result (λ o. MatchOption o ((h : HeadSeen) (us : List Seen) → ReadsHead tokens.now h us → ⊥)
        (λ x. ReadsHead tokens.now x.0 x.1.now)) }
{
    match first(tokens) {
        None => Ok(None),
        Some((t, rest)) => match operator_of(t) {
            Some(w) => Ok(Some((Head::Operator(w.copy(alloc)?), rest))),
            None => {
                let front = bound_front(alloc, tokens)?;
                match front {
                    None => Ok(None),
                    Some((head, after)) => Ok(Some((head, after))),
                }
            }
        },
    }
}

/// The operator at the front.
fn operator_front(tokens: &[Terminal]) -> Option<(&Written, &[Terminal])>
    ensures { MatchOption result
        ((t : Seen) (w : WrittenSeen) (us : List Seen) → tokens.now ≡ t ∷ us → IsOperator t w → ⊥)
        (λ x. IsOperatorFront tokens.now x.0.now x.1.now) }
{
    match first(tokens) {
        None => None,
        Some((t, rest)) => match operator_of(t) {
            None => None,
            Some(w) => Some((w, rest)),
        },
    }
}

/// A head with its parameters and `=` at the front.
fn prefix_front(
    alloc: Global,
    tokens: &[Terminal],
) -> Result<Option<(Head, Vec<Param>, &[Terminal])>, AllocError>
    ensures { IfOk result (λ o. MatchOption o
        ((h : HeadSeen) (ps : List ParamSeen) (us : List Seen) → IsPrefix tokens.now h ps us → ⊥)
        (λ x. IsPrefix tokens.now x.0 x.1.items x.2.now)) }
{
    let bound = bound_front(alloc, tokens)?;
    match bound {
        None => Ok(None),
        Some((head, after)) => {
            let (params, last) = read_params(alloc, after)?;
            match behind(Mark::Equals, last) {
                None => Ok(None),
                Some(body) => Ok(Some((head, params, body))),
            }
        }
    }
}

/// A parameter and `=` at the front.
fn last_param(
    alloc: Global,
    tokens: &[Terminal],
) -> Result<Option<(Param, &[Terminal])>, AllocError>
    ensures { IfOk result (λ o. MatchOption o
        ((t : Seen) (p : ParamSeen) (us : List Seen) → tokens.now ≡ t ∷ Equals ∷ us → IsParam t p → ⊥)
        (λ x. (t : Seen) × (tokens.now ≡ t ∷ Equals ∷ x.1.now) × IsParam t x.0)) }
{
    let front = param_front(alloc, tokens)?;
    match front {
        None => Ok(None),
        Some((param, after)) => match behind(Mark::Equals, after) {
            None => Ok(None),
            Some(body) => Ok(Some((param, body))),
        },
    }
}

/// An operator between two parameters and `=` at the front.
fn infix_front(
    alloc: Global,
    tokens: &[Terminal],
) -> Result<Option<(Param, Written, Param, &[Terminal])>, AllocError>
    ensures { IfOk result (λ o. MatchOption o
        ((x : ParamSeen) (w : WrittenSeen) (y : ParamSeen) (us : List Seen) → IsInfix tokens.now x w y us → ⊥)
        (λ x. IsInfix tokens.now x.0 x.1 x.2 x.3.now)) }
{
    let front = param_front(alloc, tokens)?;
    match front {
        None => Ok(None),
        Some((left, after)) => match operator_front(after) {
            None => Ok(None),
            Some((w, rest)) => {
                let operator = w.copy(alloc)?;
                let right = last_param(alloc, rest)?;
                match right {
                    None => Ok(None),
                    Some((right, body)) => Ok(Some((left, operator, right, body))),
                }
            }
        },
    }
}

/// A head and `:` at the front.
fn signed_front(
    alloc: Global,
    tokens: &[Terminal],
) -> Result<Option<(Head, &[Terminal])>, AllocError>
    ensures { IfOk result (λ o. MatchOption o
        ((h : HeadSeen) (us : List Seen) → IsSigned tokens.now h us → ⊥) (λ x. IsSigned tokens.now x.0 x.1.now)) }
{
    let front = head_front(alloc, tokens)?;
    match front {
        None => Ok(None),
        Some((head, after)) => match behind(Mark::Colon, after) {
            None => Ok(None),
            Some(rest) => Ok(Some((head, rest))),
        },
    }
}

/// A binding's front, or none.
fn binding_front(alloc: Global, tokens: &[Terminal]) -> Result<ItemFront<'_>, AllocError>
    requires used { NoUse tokens.now }
    requires signature { (h : HeadSeen) (us : List Seen) → IsSigned tokens.now h us → ⊥ }
    ensures { IfOk result (λ x. IsItemFront tokens.now x) }
{
    let prefix = prefix_front(alloc, tokens)?;
    match prefix {
        Some((head, params, body)) => Ok(ItemFront::Prefix(head, params, body)),
        None => {
            let infix = infix_front(alloc, tokens)?;
            match infix {
                Some((left, operator, right, body)) => {
                    Ok(ItemFront::Infix(left, operator, right, body))
                }
                None => Ok(ItemFront::Other),
            }
        }
    }
}

/// What an item begins with.
pub fn item_front(alloc: Global, tokens: &[Terminal]) -> Result<ItemFront<'_>, AllocError>
    ensures { IfOk result (λ x. IsItemFront tokens.now x) }
{
    let used = use_front(alloc, tokens)?;
    match used {
        Some((place, path, names, rest)) => Ok(ItemFront::Used(place, path, names, rest)),
        None => {
            let signed = signed_front(alloc, tokens)?;
            match signed {
                Some((head, rest)) => Ok(ItemFront::Signed(head, rest)),
                None => {
                    let front = binding_front(alloc, tokens)?;
                    Ok(front)
                }
            }
        }
    }
}
