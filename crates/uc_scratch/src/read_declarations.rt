//! Declarations of types are read from tokens.
ghost use Rattle.std.specs.Prelude.{◌≡◌, List, ◌∷◌, true, IfOk, IsErrOf, MatchOption};
ghost use Rattle.uc_scratch.specs.declared.stop.Stop.TheVariants.{Absent};
ghost use Rattle.uc_scratch.specs.declared.file.DeclarationSort.{DeclarationSort as SortSeen};
ghost use Rattle.uc_base.specs.declared.place.Place.{Place as PlaceSeen};
ghost use Rattle.uc_scratch.specs.declared.terminal.Terminal.{Terminal as Seen};
ghost use Rattle.uc_scratch.specs.declared.terminal.Terminal.TheVariants.{LeftSquare, Equals, TypeWord, Unique};
ghost use Rattle.uc_scratch.specs.declared.written.Written.{Written as WrittenSeen};
ghost use Rattle.uc_scratch.specs.Files as plain;
ghost use Rattle.uc_scratch.specs.FileViews.{constructor_of, constructors_of, declaration_of};
ghost use Rattle.uc_scratch.specs.Follows.{ends_type_atoms};
ghost use Rattle.uc_scratch.specs.ItemGrammar as spec;
ghost use Rattle.uc_scratch.specs.ItemGrammar.{ReadsSort, ReadsConstructor, ReadsConstructors};
ghost use Rattle.uc_scratch.specs.TypeGrammar.{ReadsVariables};
ghost use Rattle.uc_scratch.specs.ItemParts.{IsInSquare, IsTag, IsTypeName, IsDeclared, IsDeclaration};
ghost use Rattle.uc_scratch.specs.Nesting.{fits};

use crate::file::{Constructor, Declaration, DeclarationSort};
use crate::front::{Mark, behind, first};
use crate::heads::{path_of, word_of};
use crate::read_types::{read_type_atoms, read_variables};
use crate::stop::Stop;
use crate::terminal::{Terminal, last_segment};
use crate::written::Written;
use std::alloc::{AllocError, Global};
use uc_base::{NAME_LIMIT, Place};

fn type_word_front(tokens: &[Terminal]) -> Option<(Place, &[Terminal])>
    ensures { MatchOption result
        ((p : PlaceSeen) (us : List Seen) → tokens.now ≡ TypeWord p ∷ us → ⊥)
        (λ x. tokens.now ≡ TypeWord x.0 ∷ x.1.now) }
{
    match tokens {
        [Terminal::TypeWord(place), rest @ ..] => Some((*place, rest)),
        _ => None,
    }
}

fn square_front(tokens: &[Terminal]) -> Option<(Place, &[Terminal])>
    ensures { MatchOption result
        ((p : PlaceSeen) (us : List Seen) → tokens.now ≡ LeftSquare p ∷ us → ⊥)
        (λ x. tokens.now ≡ LeftSquare x.0 ∷ x.1.now) }
{
    match tokens {
        [Terminal::LeftSquare(place), rest @ ..] => Some((*place, rest)),
        _ => None,
    }
}

/// A path in square brackets.
fn square_path(tokens: &[Terminal]) -> Option<(&Written, &[Terminal])>
    ensures { MatchOption result
        ((w : WrittenSeen) (us : List Seen) → IsInSquare tokens.now w us → ⊥)
        (λ x. IsInSquare tokens.now x.0.now x.1.now) }
{
    match square_front(tokens) {
        None => None,
        Some((_, inside)) => match first(inside) {
            None => None,
            Some((t, after)) => match path_of(t) {
                None => None,
                Some(w) => match behind(Mark::RightSquare, after) {
                    None => None,
                    Some(rest) => Some((w, rest)),
                },
            },
        },
    }
}

/// The tag in brackets, and what stands behind it and `type`.
fn tag_front(tokens: &[Terminal]) -> Option<(&Written, &[Terminal])>
    ensures { MatchOption result
        ((w : WrittenSeen) (us : List Seen) → IsTag tokens.now w us → ⊥)
        (λ x. IsTag tokens.now x.0.now x.1.now) }
{
    match square_path(tokens) {
        None => None,
        Some((tag, after)) => match type_word_front(after) {
            None => None,
            Some((_, rest)) => Some((tag, rest)),
        },
    }
}

/// The sort of a declaration that begins with `unique`, from behind that word.
fn unique_front(
    alloc: Global,
    place: Place,
    tokens: &[Terminal],
) -> Result<Option<(DeclarationSort, &[Terminal])>, AllocError>
    ensures { IfOk result (λ o. MatchOption o
        ((s : SortSeen) (us : List Seen) → ReadsSort (Unique place ∷ tokens.now) s us → ⊥)
        (λ x. ReadsSort (Unique place ∷ tokens.now) x.0 x.1.now)) }
{
    match type_word_front(tokens) {
        Some((_, rest)) => Ok(Some((DeclarationSort::Unique(place), rest))),
        None => match tag_front(tokens) {
            None => Ok(None),
            Some((tag, rest)) => {
                let tag = tag.copy(alloc)?;
                Ok(Some((DeclarationSort::Tagged(place, tag), rest)))
            }
        },
    }
}

/// The words before the name of a declared type.
fn sort_front(
    alloc: Global,
    tokens: &[Terminal],
) -> Result<Option<(DeclarationSort, &[Terminal])>, AllocError>
    ensures { IfOk result (λ o. MatchOption o
        ((s : SortSeen) (us : List Seen) → ReadsSort tokens.now s us → ⊥)
        (λ x. ReadsSort tokens.now x.0 x.1.now)) }
{
    match first(tokens) {
        None => Ok(None),
        Some((t, rest)) => match t {
            Terminal::TypeWord(place) => Ok(Some((DeclarationSort::Plain(*place), rest))),
            Terminal::Structural(place) => match type_word_front(rest) {
                None => Ok(None),
                Some((_, after)) => Ok(Some((DeclarationSort::Structural(*place), after))),
            },
            Terminal::Unique(place) => {
                let sort = unique_front(alloc, *place, rest)?;
                match sort {
                    None => Ok(None),
                    Some((sort, after)) => Ok(Some((sort, after))),
                }
            }
            _ => Ok(None),
        },
    }
}

/// Whether the last segment of a name begins with a capital letter.
fn is_type_name(text: &[u8]) -> bool
    ensures { result ≡ spec.is_type_name text.now }
{
    match last_segment(text) {
        [] => false,
        [c, ..] => matches!(*c, b'A'..=b'Z'),
    }
}

/// The name of a declared type.
fn type_name_front(tokens: &[Terminal]) -> Option<(&Written, &[Terminal])>
    ensures { MatchOption result
        ((w : WrittenSeen) (us : List Seen) → IsTypeName tokens.now w us → ⊥)
        (λ x. IsTypeName tokens.now x.0.now x.1.now) }
{
    match first(tokens) {
        None => None,
        Some((t, rest)) => match path_of(t) {
            None => None,
            Some(w) => {
                if is_type_name(w.text.as_slice()) {
                    Some((w, rest))
                } else {
                    None
                }
            }
        },
    }
}

/// The parameters of a declared type and `=`.
fn params_front(
    alloc: Global,
    tokens: &[Terminal],
) -> Result<Option<(Vec<Written>, &[Terminal])>, AllocError>
    ensures { IfOk result (λ o. MatchOption o
        ((ws : List WrittenSeen) (us : List Seen) → ReadsVariables tokens.now ws (Equals ∷ us) → ⊥)
        (λ x. ReadsVariables tokens.now x.0.items (Equals ∷ x.1.now))) }
{
    let (params, after) = read_variables(alloc, tokens)?;
    match behind(Mark::Equals, after) {
        None => Ok(None),
        Some(rest) => Ok(Some((params, rest))),
    }
}

/// A declaration up to its `=`.
fn declared_front(
    alloc: Global,
    tokens: &[Terminal],
) -> Result<(DeclarationSort, Written, Vec<Written>, &[Terminal]), Stop>
    ensures found { IfOk result (λ x. IsDeclared tokens.now x.0 x.1 x.2.items x.3.now) }
    ensures none { IsErrOf result Absent → (s : SortSeen) (w : WrittenSeen) (ws : List WrittenSeen) (us : List Seen)
        → IsDeclared tokens.now s w ws us → ⊥ }
{
    let front = sort_front(alloc, tokens)?;
    match front {
        None => Err(Stop::Absent),
        Some((sort, named)) => match type_name_front(named) {
            None => Err(Stop::Absent),
            Some((w, after)) => {
                let name = w.copy(alloc)?;
                let listed = params_front(alloc, after)?;
                match listed {
                    None => Err(Stop::Absent),
                    Some((params, rest)) => Ok((sort, name, params, rest)),
                }
            }
        },
    }
}

/// A constructor with all fields at the front.
fn read_constructor(
    alloc: Global,
    depth: u32,
    tokens: &[Terminal],
) -> Result<(Constructor, &[Terminal]), Stop>
    requires { fits depth tokens.now ≡ true }
    ensures found { IfOk result (λ x. ReadsConstructor tokens.now (constructor_of x.0) x.1.now) }
    ensures ends { IfOk result (λ x. ends_type_atoms x.1.now ≡ true) }
    ensures none { IsErrOf result Absent → (c : plain.Constructor) (us : List Seen)
        → ReadsConstructor tokens.now c us → ends_type_atoms us ≡ true → ⊥ }
{
    match first(tokens) {
        None => Err(Stop::Absent),
        Some((t, after)) => match word_of(t) {
            None => Err(Stop::Absent),
            Some(w) => {
                let name = w.copy(alloc)?;
                let (fields, rest) = read_type_atoms(alloc, depth, after)?;
                Ok((Constructor { name, fields }, rest))
            }
        },
    }
}

/// Constructors with bars between them, which are all of the tokens.
fn read_constructors(
    alloc: Global,
    depth: u32,
    tokens: &[Terminal],
) -> Result<Vec<Constructor>, Stop>
    requires { fits depth tokens.now ≡ true }
    ensures found { IfOk result (λ cs. ReadsConstructors tokens.now (constructors_of cs.items)) }
    ensures none { IsErrOf result Absent → (cs : List plain.Constructor) → ReadsConstructors tokens.now cs → ⊥ }
{
    let mut constructors = Vec::new(alloc);
    let mut rest = tokens;
    'constructors: loop {
        let (constructor, after) = read_constructor(alloc, depth, rest)?;
        constructors.push(constructor)?;
        if after.is_empty() {
            return Ok(constructors);
        }
        match behind(Mark::Bar, after) {
            None => return Err(Stop::Absent),
            Some(next) => rest = next,
        }
    }
}

/// Whether the whole names of a type's constructors are short enough for names.
fn names_fit(name: &Written, constructors: &[Constructor]) -> bool
    ensures { result ≡ spec.names_fit name.now (constructors_of constructors.now) }
{
    for constructor in constructors {
        let length = name.text.as_slice().len() + 1 + constructor.name.text.as_slice().len();
        if length > NAME_LIMIT {
            return false;
        }
    }
    true
}

/// The declaration whose tokens these are.
pub fn read_declaration(alloc: Global, depth: u32, tokens: &[Terminal]) -> Result<Declaration, Stop>
    requires { fits depth tokens.now ≡ true }
    ensures found { IfOk result (λ d. IsDeclaration tokens.now (declaration_of d)) }
    ensures none { IsErrOf result Absent → (i : plain.Item) → IsDeclaration tokens.now i → ⊥ }
{
    let (sort, name, params, rest) = declared_front(alloc, tokens)?;
    let constructors = read_constructors(alloc, depth, rest)?;
    if !names_fit(&name, constructors.as_slice()) {
        return Err(Stop::Absent);
    }
    Ok(Declaration {
        sort,
        name,
        params,
        constructors,
    })
}
