//! Items of a file are read from their tokens.
ghost use Rattle.std.specs.Prelude.{◌≡◌, List, [], ◌∷◌, true, IfOk, IsErrOf, MatchOption};
ghost use Rattle.uc_scratch.specs.declared.stop.Stop.TheVariants.{Absent};
ghost use Rattle.uc_scratch.specs.declared.terminal.Terminal.{Terminal as Seen};
ghost use Rattle.uc_scratch.specs.declared.terminal.Terminal.TheVariants.{Greater};
ghost use Rattle.uc_scratch.specs.declared.written.Written.{Written as WrittenSeen};
ghost use Rattle.uc_scratch.specs.Exprs as expr;
ghost use Rattle.uc_scratch.specs.Exprs.{done};
ghost use Rattle.uc_scratch.specs.Files as plain;
ghost use Rattle.uc_scratch.specs.FileViews.{declaration_of, item_of};
ghost use Rattle.uc_scratch.specs.Fronts.{NoFront};
ghost use Rattle.uc_scratch.specs.TypeExprs as type_expr;
ghost use Rattle.uc_scratch.specs.TypeGrammar.{ReadsType};
ghost use Rattle.uc_scratch.specs.ExprGrammar.{ReadsExpr, ReadsBlock};
ghost use Rattle.uc_scratch.specs.ItemGrammar.{ReadsItem};
ghost use Rattle.uc_scratch.specs.ItemParts.{IsBehindMark, NoItem, IsDeclaration};
ghost use Rattle.uc_scratch.specs.Nesting.{fits};

use crate::block::{Binding, BindingFront, Block, Signature, Use};
use crate::expr::Expr;
use crate::file::{Item, Watch};
use crate::front::behind_item;
use crate::heads::{ItemFront, item_front};
use crate::read_declarations::read_declaration;
use crate::read_exprs::{read_block, read_expr};
use crate::read_types::read_type;
use crate::stop::Stop;
use crate::terminal::Terminal;
use crate::type_expr::TypeExpr;
use crate::written::Written;
use std::alloc::Global;

#[cfg(test)]
mod tests;

/// How many levels of brackets and blocks may be open at once.
const LEVELS: u32 = 128;

/// A type that is all of the tokens.
fn whole_type(alloc: Global, depth: u32, tokens: &[Terminal]) -> Result<TypeExpr, Stop>
    requires { fits depth tokens.now ≡ true }
    ensures found { IfOk result (λ t. ReadsType tokens.now t []) }
    ensures none { IsErrOf result Absent → (t : type_expr.TypeExpr) → ReadsType tokens.now t [] → ⊥ }
{
    let (of, rest) = read_type(alloc, depth, tokens)?;
    if !rest.is_empty() {
        return Err(Stop::Absent);
    }
    Ok(of)
}

/// An expression that is all of the tokens.
fn whole_expr(alloc: Global, depth: u32, tokens: &[Terminal]) -> Result<Expr, Stop>
    requires { fits depth tokens.now ≡ true }
    ensures found { IfOk result (λ e. ReadsExpr tokens.now e [] done) }
    ensures none { IsErrOf result Absent → (e : expr.Expr) → ReadsExpr tokens.now e [] done → ⊥ }
{
    let (expr, rest) = read_expr(alloc, depth, tokens)?;
    if !rest.is_empty() {
        return Err(Stop::Absent);
    }
    Ok(expr)
}

/// A block that is all of the tokens.
fn whole_block(alloc: Global, depth: u32, tokens: &[Terminal]) -> Result<Block, Stop>
    requires { fits depth tokens.now ≡ true }
    ensures found { IfOk result (λ b. ReadsBlock tokens.now b []) }
    ensures none { IsErrOf result Absent → (b : expr.Block) → ReadsBlock tokens.now b [] → ⊥ }
{
    let (block, rest) = read_block(alloc, depth, tokens)?;
    if !rest.is_empty() {
        return Err(Stop::Absent);
    }
    Ok(block)
}

/// What stands behind `>`.
fn watch_front(tokens: &[Terminal]) -> Option<(&Written, &[Terminal])>
    ensures { MatchOption result
        ((w : WrittenSeen) (us : List Seen) → tokens.now ≡ Greater w ∷ us → ⊥)
        (λ x. tokens.now ≡ Greater x.0.now ∷ x.1.now) }
{
    match tokens {
        [Terminal::Greater(w), rest @ ..] => Some((w, rest)),
        _ => None,
    }
}

/// A watch or a declaration.
fn read_other(alloc: Global, depth: u32, tokens: &[Terminal]) -> Result<Item, Stop>
    requires levels { fits depth tokens.now ≡ true }
    requires front { NoFront tokens.now }
    ensures found { IfOk result (λ item. IsBehindMark tokens.now (item_of item)) }
    ensures none { IsErrOf result Absent → NoItem tokens.now }
{
    match watch_front(tokens) {
        Some((word, rest)) => {
            let of = whole_expr(alloc, depth, rest)?;
            let place = word.place;
            Ok(Item::Watch(Watch { place, of }))
        }
        None => {
            let declaration = read_declaration(alloc, depth, tokens)?;
            Ok(Item::Declaration(declaration))
        }
    }
}

/// An item behind its mark.
fn read_behind(alloc: Global, depth: u32, tokens: &[Terminal]) -> Result<Item, Stop>
    requires { fits depth tokens.now ≡ true }
    ensures found { IfOk result (λ item. IsBehindMark tokens.now (item_of item)) }
    ensures none { IsErrOf result Absent → NoItem tokens.now }
{
    let front = item_front(alloc, tokens)?;
    match front {
        ItemFront::Used(place, path, names, rest) => {
            if !rest.is_empty() {
                return Err(Stop::Absent);
            }
            Ok(Item::Use(Use { place, path, names }))
        }
        ItemFront::Signed(head, types) => {
            let of = whole_type(alloc, depth, types)?;
            Ok(Item::Signature(Signature { head, of }))
        }
        ItemFront::Prefix(head, params, start) => {
            let body = whole_block(alloc, depth, start)?;
            let front = BindingFront::Prefix(head, params);
            Ok(Item::Binding(Binding { front, body }))
        }
        ItemFront::Infix(left, operator, right, start) => {
            let body = whole_block(alloc, depth, start)?;
            let front = BindingFront::Infix(left, operator, right);
            Ok(Item::Binding(Binding { front, body }))
        }
        ItemFront::Other => {
            let item = read_other(alloc, depth, tokens)?;
            Ok(item)
        }
    }
}

/// The item of a file whose tokens these are, its mark in front.
pub fn read_item(alloc: Global, tokens: &[Terminal]) -> Result<Item, Stop>
    requires { fits 128 tokens.now ≡ true }
    ensures found { IfOk result (λ item. ReadsItem tokens.now (item_of item)) }
    ensures none { IsErrOf result Absent → (i : plain.Item) → ReadsItem tokens.now i → ⊥ }
{
    match behind_item(tokens) {
        None => Err(Stop::Absent),
        Some((_, inside)) => {
            let item = read_behind(alloc, LEVELS, inside)?;
            Ok(item)
        }
    }
}
