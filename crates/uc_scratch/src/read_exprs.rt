//! Readers of expressions, cases and blocks.
ghost use Rattle.std.specs.Prelude.{◌≡◌, ℕ, ◌≤◌, ◌<◌, true, List, [], ◌∷◌, IfOk, IsErrOf};
ghost use Rattle.uc_base.specs.declared.place.Place.{Place as PlaceSeen};
ghost use Rattle.uc_scratch.specs.declared.stop.Stop.TheVariants.{Absent};
ghost use Rattle.uc_scratch.specs.declared.terminal.Terminal.{Terminal as Seen};
ghost use Rattle.uc_scratch.specs.declared.terminal.Terminal.TheVariants.{Left, LeftSquare, Arrow};
ghost use Rattle.uc_scratch.specs.declared.walk.Stage.{Stage as StageSeen};
ghost use Rattle.uc_scratch.specs.declared.walk.Stage.TheVariants.{Start, Operand, Atoms};
ghost use Rattle.uc_scratch.specs.declared.walk.Form.{Form as FormSeen};
ghost use Rattle.uc_scratch.specs.Exprs as plain;
ghost use Rattle.uc_scratch.specs.Exprs.{done, exprs_of};
ghost use Rattle.uc_scratch.specs.ExprViews.{atom_of, cases_of, expr_of, entry_before};
ghost use Rattle.uc_scratch.specs.ExprGrammar.{ReadsExpr, ReadsOr, ReadsAtom, ReadsExprs, ReadsCases, ReadsCaseItems, ReadsBlock, ReadsBlockItems};
ghost use Rattle.uc_scratch.specs.Follows as follows;
ghost use Rattle.uc_scratch.specs.Marks.{mark_terminal, IsRight};
ghost use Rattle.uc_scratch.specs.Nesting.{fits};
ghost use Rattle.uc_scratch.specs.Walks.{Walks, MayStart, TakesAtom, EndsExpr, EndsAt, LeadsOut, Stays};
ghost use Rattle.uc_scratch.specs.Moves.{IsMove, IsPart, IsConnective, IsInside, ReadsCase, NoCase, ReadsGuarded, NoGuarded, ReadsTested, NoTested, IsLine, NoLine};

use crate::block::{Binding, BindingFront, Block, Case, Entry, Signature, Use};
use crate::expr::{Atom, Expr, Step};
use crate::forms::Forms;
use crate::front::{Mark, behind, behind_item, ends_case, first, reach};
use crate::heads::{ItemFront, bracketed_operator, item_front, lambda_front, operator_of, path_of};
use crate::read_patterns::read_pattern;
use crate::read_types::read_type;
use crate::signed::name_of;
use crate::stop::Stop;
use crate::terminal::{Terminal, is_single};
use crate::walk::{Form, Stage};
use std::alloc::Global;
use uc_base::Place;

/// What a reader finds at a stage of an expression.
#[derive(Drop)]
pub enum Move<'a> {
    /// A step, the stage behind it, and the tokens there.
    Takes(Step, Stage, &'a [Terminal]),
    /// A step that begins the condition or the subject of a form.
    Opens(Form, Step, &'a [Terminal]),
    /// Nothing that goes on.
    Ends,
}

/// A connective at the front.
fn connective(alloc: Global, tokens: &[Terminal]) -> Result<Move<'_>, Stop>
    ensures found { IfOk result (λ m. IsConnective tokens.now m) }
    ensures never { IsErrOf result Absent → ⊥ }
{
    match first(tokens) {
        None => Ok(Move::Ends),
        Some((t, rest)) => match operator_of(t) {
            Some(w) => Ok(Move::Takes(Step::Operator(w.copy(alloc)?), Stage::Operand, rest)),
            None => match t {
                Terminal::AndAnd => Ok(Move::Takes(Step::And, Stage::Operand, rest)),
                Terminal::OrOr => Ok(Move::Takes(Step::Or, Stage::Operand, rest)),
                _ => Ok(Move::Ends),
            },
        },
    }
}

/// A form at the front.
#[cycle(reading)]
fn read_form(alloc: Global, depth: u32, tokens: &[Terminal]) -> Result<Move<'_>, Stop>
    requires levels { fits depth tokens.now ≡ true }
    requires form { follows.reach tokens.now ≡ 1 }
    ensures found { IfOk result (λ m. IsPart tokens.now m) }
    ensures none { IsErrOf result Absent → (s : StageSeen) → TakesAtom s → Stays s tokens.now }
{
    match first(tokens) {
        None => Err(Stop::Absent),
        Some((t, rest)) => match t {
            Terminal::If(place) => Ok(Move::Opens(Form::If, Step::If(*place), rest)),
            Terminal::Match(place) => Ok(Move::Opens(Form::Match, Step::Match(*place), rest)),
            Terminal::Cases(place) => {
                let (cases, after) = read_cases(alloc, depth, rest)?;
                Ok(Move::Takes(Step::Cases(*place, cases), Stage::Formed, after))
            }
            Terminal::Let(place) => {
                let (block, after) = read_block(alloc, depth, rest)?;
                Ok(Move::Takes(Step::Let(*place, block), Stage::Formed, after))
            }
            _ => Err(Stop::Absent),
        },
    }
}

/// An atom or a form at the front, or none.
#[cycle(reading)]
fn read_part(alloc: Global, depth: u32, tokens: &[Terminal]) -> Result<Move<'_>, Stop>
    requires { fits depth tokens.now ≡ true }
    ensures found { IfOk result (λ m. IsPart tokens.now m) }
    ensures none { IsErrOf result Absent → (s : StageSeen) → TakesAtom s → Stays s tokens.now }
{
    match reach(tokens) {
        0 => {
            let (atom, after) = read_atom(alloc, depth, tokens)?;
            Ok(Move::Takes(Step::Atom(atom), Stage::Atoms, after))
        }
        1 => {
            let form = read_form(alloc, depth, tokens)?;
            Ok(form)
        }
        _ => Ok(Move::Ends),
    }
}

/// The move at the beginning of an operand.
#[cycle(reading)]
fn read_first(alloc: Global, depth: u32, tokens: &[Terminal]) -> Result<Move<'_>, Stop>
    requires { fits depth tokens.now ≡ true }
    ensures found { IfOk result (λ m. IsMove Operand tokens.now m) }
    ensures none { IsErrOf result Absent → Stays Operand tokens.now }
{
    let part = read_part(alloc, depth, tokens)?;
    match part {
        Move::Takes(step, stage, after) => Ok(Move::Takes(step, stage, after)),
        Move::Opens(form, step, after) => Ok(Move::Opens(form, step, after)),
        Move::Ends => Err(Stop::Absent),
    }
}

/// The move behind an atom.
#[cycle(reading)]
fn read_next(alloc: Global, depth: u32, tokens: &[Terminal]) -> Result<Move<'_>, Stop>
    requires { fits depth tokens.now ≡ true }
    ensures found { IfOk result (λ m. IsMove Atoms tokens.now m) }
    ensures none { IsErrOf result Absent → Stays Atoms tokens.now }
{
    let part = read_part(alloc, depth, tokens)?;
    match part {
        Move::Takes(step, stage, after) => Ok(Move::Takes(step, stage, after)),
        Move::Opens(form, step, after) => Ok(Move::Opens(form, step, after)),
        Move::Ends => {
            let next = connective(alloc, tokens)?;
            Ok(next)
        }
    }
}

/// The move at the beginning of an expression.
#[cycle(reading)]
fn read_start(alloc: Global, depth: u32, tokens: &[Terminal]) -> Result<Move<'_>, Stop>
    requires { fits depth tokens.now ≡ true }
    ensures found { IfOk result (λ m. IsMove Start tokens.now m) }
    ensures none { IsErrOf result Absent → Stays Start tokens.now }
{
    let front = lambda_front(alloc, tokens)?;
    match front {
        Some((params, body)) => {
            let (block, after) = read_block(alloc, depth, body)?;
            Ok(Move::Takes(Step::Lambda(params, block), Stage::Whole, after))
        }
        None => {
            let next = read_first(alloc, depth, tokens)?;
            Ok(next)
        }
    }
}

/// The move at a stage.
#[cycle(reading)]
fn read_move(alloc: Global, depth: u32, stage: Stage, tokens: &[Terminal]) -> Result<Move<'_>, Stop>
    requires { fits depth tokens.now ≡ true }
    ensures found { IfOk result (λ m. IsMove stage tokens.now m) }
    ensures none { IsErrOf result Absent → Stays stage tokens.now }
{
    match stage {
        Stage::Start => {
            let next = read_start(alloc, depth, tokens)?;
            Ok(next)
        }
        Stage::Operand => {
            let next = read_first(alloc, depth, tokens)?;
            Ok(next)
        }
        Stage::Atoms => {
            let next = read_next(alloc, depth, tokens)?;
            Ok(next)
        }
        Stage::Formed => {
            let next = connective(alloc, tokens)?;
            Ok(next)
        }
        Stage::Whole => Ok(Move::Ends),
    }
}

/// What ends the condition or the subject of a form.
#[cycle(reading)]
fn read_end(
    alloc: Global,
    depth: u32,
    stage: Stage,
    form: Form,
    tokens: &[Terminal],
) -> Result<(Step, &[Terminal]), Stop>
    requires levels { fits depth tokens.now ≡ true }
    requires at { EndsAt stage (follows.reach tokens.now) }
    requires ends { EndsExpr stage }
    ensures found { IfOk result (λ x. LeadsOut stage form tokens.now x.0 x.1.now) }
    ensures none { IsErrOf result Absent → (n : ℕ) (fs : List FormSeen) (e : plain.Expr) (vs : List Seen)
        → Walks n stage (form ∷ fs) tokens.now e vs → ⊥ }
{
    match form {
        Form::If => match behind(Mark::Then, tokens) {
            None => Err(Stop::Absent),
            Some(rest) => {
                let (consequent, middle) = read_block(alloc, depth, rest)?;
                match behind(Mark::Else, middle) {
                    None => Err(Stop::Absent),
                    Some(other) => {
                        let (alternative, after) = read_block(alloc, depth, other)?;
                        Ok((Step::Then(consequent, alternative), after))
                    }
                }
            }
        },
        Form::Match => match behind(Mark::With, tokens) {
            None => Err(Stop::Absent),
            Some(rest) => {
                let (cases, after) = read_cases(alloc, depth, rest)?;
                Ok((Step::With(cases), after))
            }
        },
    }
}

/// The steps at the front from a stage on, up to a token that goes on with nothing below a number.
#[cycle(reading)]
fn read_steps(
    alloc: Global,
    depth: u32,
    start: Stage,
    end: u8,
    tokens: &[Terminal],
) -> Result<(Expr, &[Terminal]), Stop>
    requires levels { fits depth tokens.now ≡ true }
    requires end { 5 ≤ end }
    requires start { MayStart end start [] }
    ensures found { IfOk result (λ x. Walks end start [] tokens.now x.0 x.1.now) }
    ensures ends { IfOk result (λ x. end ≤ follows.reach x.1.now) }
    ensures none { IsErrOf result Absent → (e : plain.Expr) (us : List Seen) → Walks end start [] tokens.now e us → ⊥ }
{
    let mut steps = Vec::new(alloc);
    let mut forms = Forms::new(alloc);
    let mut stage = start;
    let mut rest = tokens;
    'steps: loop {
        let next = read_move(alloc, depth, stage, rest)?;
        match next {
            Move::Takes(step, behind_step, after) => {
                steps.push(step)?;
                stage = behind_step;
                rest = after;
            }
            Move::Opens(form, step, after) => {
                steps.push(step)?;
                forms.push(form)?;
                stage = Stage::Start;
                rest = after;
            }
            Move::Ends => match forms.pop() {
                None => {
                    if reach(rest) < end {
                        return Err(Stop::Absent);
                    }
                    return Ok((Expr { steps }, rest));
                }
                Some(form) => {
                    let (step, after) = read_end(alloc, depth, stage, form, rest)?;
                    steps.push(step)?;
                    stage = Stage::Formed;
                    rest = after;
                }
            },
        }
    }
}

/// The expression at the front, with all that can go on with it.
#[cycle(reading)]
pub fn read_expr(
    alloc: Global,
    depth: u32,
    tokens: &[Terminal],
) -> Result<(Expr, &[Terminal]), Stop>
    requires { fits depth tokens.now ≡ true }
    ensures found { IfOk result (λ x. ReadsExpr tokens.now x.0 x.1.now done) }
    ensures ends { IfOk result (λ x. 6 ≤ follows.reach x.1.now) }
    ensures none { IsErrOf result Absent → (e : plain.Expr) (us : List Seen) → ReadsExpr tokens.now e us done → 6 ≤ follows.reach us → ⊥ }
{
    let (expr, rest) = read_steps(alloc, depth, Stage::Start, 6, tokens)?;
    Ok((expr, rest))
}

/// The expression that is no lambda at the front, with all that can go on with it.
#[cycle(reading)]
fn read_or(alloc: Global, depth: u32, tokens: &[Terminal]) -> Result<(Expr, &[Terminal]), Stop>
    requires { fits depth tokens.now ≡ true }
    ensures found { IfOk result (λ x. ReadsOr tokens.now x.0 x.1.now done) }
    ensures ends { IfOk result (λ x. 5 ≤ follows.reach x.1.now) }
    ensures none { IsErrOf result Absent → (e : plain.Expr) (us : List Seen) → ReadsOr tokens.now e us done → 5 ≤ follows.reach us → ⊥ }
{
    let (expr, rest) = read_steps(alloc, depth, Stage::Operand, 5, tokens)?;
    Ok((expr, rest))
}

/// The atom at the front.
#[cycle(reading)]
fn read_atom(alloc: Global, depth: u32, tokens: &[Terminal]) -> Result<(Atom, &[Terminal]), Stop>
    requires { fits depth tokens.now ≡ true }
    ensures found { IfOk result (λ x. ReadsAtom tokens.now (atom_of x.0) x.1.now) }
    ensures none { IsErrOf result Absent → (a : plain.Atom) (us : List Seen) → ReadsAtom tokens.now a us → ⊥ }
{
    match first(tokens) {
        None => Err(Stop::Absent),
        Some((t, rest)) => match path_of(t) {
            Some(w) => Ok((Atom::Path(w.copy(alloc)?), rest)),
            None => match t {
                Terminal::Literal(literal) => Ok((Atom::Literal(literal.copy(alloc)?), rest)),
                Terminal::Reference(reference) => {
                    Ok((Atom::Reference(reference.copy(alloc)?), rest))
                }
                Terminal::Left(place) => {
                    let (atom, after) = read_round(alloc, depth - 1, *place, rest)?;
                    Ok((atom, after))
                }
                Terminal::LeftSquare(place) => {
                    let (atom, after) = read_square(alloc, depth - 1, *place, rest)?;
                    Ok((atom, after))
                }
                _ => Err(Stop::Absent),
            },
        },
    }
}

/// What stands in round brackets, behind the opening one.
#[cycle(reading)]
fn read_round(
    alloc: Global,
    depth: u32,
    place: Place,
    tokens: &[Terminal],
) -> Result<(Atom, &[Terminal]), Stop>
    requires { fits depth tokens.now ≡ true }
    ensures found { IfOk result (λ x. ReadsAtom (Left place ∷ tokens.now) (atom_of x.0) x.1.now) }
    ensures none { IsErrOf result Absent → (a : plain.Atom) (us : List Seen) → ReadsAtom (Left place ∷ tokens.now) a us → ⊥ }
{
    if let Some(rest) = behind(Mark::Right, tokens) {
        return Ok((Atom::Unit(place), rest));
    }
    match bracketed_operator(tokens) {
        Some((w, rest)) => Ok((Atom::Operator(place, w.copy(alloc)?), rest)),
        None => {
            let (atom, rest) = read_inside(alloc, depth, place, tokens)?;
            Ok((atom, rest))
        }
    }
}

/// An expression in brackets, an annotation or a tuple, behind the opening bracket.
#[cycle(reading)]
fn read_inside(
    alloc: Global,
    depth: u32,
    place: Place,
    tokens: &[Terminal],
) -> Result<(Atom, &[Terminal]), Stop>
    requires { fits depth tokens.now ≡ true }
    ensures found { IfOk result (λ x. ReadsAtom (Left place ∷ tokens.now) (atom_of x.0) x.1.now) }
    ensures none { IsErrOf result Absent → (a : plain.Atom) (us : List Seen) → IsInside place tokens.now a us → ⊥ }
{
    let (expr, after) = read_expr(alloc, depth, tokens)?;
    match behind(Mark::Right, after) {
        Some(rest) => {
            let expr = Box::new(alloc, expr)?;
            Ok((Atom::Group(place, expr), rest))
        }
        None => match behind(Mark::Colon, after) {
            Some(types) => {
                let (of, last) = read_type(alloc, depth, types)?;
                match behind(Mark::Right, last) {
                    None => Err(Stop::Absent),
                    Some(rest) => {
                        let expr = Box::new(alloc, expr)?;
                        Ok((Atom::Annotated(place, expr, of), rest))
                    }
                }
            }
            None => match behind(Mark::Comma, after) {
                None => Err(Stop::Absent),
                Some(others) => {
                    let (mut parts, rest) = read_exprs(alloc, depth, Mark::Right, others)?;
                    parts.insert(0, expr)?;
                    Ok((Atom::Tuple(place, parts), rest))
                }
            },
        },
    }
}

/// What stands in square brackets, behind the opening one.
#[cycle(reading)]
fn read_square(
    alloc: Global,
    depth: u32,
    place: Place,
    tokens: &[Terminal],
) -> Result<(Atom, &[Terminal]), Stop>
    requires { fits depth tokens.now ≡ true }
    ensures found { IfOk result (λ x. ReadsAtom (LeftSquare place ∷ tokens.now) (atom_of x.0) x.1.now) }
    ensures none { IsErrOf result Absent → (a : plain.Atom) (us : List Seen) → ReadsAtom (LeftSquare place ∷ tokens.now) a us → ⊥ }
{
    match behind(Mark::RightSquare, tokens) {
        Some(rest) => Ok((Atom::List(place, Vec::new(alloc)), rest)),
        None => {
            let (elements, rest) = read_exprs(alloc, depth, Mark::RightSquare, tokens)?;
            Ok((Atom::List(place, elements), rest))
        }
    }
}

/// Expressions with commas between, up to a closing bracket.
#[cycle(reading)]
fn read_exprs(
    alloc: Global,
    depth: u32,
    close: Mark,
    tokens: &[Terminal],
) -> Result<(Vec<Expr>, &[Terminal]), Stop>
    requires levels { fits depth tokens.now ≡ true }
    requires close { IsRight (mark_terminal close) }
    ensures found { IfOk result (λ x. ReadsExprs (mark_terminal close) tokens.now (exprs_of x.0.items) x.1.now) }
    ensures none { IsErrOf result Absent → (es : plain.Exprs) (us : List Seen) → ReadsExprs (mark_terminal close) tokens.now es us → ⊥ }
{
    let mut exprs = Vec::new(alloc);
    let mut rest = tokens;
    'exprs: loop {
        let (expr, after) = read_expr(alloc, depth, rest)?;
        exprs.push(expr)?;
        match behind(Mark::Comma, after) {
            Some(next) => rest = next,
            None => match behind(close, after) {
                None => return Err(Stop::Absent),
                Some(last) => return Ok((exprs, last)),
            },
        }
    }
}

/// The block of cases at the front.
#[cycle(reading)]
fn read_cases(
    alloc: Global,
    depth: u32,
    tokens: &[Terminal],
) -> Result<(Vec<Case>, &[Terminal]), Stop>
    requires { fits depth tokens.now ≡ true }
    ensures found { IfOk result (λ x. ReadsCases tokens.now (cases_of x.0.items) x.1.now) }
    ensures none { IsErrOf result Absent → (cs : plain.Cases) (us : List Seen) → ReadsCases tokens.now cs us → ⊥ }
{
    match behind(Mark::Opens, tokens) {
        None => Err(Stop::Absent),
        Some(inside) => {
            let (cases, rest) = read_case_items(alloc, depth - 1, inside)?;
            if cases.is_empty() {
                return Err(Stop::Absent);
            }
            Ok((cases, rest))
        }
    }
}

/// Cases up to the end of their block.
#[cycle(reading)]
fn read_case_items(
    alloc: Global,
    depth: u32,
    tokens: &[Terminal],
) -> Result<(Vec<Case>, &[Terminal]), Stop>
    requires { fits depth tokens.now ≡ true }
    ensures found { IfOk result (λ x. ReadsCaseItems tokens.now (cases_of x.0.items) x.1.now) }
    ensures none { IsErrOf result Absent → (cs : plain.Cases) (us : List Seen) → ReadsCaseItems tokens.now cs us → ⊥ }
{
    let mut cases = Vec::new(alloc);
    let mut rest = tokens;
    'cases: loop {
        match behind_item(rest) {
            None => match behind(Mark::Closes, rest) {
                None => return Err(Stop::Absent),
                Some(last) => return Ok((cases, last)),
            },
            Some((_, item)) => {
                let (case, after) = read_case(alloc, depth, item)?;
                cases.push(case)?;
                rest = after;
            }
        }
    }
}

/// A case at the front, with its end behind it.
#[cycle(reading)]
fn read_case(alloc: Global, depth: u32, tokens: &[Terminal]) -> Result<(Case, &[Terminal]), Stop>
    requires { fits depth tokens.now ≡ true }
    ensures found { IfOk result (λ x. ReadsCase tokens.now x.0.pattern x.0.guard x.0.body x.1.now) }
    ensures ends { IfOk result (λ x. follows.ends_case x.1.now ≡ true) }
    ensures none { IsErrOf result Absent → NoCase tokens.now }
{
    let (pattern, after) = read_pattern(alloc, depth, tokens)?;
    match behind(Mark::Arrow, after) {
        Some(start) => {
            let (body, rest) = read_block(alloc, depth, start)?;
            if !ends_case(rest) {
                return Err(Stop::Absent);
            }
            let guard = None;
            Ok((
                Case {
                    pattern,
                    guard,
                    body,
                },
                rest,
            ))
        }
        None => match behind(Mark::Bar, after) {
            None => Err(Stop::Absent),
            Some(start) => {
                let (guard, body, rest) = read_guarded(alloc, depth, start)?;
                if !ends_case(rest) {
                    return Err(Stop::Absent);
                }
                let guard = Some(guard);
                Ok((
                    Case {
                        pattern,
                        guard,
                        body,
                    },
                    rest,
                ))
            }
        },
    }
}

/// A guard with its arrow and the body behind. The words before an arrow may be the parameters of a lambda or an
/// application: they are a lambda where an arrow follows its block too.
#[cycle(reading)]
fn read_guarded(
    alloc: Global,
    depth: u32,
    tokens: &[Terminal],
) -> Result<(Expr, Block, &[Terminal]), Stop>
    requires { fits depth tokens.now ≡ true }
    ensures found { IfOk result (λ x. ReadsGuarded tokens.now x.0 x.1 x.2.now) }
    ensures only { IfOk result (λ x. (g : plain.Expr) (b : plain.Block) (us : List Seen)
        → ReadsGuarded tokens.now g b us → follows.ends_case us ≡ true → us ≡ x.2.now) }
    ensures none { IsErrOf result Absent → NoGuarded tokens.now }
{
    let front = lambda_front(alloc, tokens)?;
    match front {
        None => {
            let (guard, body, rest) = read_tested(alloc, depth, tokens)?;
            Ok((guard, body, rest))
        }
        Some((params, start)) => {
            let (block, after) = read_block(alloc, depth, start)?;
            match behind(Mark::Arrow, after) {
                None => {
                    let (guard, arrow) = read_or(alloc, depth, tokens)?;
                    match behind(Mark::Arrow, arrow) {
                        None => Err(Stop::Absent),
                        Some(_) => Ok((guard, block, after)),
                    }
                }
                Some(next) => {
                    let (body, rest) = read_block(alloc, depth, next)?;
                    let steps = vec![in alloc; Step::Lambda(params, block)]?;
                    Ok((Expr { steps }, body, rest))
                }
            }
        }
    }
}

/// A guard that is no lambda, with its arrow and the body behind.
#[cycle(reading)]
fn read_tested(
    alloc: Global,
    depth: u32,
    tokens: &[Terminal],
) -> Result<(Expr, Block, &[Terminal]), Stop>
    requires { fits depth tokens.now ≡ true }
    ensures found { IfOk result (λ x. ReadsTested tokens.now x.0 x.1 x.2.now) }
    ensures none { IsErrOf result Absent → NoTested tokens.now }
{
    let (guard, after) = read_or(alloc, depth, tokens)?;
    match behind(Mark::Arrow, after) {
        None => Err(Stop::Absent),
        Some(start) => {
            let (body, rest) = read_block(alloc, depth, start)?;
            Ok((guard, body, rest))
        }
    }
}

/// The block at the front.
#[cycle(reading)]
pub fn read_block(
    alloc: Global,
    depth: u32,
    tokens: &[Terminal],
) -> Result<(Block, &[Terminal]), Stop>
    requires { fits depth tokens.now ≡ true }
    ensures found { IfOk result (λ x. ReadsBlock tokens.now x.0 x.1.now) }
    ensures none { IsErrOf result Absent → (b : plain.Block) (us : List Seen) → ReadsBlock tokens.now b us → ⊥ }
{
    match behind(Mark::Opens, tokens) {
        None => Err(Stop::Absent),
        Some(inside) => {
            let (block, rest) = read_block_items(alloc, depth - 1, inside)?;
            Ok((block, rest))
        }
    }
}

/// The items of a block up to its end.
#[cycle(reading)]
fn read_block_items(
    alloc: Global,
    depth: u32,
    tokens: &[Terminal],
) -> Result<(Block, &[Terminal]), Stop>
    requires { fits depth tokens.now ≡ true }
    ensures found { IfOk result (λ x. ReadsBlockItems tokens.now x.0 x.1.now) }
    ensures none { IsErrOf result Absent → (b : plain.Block) (us : List Seen) → ReadsBlockItems tokens.now b us → ⊥ }
{
    let mut entries = Vec::new(alloc);
    let mut rest = tokens;
    'entries: loop {
        match behind_item(rest) {
            None => return Err(Stop::Absent),
            Some((_, item)) => {
                let line = read_line(alloc, depth, item)?;
                match line {
                    Line::Entry(entry, after) => {
                        entries.push(entry)?;
                        rest = after;
                    }
                    Line::Result(result_expr, last) => {
                        return Ok((
                            Block {
                                entries,
                                result: result_expr,
                            },
                            last,
                        ));
                    }
                }
            }
        }
    }
}

/// An item of a block: an entry, or the expression at its end with the end.
#[derive(Drop)]
pub enum Line<'a> {
    Entry(Entry, &'a [Terminal]),
    Result(Expr, &'a [Terminal]),
}

/// An item of a block, behind its mark.
#[cycle(reading)]
fn read_line(alloc: Global, depth: u32, tokens: &[Terminal]) -> Result<Line<'_>, Stop>
    requires { fits depth tokens.now ≡ true }
    ensures found { IfOk result (λ x. IsLine tokens.now x) }
    ensures none { IsErrOf result Absent → NoLine tokens.now }
{
    let front = item_front(alloc, tokens)?;
    match front {
        ItemFront::Used(place, path, names, rest) => {
            Ok(Line::Entry(Entry::Use(Use { place, path, names }), rest))
        }
        ItemFront::Signed(head, types) => {
            let (of, rest) = read_type(alloc, depth, types)?;
            Ok(Line::Entry(Entry::Signature(Signature { head, of }), rest))
        }
        ItemFront::Prefix(head, params, start) => {
            if !is_single(name_of(&head).text.as_slice()) {
                return Err(Stop::Absent);
            }
            let (body, rest) = read_block(alloc, depth, start)?;
            let front = BindingFront::Prefix(head, params);
            Ok(Line::Entry(Entry::Binding(Binding { front, body }), rest))
        }
        ItemFront::Infix(left, operator, right, start) => {
            if !is_single(operator.text.as_slice()) {
                return Err(Stop::Absent);
            }
            let (body, rest) = read_block(alloc, depth, start)?;
            let front = BindingFront::Infix(left, operator, right);
            Ok(Line::Entry(Entry::Binding(Binding { front, body }), rest))
        }
        ItemFront::Other => {
            let (expr, after) = read_expr(alloc, depth, tokens)?;
            match behind(Mark::Closes, after) {
                None => Err(Stop::Absent),
                Some(rest) => Ok(Line::Result(expr, rest)),
            }
        }
    }
}
