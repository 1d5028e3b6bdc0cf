//! Variables that terms use.
ghost use Rattle.std.specs.Prelude.{◌≡◌, ◌+◌, ◌<◌, ◌^◌, length};
ghost use Rattle.uc_kinds.specs.Typing as spec;
ghost use Rattle.uc_kinds.specs.Typing.{some_uses, some_case_uses, binders_in, binders_among};
ghost use Rattle.uc_tree.specs.Nodes.{term_nodes, terms_nodes, cases_nodes, pattern_nodes, patterns_nodes};
ghost use Rattle.uc_tree.specs.Patterns.{patterns_of};
ghost use Rattle.uc_tree.specs.TermViews.{cases_of};
ghost use Rattle.uc_tree.specs.Terms.{terms_of};

use uc_tree::{Case, Pattern, PatternNode, Term, TermNode};

/// How many variables a pattern binds.
#[cycle(binders)]
fn binders_in(pattern: &Pattern) -> u32
    requires { length (pattern_nodes pattern.now) < 2 ^ 32 }
    ensures { result ≡ binders_in pattern.now }
{
    match &pattern.node {
        PatternNode::Any | PatternNode::Literal(_) | PatternNode::Unit => 0,
        PatternNode::Var => 1,
        PatternNode::As(inside) => binders_in(inside) + 1,
        PatternNode::Tuple(parts) | PatternNode::List(parts) | PatternNode::Ctor(_, parts) => {
            binders_among(parts)
        }
        PatternNode::Cons(first, second) | PatternNode::Snoc(first, second) => {
            binders_in(first) + binders_in(second)
        }
    }
}

#[cycle(binders)]
fn binders_among(patterns: &[Pattern]) -> u32
    requires { length (patterns_nodes (patterns_of patterns.now)) < 2 ^ 32 }
    ensures { result ≡ binders_among (patterns_of patterns.now) }
{
    let mut count = 0;
    for pattern in patterns {
        count += binders_in(pattern);
    }
    count
}

/// Whether a term uses the variable that counts so many binders outwards.
#[cycle(uses)]
pub(crate) fn uses(variable: u32, term: &Term) -> bool
    requires { variable + length (term_nodes term.now) < 2 ^ 32 }
    ensures { result ≡ spec.uses variable term.now }
{
    match &term.node {
        TermNode::Var(index) => *index == variable,
        TermNode::Literal(_) | TermNode::Unit | TermNode::Link(_) => false,
        TermNode::Lambda(body) => uses(variable + 1, body),
        TermNode::Apply(first, second)
        | TermNode::And(first, second)
        | TermNode::Or(first, second) => uses(variable, first) || uses(variable, second),
        TermNode::Annotated(inside, _) => uses(variable, inside),
        TermNode::Tuple(parts) | TermNode::List(parts) => some_uses(variable, parts),
        TermNode::If(condition, consequent, alternative) => {
            uses(variable, condition) || uses(variable, consequent) || uses(variable, alternative)
        }
        TermNode::Let(_, bound, body) => uses(variable + 1, bound) || uses(variable + 1, body),
        TermNode::Match(subject, cases) => {
            uses(variable, subject) || some_case_uses(variable, cases)
        }
    }
}

#[cycle(uses)]
fn some_uses(variable: u32, terms: &[Term]) -> bool
    requires { variable + length (terms_nodes (terms_of terms.now)) < 2 ^ 32 }
    ensures { result ≡ some_uses variable (terms_of terms.now) }
{
    for term in terms {
        if uses(variable, term) {
            return true;
        }
    }
    false
}

#[cycle(uses)]
fn some_case_uses(variable: u32, cases: &[Case]) -> bool
    requires { variable + length (cases_nodes (cases_of cases.now)) < 2 ^ 32 }
    ensures { result ≡ some_case_uses variable (cases_of cases.now) }
{
    for case in cases {
        let inner = variable + binders_in(&case.pattern);
        if let Some(guard) = &case.guard {
            if uses(inner, guard) {
                return true;
            }
        }
        if uses(inner, &case.body) {
            return true;
        }
    }
    false
}
