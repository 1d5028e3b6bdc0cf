//! How many nodes trees have; a count past the last u64 is that.
ghost use Rattle.std.specs.Prelude.{◌≡◌, ◌+◌, ◌-◌, ◌^◌, length, min};
ghost use Rattle.uc_tree.specs.declared.item.Item.TheVariants as item;
ghost use Rattle.uc_tree.specs.Nodes as nodes;
ghost use Rattle.uc_tree.specs.Nodes.{nodes_of, terms_nodes, cases_nodes, patterns_nodes};
ghost use Rattle.uc_tree.specs.Patterns.{patterns_of};
ghost use Rattle.uc_tree.specs.Terms.{terms_of};
ghost use Rattle.uc_tree.specs.Terms as terms;
ghost use Rattle.uc_tree.specs.TermViews.{case_with, cases_of};

use uc_tree::{Case, Definition, Pattern, PatternNode, Term, TermNode, Ty, type_nodes};

#[cycle(counted_patterns)]
#[tactic(auto, using(crate::proofs::TreesCounted::counting))]
fn pattern_nodes(pattern: &Pattern) -> u64
    ensures { result ≡ min (length (nodes.pattern_nodes pattern.now)) (2 ^ 64 - 1) }
{
    match &pattern.node {
        PatternNode::Any | PatternNode::Var | PatternNode::Literal(_) | PatternNode::Unit => 1,
        PatternNode::As(inside) => pattern_nodes(inside).saturating_add(1),
        PatternNode::Tuple(parts) | PatternNode::List(parts) | PatternNode::Ctor(_, parts) => {
            patterns_nodes(parts).saturating_add(1)
        }
        PatternNode::Cons(first, second) | PatternNode::Snoc(first, second) => {
            pattern_nodes(first)
                .saturating_add(pattern_nodes(second))
                .saturating_add(1)
        }
    }
}

#[cycle(counted_patterns)]
#[tactic(auto, using(crate::proofs::TreesCounted::counting))]
fn patterns_nodes(patterns: &[Pattern]) -> u64
    ensures { result ≡ min (length (patterns_nodes (patterns_of patterns.now))) (2 ^ 64 - 1) }
{
    match patterns {
        [] => 0,
        [first, rest @ ..] => pattern_nodes(first).saturating_add(patterns_nodes(rest)),
    }
}

#[tactic(auto, using(crate::proofs::TreesCounted::counting))]
fn signature_nodes(signature: &Option<Ty>) -> u64
    ensures { result ≡ min (length (nodes.signature_nodes signature.now)) (2 ^ 64 - 1) }
{
    match signature {
        None => 0,
        Some(ty) => type_nodes(ty),
    }
}

#[cycle(counted_terms)]
#[tactic(auto, using(crate::proofs::TreesCounted::counting))]
pub(super) fn term_nodes(term: &Term) -> u64
    ensures { result ≡ min (length (nodes.term_nodes term.now)) (2 ^ 64 - 1) }
{
    match &term.node {
        TermNode::Var(_) | TermNode::Literal(_) | TermNode::Unit | TermNode::Link(_) => 1,
        TermNode::Lambda(body) => term_nodes(body).saturating_add(1),
        TermNode::Apply(first, second)
        | TermNode::And(first, second)
        | TermNode::Or(first, second) => term_nodes(first)
            .saturating_add(term_nodes(second))
            .saturating_add(1),
        TermNode::Annotated(inside, ty) => term_nodes(inside)
            .saturating_add(type_nodes(ty))
            .saturating_add(1),
        TermNode::Tuple(parts) | TermNode::List(parts) => terms_nodes(parts).saturating_add(1),
        TermNode::If(condition, consequent, alternative) => term_nodes(condition)
            .saturating_add(term_nodes(consequent))
            .saturating_add(term_nodes(alternative))
            .saturating_add(1),
        TermNode::Let(signature, bound, body) => signature_nodes(signature)
            .saturating_add(term_nodes(bound))
            .saturating_add(term_nodes(body))
            .saturating_add(1),
        TermNode::Match(subject, cases) => term_nodes(subject)
            .saturating_add(cases_nodes(cases))
            .saturating_add(1),
    }
}

#[cycle(counted_terms)]
#[tactic(auto, using(crate::proofs::TreesCounted::counting))]
fn terms_nodes(terms: &[Term]) -> u64
    ensures { result ≡ min (length (terms_nodes (terms_of terms.now))) (2 ^ 64 - 1) }
{
    match terms {
        [] => 0,
        [first, rest @ ..] => term_nodes(first).saturating_add(terms_nodes(rest)),
    }
}

#[cycle(counted_terms)]
#[tactic(auto, using(crate::proofs::TreesCounted::counting))]
fn case_nodes(case: &Case) -> u64
    ensures { result ≡ min (length (cases_nodes (case_with case.now.pattern case.now.guard case.now.body terms.no_case))) (2 ^ 64 - 1) }
{
    let outer = pattern_nodes(&case.pattern).saturating_add(term_nodes(&case.body));
    match &case.guard {
        None => outer,
        Some(guard) => outer.saturating_add(term_nodes(guard)),
    }
}

#[cycle(counted_terms)]
#[tactic(auto, using(crate::proofs::TreesCounted::counting))]
fn cases_nodes(cases: &[Case]) -> u64
    ensures { result ≡ min (length (cases_nodes (cases_of cases.now))) (2 ^ 64 - 1) }
{
    match cases {
        [] => 0,
        [first, rest @ ..] => case_nodes(first).saturating_add(cases_nodes(rest)),
    }
}

#[tactic(auto, using(crate::proofs::TreesCounted::counting))]
pub(super) fn definition_nodes(of: &Definition) -> u64
    ensures { result ≡ min (length (nodes_of (item.Term of.now))) (2 ^ 64 - 1) }
{
    signature_nodes(&of.signature).saturating_add(term_nodes(&of.body))
}
