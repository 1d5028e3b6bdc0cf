//! Which rule of its form checks a term.
ghost use Rattle.std.specs.Prelude.{◌≡◌};
ghost use Rattle.uc_check.specs.Walks.{is_list_head};
ghost use Rattle.uc_typing.specs.Terms as spec;

use uc_base::Ref;
use uc_context::{Open, OpenNode};
use uc_tree::{Target, Term, TermNode};

/// Whether a data type is that of lists.
fn is_list_head(head: &Target) -> bool
    ensures { result ≡ is_list_head head.now }
{
    match head {
        Target::Stored(reference) => match reference {
            Ref::Builtin(number) => *number == 5,
            _ => false,
        },
        _ => false,
    }
}

fn is_list(of: &Open) -> bool
    ensures { result ≡ spec.is_list of.now }
{
    match &of.node {
        OpenNode::Data(head, arguments) => is_list_head(head) && arguments.len() == 1,
        _ => false,
    }
}

/// Whether a rule of its form checks a term against a type without a quantifier at its front.
pub(crate) fn has_rule_of_form(term: &Term, against: &Open) -> bool
    ensures { result ≡ spec.has_rule_of_form term.now against.now }
{
    match (&term.node, &against.node) {
        (TermNode::Lambda(_), OpenNode::Arrow(_, _)) => true,
        (TermNode::Tuple(parts), OpenNode::Tuple(types)) => parts.len() == types.len(),
        (TermNode::List(_), _) => is_list(against),
        (TermNode::If(_, _, _) | TermNode::Let(_, _, _) | TermNode::Match(_, _), _) => true,
        _ => false,
    }
}
