//! Patterns, whose nodes only count.
ghost use Rattle.std.specs.Prelude.{◌≡◌, ◌+◌, ◌<◌, ◌^◌, length};
ghost use Rattle.uc_tree.specs.Patterns.{patterns_of};
ghost use Rattle.uc_tree.specs.Nodes.{pattern_nodes, patterns_nodes};

use uc_tree::{Pattern, PatternNode};

/// How many nodes there are with those of a pattern behind so many.
#[cycle(walk_pattern)]
#[tactic(auto, using(crate::proofs::Walking::walking))]
pub fn walk_pattern(p: &Pattern, before: u32) -> u32
    requires { before + length (pattern_nodes p.now) < 2 ^ 32 }
    ensures { result ≡ before + length (pattern_nodes p.now) }
{
    match &p.node {
        PatternNode::Any | PatternNode::Var | PatternNode::Literal(_) | PatternNode::Unit => {
            before + 1
        }
        PatternNode::As(inside) => walk_pattern(inside, before + 1),
        PatternNode::Tuple(parts) | PatternNode::List(parts) | PatternNode::Ctor(_, parts) => {
            walk_patterns(parts, before + 1)
        }
        PatternNode::Cons(left, right) | PatternNode::Snoc(left, right) => {
            let passed = walk_pattern(left, before + 1);
            walk_pattern(right, passed)
        }
    }
}

#[cycle(walk_pattern)]
#[tactic(auto, using(crate::proofs::Walking::walking))]
fn walk_patterns(ps: &[Pattern], before: u32) -> u32
    requires { before + length (patterns_nodes (patterns_of ps.now)) < 2 ^ 32 }
    ensures { result ≡ before + length (patterns_nodes (patterns_of ps.now)) }
{
    let mut passed = before;
    for p in ps {
        passed = walk_pattern(p, passed);
    }
    passed
}
