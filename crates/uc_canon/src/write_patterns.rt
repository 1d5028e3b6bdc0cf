//! Patterns as canonical text.
ghost use Rattle.std.specs.Prelude.{◌≡◌, ◌∷◌, ◌++◌, OnOk};
ghost use Rattle.uc_tree.specs.Patterns.{patterns_of};
ghost use Rattle.uc_canon.specs.Spelling.{pattern_target_text, pattern_text, counted_patterns};

use crate::write_basics::{write_literal, write_number, write_tag};
use std::alloc::AllocError;
use uc_base::Ref;
use uc_tree::{Pattern, PatternNode, Target};

fn write_pattern_target(target: &Target, out: &mut Vec<u8>) -> Result<(), AllocError>
    ensures { OnOk result (out.new.items ≡ out.old.items ++ pattern_target_text target.now) }
{
    match target {
        Target::Stored(Ref::Ctor(hash, n, ctor)) => {
            hash.append_text(out)?;
            write_number(u64::from(*n), out)?;
            write_number(u64::from(*ctor), out)
        }
        Target::Stored(Ref::Def(_, _)) => Ok(()),
        Target::Stored(Ref::Builtin(_)) => Ok(()),
        Target::Own(_) => Ok(()),
        Target::OwnCtor(_, _) => Ok(()),
    }
}

#[cycle(write_pattern)]
#[tactic(auto, using(crate::proofs::Counts::parts))]
pub(crate) fn write_pattern(pattern: &Pattern, out: &mut Vec<u8>) -> Result<(), AllocError>
    ensures { OnOk result (out.new.items ≡ out.old.items ++ pattern_text pattern.now) }
{
    match &pattern.node {
        PatternNode::Any => write_tag(b'_', out),
        PatternNode::Var => write_tag(b'v', out),
        PatternNode::As(a) => {
            out.push(b'@')?;
            write_pattern(a, out)
        }
        PatternNode::Literal(literal) => write_literal(literal, out),
        PatternNode::Unit => write_tag(b'e', out),
        PatternNode::Tuple(ps) => {
            out.push(b'p')?;
            write_patterns(ps, out)
        }
        PatternNode::List(ps) => {
            out.push(b'g')?;
            write_patterns(ps, out)
        }
        PatternNode::Ctor(x, ps) => {
            out.push(b'k')?;
            write_pattern_target(x, out)?;
            write_patterns(ps, out)
        }
        PatternNode::Cons(a, b) => write_pair(b'<', a, b, out),
        PatternNode::Snoc(a, b) => write_pair(b'>', a, b, out),
    }
}

/// Writes a tag, and then two patterns.
#[cycle(write_pattern)]
#[tactic(auto, using(crate::proofs::Counts::parts))]
fn write_pair(
    tag: u8,
    first: &Pattern,
    second: &Pattern,
    out: &mut Vec<u8>,
) -> Result<(), AllocError>
    ensures { OnOk result (out.new.items ≡ out.old.items ++ tag ∷ (pattern_text first.now ++ pattern_text second.now)) }
{
    out.push(tag)?;
    write_pattern(first, out)?;
    write_pattern(second, out)
}

#[cycle(write_pattern)]
#[tactic(auto, using(crate::proofs::Counts::parts))]
fn write_patterns(patterns: &[Pattern], out: &mut Vec<u8>) -> Result<(), AllocError>
    ensures { OnOk result (out.new.items ≡ out.old.items ++ counted_patterns (patterns_of patterns.now)) }
{
    write_number(patterns.len() as u64, out)?;
    for pattern in patterns {
        write_pattern(pattern, out)?;
    }
    Ok(())
}
