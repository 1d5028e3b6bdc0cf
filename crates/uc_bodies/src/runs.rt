//! Runs of `use` clauses and signatures in a block.
ghost use Rattle.std.specs.Prelude.{◌≡◌, ◌⊎◌, ◌≤◌, None, Err, OnOk, IfOk, IfErr};
ghost use Rattle.uc_base.specs.declared.fault.Fault.TheVariants.{Memory};
ghost use Rattle.uc_scratch.specs.Exprs.{Expr as Plain, block_size};
ghost use Rattle.uc_scratch.specs.ExprViews.{block_of};
ghost use Rattle.uc_meaning.specs.ExprMeanings.{block_meaning};
ghost use Rattle.uc_bodies.specs.BodyViews.{without_block};
ghost use Rattle.uc_bodies.specs.StepMeanings.{behind_run, run_signed};

use crate::locals::Locals;
use crate::signed::{Signed, sign};
use std::alloc::Global;
use uc_base::Fault;
use uc_meaning::Meanings;
use uc_scratch::{Binding, Entry};

/// What stands behind a run: the end of the block, or a binding with the signature right before it and the entries
/// behind it.
#[derive(Drop)]
pub enum Run<'a> {
    End,
    Binding(Option<Signed<'a>>, &'a Binding, &'a [Entry]),
}

/// Passes `use` clauses and signatures at the front of entries.
pub fn pass_run<'a, M: Meanings>(
    alloc: Global,
    meanings: &M,
    locals: &mut Locals<'a>,
    entries: &'a [Entry],
) -> Result<Run<'a>, Fault>
    ensures passed { IfOk result (λ run. (last : Plain)
        → block_meaning (M.known meanings.now) locals.old None (block_of entries.now last)
        ≡ block_meaning (M.known meanings.now) locals.new (run_signed run) (behind_run run last)) }
    ensures smaller { IfOk result (λ run. (last : Plain)
        → block_size (behind_run run last) ≤ block_size (block_of entries.now last)) }
    ensures err { IfErr result (λ fault. (fault ≡ Memory) ⊎ ((last : Plain)
        → block_meaning (M.known meanings.now) locals.old None (block_of entries.now last) ≡ Err fault)) }
    ensures kept { OnOk result (without_block locals.new ≡ without_block locals.old) }
{
    let mut signed = None;
    let mut rest = entries;
    while let [entry, behind @ ..] = rest {
        match entry {
            Entry::Use(clause) => {
                locals.add_using(&clause.path, &clause.names)?;
                signed = None;
            }
            Entry::Signature(signature) => {
                signed = Some(sign(alloc, meanings, locals, signature)?);
            }
            Entry::Binding(binding) => return Ok(Run::Binding(signed, binding, behind)),
        }
        rest = behind;
    }
    Ok(Run::End)
}
