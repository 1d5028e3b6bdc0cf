//! New existentials.
ghost use Rattle.std.specs.Prelude.{◌≡◌, ◌++◌, ◌∷◌, [], ◌<◌, ◌^◌, map, IfOk, IfErr};
ghost use Rattle.uc_base.specs.declared.fault.Fault.TheVariants.{Memory};
ghost use Rattle.uc_context.specs.Counts.{levels_of_open};
ghost use Rattle.uc_context.specs.Fresh.{fresh_number, fresh_numbers};
ghost use Rattle.uc_context.specs.declared.entry.Entry.TheVariants.{Exists};
ghost use Rattle.uc_typing.specs.Fronts as spec;
ghost use Rattle.uc_typing.specs.Fronts.{front_count, behind_front};

use std::alloc::{AllocError, Global};
use uc_base::Fault;
use uc_context::{Context, Entry, Open, OpenNode};

/// A new existential behind all entries.
pub fn declare(context: &mut Context) -> Result<u64, Fault>
    ensures number { IfOk result (λ n. n ≡ fresh_number context.old) }
    ensures ok { IfOk result (λ n. context.new ≡ context.old ++ Exists n ∷ []) }
    ensures err { IfErr result (λ fault. fault ≡ Memory) }
{
    let number = context.fresh();
    context.push(Entry::Exists(number))?;
    Ok(number)
}

/// So many new existentials behind all entries.
pub fn declare_all(alloc: Global, context: &mut Context, count: usize) -> Result<Vec<u64>, Fault>
    ensures numbers { IfOk result (λ numbers. numbers.items ≡ fresh_numbers count context.old) }
    ensures ok { IfOk result (λ numbers. context.new ≡ context.old ++ map (λ n. Exists n) numbers.items) }
    ensures err { IfErr result (λ fault. fault ≡ Memory) }
{
    let mut numbers = Vec::new(alloc);
    for _ in 0..count {
        let number = declare(context)?;
        numbers.push(number)?;
    }
    Ok(numbers)
}

/// These existentials as types.
pub fn existentials(alloc: Global, numbers: &[u64]) -> Result<Vec<Open>, AllocError>
    ensures { IfOk result (λ ts. ts.items ≡ spec.existentials numbers.now) }
{
    let mut types = Vec::new(alloc);
    for number in numbers {
        types.push(Open::existential(*number))?;
    }
    Ok(types)
}

/// What stands behind the quantifiers at the front of a type, with new existentials in place of their
/// variables.
pub fn open_front(alloc: Global, context: &mut Context, of: &Open) -> Result<Open, Fault>
    requires { levels_of_open of.now < 2 ^ 32 }
    ensures ok { IfOk result (λ t. t ≡ behind_front (spec.existentials (fresh_numbers (front_count of.now) context.old)) of.now) }
    ensures context { IfOk result (λ _. context.new ≡ context.old ++ map (λ n. Exists n) (fresh_numbers (front_count of.now) context.old)) }
    ensures err { IfErr result (λ fault. fault ≡ Memory) }
{
    match &of.node {
        OpenNode::Forall(body) => {
            let number = declare(context)?;
            let opened = body.opened(alloc, &Open::existential(number))?;
            let behind = open_front(alloc, context, &opened)?;
            Ok(behind)
        }
        _ => Ok(of.copy(alloc)?),
    }
}
