//! Files as programs.
ghost use Rattle.std.specs.Prelude.{◌≡◌, IfOk};
ghost use Rattle.uc_meaning.specs.FileNames.{known_of};
ghost use Rattle.uc_meaning.specs.Hints.{hints_of};
ghost use Rattle.uc_meaning.specs.Programs.{file_meaning};
ghost use Rattle.uc_meaning.specs.Results.{Gives};
ghost use Rattle.uc_resolve.specs.ProgramViews.{program_of};

use crate::hints::file_hints;
use crate::items::resolve_items;
use crate::program::Program;
use std::alloc::Global;
use uc_base::Fault;
use uc_meaning::Lookup;
use uc_scratch::File;
use uc_tree::Names;

/// What a file means over the names of a head, or the fault at the first written name that has no one meaning.
pub fn resolve<N: Names>(alloc: Global, file: &File, names: &N) -> Result<Program, Fault>
    ensures meaning { Gives program_of result
        (file_meaning (known_of file.now (N.pairs names.now) (N.hashes names.now) (N.is_held names.now)) file.now) }
    ensures hints { IfOk result (λ program. program.hints ≡ hints_of file.now) }
{
    let lookup = Lookup::new(alloc, file, names)?;
    let draft = resolve_items(alloc, &lookup, &file.items)?;
    let hints = file_hints(alloc, file)?;
    Ok(draft.finish(hints))
}
