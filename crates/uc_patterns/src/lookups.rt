//! What the checker knows.
ghost use Rattle.std.specs.Prelude.{◌≡◌};
ghost use Rattle.std.specs.Option.{option_copied};
ghost use Rattle.uc_kinds.specs.PatternTyping.{Known, target_type};

use uc_tree::{Target, Ty};

/// The types of stored references, and the signatures of the members of a component.
pub trait TargetTypes {
    ghost known: { Self → Known };

    fn type_of(&self, of: &Target) -> Option<&Ty>
        ensures { option_copied result ≡ target_type (known self.now) of.now };
}
