//! Laws of checking.
ghost use Rattle.uc_sound_typing.specs.Laws.{PatternsExtend, PatternsAreSound, ChecksExtend, SynthesesExtend, ChecksAreSound, SynthesesAreSound, MembersAreSound};

/// Patterns leave contexts that have what stood before, and bind variables by the declarative rules, whatever the existentials that are left stand for.
pub fn pattern_laws()
    ensures extend { PatternsExtend }
    ensures sound { PatternsAreSound }
{}

/// Terms leave well-formed contexts that have what stood before, and have their types by the declarative rules, whatever the existentials that are left stand for. Members have the types that they come to.
pub fn term_laws()
    ensures checks_extend { ChecksExtend }
    ensures found_extend { SynthesesExtend }
    ensures checks_sound { ChecksAreSound }
    ensures found_sound { SynthesesAreSound }
    ensures members { MembersAreSound }
{}
