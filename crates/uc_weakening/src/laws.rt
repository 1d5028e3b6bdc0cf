//! What stays when definitions are added.
ghost use Rattle.uc_weakening.specs.Laws.{SubtypesStay, PatternsStay, ChecksStay, SynthesesStay, DefinitionsStay};

/// Each derivation stays when definitions are added to what is known.
pub fn weakening_laws()
    ensures subtypes { SubtypesStay }
    ensures patterns { PatternsStay }
    ensures checks { ChecksStay }
    ensures found { SynthesesStay }
    ensures definitions { DefinitionsStay }
{}
