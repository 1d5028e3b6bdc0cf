//! Laws of well-formed types.
ghost use Rattle.uc_kinds.specs.Laws.{TypesAreFlawless, ItemsAreFlawless, DefinitionsAreFaultless, DeclsAreFaultless, FlawsAreAsNodes, InsideAreMonotypes};
ghost use Rattle.uc_kinds.specs.TypingExamples.{IdentityHasItsType, HigherRankHasItsType, UnitIsNotEverything};

/// What flaws and faults say of types, and how well-formed types inside arguments differ from
/// those outside.
pub fn kinds_laws()
    ensures types { TypesAreFlawless }
    ensures items { ItemsAreFlawless }
    ensures definitions { DefinitionsAreFaultless }
    ensures declarations { DeclsAreFaultless }
    ensures nodes { FlawsAreAsNodes }
    ensures inside { InsideAreMonotypes }
{}

/// What the declarative rules of typing say of small definitions.
pub fn typing_examples()
    ensures identity { IdentityHasItsType }
    ensures higher_rank { HigherRankHasItsType }
    ensures refused { UnitIsNotEverything }
{}
