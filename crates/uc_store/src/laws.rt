//! Laws of the table.
ghost use Rattle.uc_store.specs.Laws.{EqualTextsHaveEqualReferences, GrowthExtends};

/// What holds of references and of growth.
pub fn store_laws()
    // Components of one text have one reference for each member.
    ensures references { EqualTextsHaveEqualReferences }
    // A stored item, type or hint never changes.
    ensures growth { GrowthExtends }
{}
