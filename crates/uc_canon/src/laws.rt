//! Laws of canonical text and of numbering.
ghost use Rattle.uc_canon.specs.Laws.{EachTextHasOneValue, NoTextIsAPrefix};
ghost use Rattle.uc_canon.specs.NumberingLaws.{LeastTextIsUnique, NumberingIsUnique, GivenOrderIsFree};

/// What holds of the texts of all components in bounds.
pub fn spelling_laws()
    // A text says which members a component has, in which order.
    ensures one_value { EachTextHasOneValue }
    // Where a text ends needs no mark.
    ensures no_prefix { NoTextIsAPrefix }
{}

/// Laws of numbering: a component has at most one least text and at most one numbering, and the least text doesn't
/// depend on the order in which its members are given.
pub fn numbering_laws()
    ensures text { LeastTextIsUnique }
    ensures numbering { NumberingIsUnique }
    ensures given_order { GivenOrderIsFree }
{}
