//! Laws of checking.
ghost use Rattle.uc_typing.specs.Examples.{IdentityIsQuantified, SelfApplicationIsIll, SelfReferenceNeedsSignature};
ghost use Rattle.uc_typing.specs.Laws.{PatternsHaveOneOutcome, ChecksHaveOneOutcome, TermsHaveOneType, ComponentsHaveOneOutcome, WatchesHaveOneOutcome, OutcomesStay, WatchOutcomesStay};

/// Each judgement has at most one outcome.
pub fn outcome_laws()
    ensures patterns { PatternsHaveOneOutcome }
    ensures checks { ChecksHaveOneOutcome }
    ensures found { TermsHaveOneType }
    ensures components { ComponentsHaveOneOutcome }
    ensures watches { WatchesHaveOneOutcome }
{
    uc_subtyping::outcome_laws();
}

/// What links mean by their types alone.
pub fn relinking_laws()
    ensures components { OutcomesStay }
    ensures watches { WatchOutcomesStay }
{}

/// What small components come to by the rules.
pub fn small_components()
    ensures identity { IdentityIsQuantified }
    ensures self_application { SelfApplicationIsIll }
    ensures self_reference { SelfReferenceNeedsSignature }
{}
