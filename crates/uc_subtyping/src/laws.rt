//! Laws of the judgements.
ghost use Rattle.uc_subtyping.specs.Laws.{InstancesHaveOneOutcome, SubtypesHaveOneOutcome};

/// Each judgement has at most one outcome.
pub fn outcome_laws()
    ensures instances { InstancesHaveOneOutcome }
    ensures subtypes { SubtypesHaveOneOutcome }
{}
