//! Laws of solved existentials.
ghost use Rattle.uc_soundness.specs.Laws.{InstancesExtend, SubtypesExtend, InstantiationIsSound, SubtypingIsSound, ValuationsGoOn};

/// Contexts stay well-formed, and have what they had.
pub fn extension_laws()
    ensures instances { InstancesExtend }
    ensures subtypes { SubtypesExtend }
    ensures valuations { ValuationsGoOn }
{}

/// What is solved is so by the declarative rules, whatever the existentials that are left stand for.
pub fn soundness_laws()
    ensures instantiation { InstantiationIsSound }
    ensures subtyping { SubtypingIsSound }
{}
