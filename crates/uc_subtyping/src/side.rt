//! Sides of a type.
ghost use Rattle.std.specs.Prelude.{◌≡◌};
ghost use Rattle.uc_subtyping.specs.Instances.{other};

/// Where an existential goes: below a type, as a subtype of it, or above it.
#[derive(Clone, Copy, Debug, PartialEq, Eq)]
pub enum Side {
    Below,
    Above,
}

impl Side {
    pub fn other(self) -> Side
        ensures { result ≡ other self }
    {
        match self {
            Side::Below => Side::Above,
            Side::Above => Side::Below,
        }
    }
}
