//! Types and patterns are read in one way.
ghost use Rattle.uc_scratch.specs.Unique.{TypeIsUnique, PatternIsUnique};

/// A type and a pattern have one reading, up to a token that can't go on with them.
pub fn parts_law()
    ensures types { TypeIsUnique }
    ensures patterns { PatternIsUnique }
{}
