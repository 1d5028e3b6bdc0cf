//! From the tokens of a text to its reading.
ghost use Rattle.uc_scratch.specs.Reading.{ReadingIsUnique, FaultIsUnique, ReadingHasNoFault};

/// A text has at most one reading, at most one first fault, and not both.
pub fn reading_law()
    ensures reading { ReadingIsUnique }
    ensures fault { FaultIsUnique }
    ensures either { ReadingHasNoFault }
{}
