//! Laws of the places of programs.
ghost use Rattle.uc_resolve.specs.Laws.{MeaningsArePlaced, NodesHavePlaces};

/// What the meanings of files say of the places of their nodes.
pub fn places_law()
    ensures meanings { MeaningsArePlaced }
    ensures nodes { NodesHavePlaces }
{}
