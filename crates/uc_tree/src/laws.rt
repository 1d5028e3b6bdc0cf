//! Laws of replacing.
ghost use Rattle.uc_tree.specs.Laws.{ItemStays, ItemIsReplaced, InTurn, TargetsAreReplaced, LevelsStay, NodeCountStays, BoundStays, ClosesAgain, OpensAgain};

/// Laws of replacing: when an item stays and when there is a replaced one, two replacements in turn, what a
/// replaced item has in common with the item, and that opening and closing a component undo each other.
pub fn replacing_laws()
    ensures stays { ItemStays }
    ensures replaced { ItemIsReplaced }
    ensures in_turn { InTurn }
    ensures targets { TargetsAreReplaced }
    ensures levels { LevelsStay }
    ensures nodes { NodeCountStays }
    ensures bound { BoundStays }
    ensures closes { ClosesAgain }
    ensures opens { OpensAgain }
{}
