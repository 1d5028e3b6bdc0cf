//! Laws of the components of a graph in their order.
ghost use Rattle.uc_base.specs.Graph.{OrderIsUnique, PartsAgree};

/// A law: a graph has at most one order of components.
pub fn component_order_is_unique()
    ensures { OrderIsUnique }
{}

/// A law: where a part of the vertices holds every end of its members' edges, the components of the part are those of the whole that lie in it, in the same order.
pub fn parts_agree()
    ensures { PartsAgree }
{}
