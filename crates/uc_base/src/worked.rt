//! What one turn does to a shared state.
ghost use Rattle.std.specs.Prelude.{◌≤◌};
ghost use Rattle.uc_base.specs.Worked.{Extends};

/// A state that is worked on, one request after another.
pub trait Worked {
    /// What a request may add to the state's list.
    type Entry;

    type Request;

    type Reply;

    ghost use Rattle.std.specs.Prelude.{ℕ, List};

    /// The list of entries so far.
    ghost entries: { Self → List Self.Entry };

    /// How many faults the state's devices have met.
    ghost faults: { Self → ℕ };

    /// How a reply is tied to its request, by the lists before and after, the request, the reply, and the counts of faults before and after.
    ghost tied: { List Self.Entry → List Self.Entry → Self.Request → Self.Reply → ℕ → ℕ → Type 0 };

    /// Answers one request.
    fn work(&mut self, request: &Self::Request) -> Self::Reply
        ensures entries { Extends (entries self.old) (entries self.new) }
        ensures faults { faults self.old ≤ faults self.new }
        ensures tied { tied (entries self.old) (entries self.new) request.now result (faults self.old) (faults self.new) };
}
