// Where the neighbours of a vertex come from.
ghost use Rattle.std.specs.Prelude.{◌≡◌, ◌∷◌, ◌++◌, List, [], IfSome, IfNone};
ghost use Rattle.vert_base.specs.declared.graph.Neighbour.{Neighbour};
ghost use Rattle.vert_base.specs.declared.value.Row.{Row};

use vert_base::{Neighbour, Row};

/// Where the neighbours of a vertex come from, one after another, each with its row.
pub trait Feed {
    // the neighbours given, with their rows
    ghost given: { Self → List (Neighbour × Row) };

    // the neighbours left, with their rows
    ghost left: { Self → List (Neighbour × Row) };

    /// The first neighbour that is left. Its row is written into `row`.
    fn next(&mut self, row: &mut Row) -> Option<Neighbour>
        ensures first { IfSome result (λ neighbour. left self.old ≡ (neighbour, row.new)
            ∷ left self.new) }
        ensures given { IfSome result (λ neighbour.
            given self.new ≡ given self.old ++ (neighbour, row.new) ∷ []) }
        // None is answered exactly where nothing is left.
        ensures end { IfNone result (left self.old ≡ []) }
        ensures nothing { IfNone result (left self.new ≡ []) }
        ensures kept { IfNone result (given self.new ≡ given self.old) }
        ensures row { IfNone result (row.new ≡ row.old) };
}
