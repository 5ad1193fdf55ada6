//! How a loop body uses its lets.
#![tactic(auto, using(crate::proofs::Rules::walk_laws))]

ghost use Rattle.std.specs.Prelude.{◌≡◌};
ghost use Rattle.carry_analysis.specs.Classes.{marks_of};
ghost use Rattle.carry_analysis.specs.Walks.{same_op, same_use, walk_after, walk_of, with_use};

use vert_tree::{AssignOp, What};

/// How a loop body uses a let at one place.
#[derive(Clone, Copy)]
pub(crate) enum Use {
    Read,
    Assigned(AssignOp),
}

/// How a loop body used a let so far: nowhere, in one way alone, or in several ways.
#[derive(Clone, Copy)]
pub(crate) enum Seen {
    Nowhere,
    Always(Use),
    Mixed,
}

/// What was seen of a loop body so far, by the places of lets, and whether it may break.
#[derive(Clone, Copy)]
pub(crate) struct Walk {
    pub lets: [Seen; 8],
    pub breaks: bool,
}

fn same_op(a: AssignOp, b: AssignOp) -> bool
    ensures { result ≡ same_op a b }
{
    match (a, b) {
        (AssignOp::Set, AssignOp::Set)
        | (AssignOp::Add, AssignOp::Add)
        | (AssignOp::Least, AssignOp::Least)
        | (AssignOp::Greatest, AssignOp::Greatest) => true,
        _ => false,
    }
}

fn same_use(a: Use, b: Use) -> bool
    ensures { result ≡ same_use a b }
{
    match (a, b) {
        (Use::Read, Use::Read) => true,
        (Use::Assigned(op), Use::Assigned(other)) => same_op(op, other),
        _ => false,
    }
}

fn with_use(seen: Seen, now: Use) -> Seen
    ensures { result ≡ with_use seen now }
{
    match seen {
        Seen::Nowhere => Seen::Always(now),
        Seen::Always(before) => {
            if same_use(before, now) {
                seen
            } else {
                Seen::Mixed
            }
        }
        Seen::Mixed => Seen::Mixed,
    }
}

impl Walk {
    /// One more use of a name, which counts where it is a let.
    pub(crate) fn note(&mut self, what: What, now: Use)
        ensures { walk_of self.new ≡ walk_after (walk_of self.old) (marks_of what now) }
    {
        if let What::Local(place) = what {
            let i = place as usize;
            if i < 8 {
                self.lets[i] = with_use(self.lets[i], now);
            }
        }
    }
}
