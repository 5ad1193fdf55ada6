ghost use Rattle.std.specs.Prelude.{◌≡◌, ◌≤◌, length};
ghost use Rattle.carry_analysis.specs.Classes.{body_marks, has_break, let_classes};
ghost use Rattle.carry_analysis.specs.Walks.{class_seen};

use crate::seen::{Seen, Use, Walk};
use crate::statement::walk_body;
use arrayvec::ArrayVec;
use vert_base::Combine;
use vert_tree::{AssignOp, Dense};

/// What a loop body does with a let: it leaves it as it is, it only combines it by one operator and
/// reads it nowhere, or it does anything else with it.
#[derive(Clone, Copy, Debug, Default, PartialEq, Eq)]
pub enum Class {
    #[default]
    Constant,
    Reduced(Combine),
    Carried,
}

/// The classes of the lets, in order of declaration, and whether the loop body holds a `break`.
#[derive(Debug, Drop)]
pub struct Classes {
    pub locals: ArrayVec<Class, 8>,
    pub breaks: bool,
}

fn class_seen(seen: Seen) -> Class
    ensures { result ≡ class_seen seen }
{
    match seen {
        Seen::Nowhere | Seen::Always(Use::Read) => Class::Constant,
        Seen::Always(Use::Assigned(AssignOp::Add)) => Class::Reduced(Combine::Sum),
        Seen::Always(Use::Assigned(AssignOp::Least)) => Class::Reduced(Combine::Min),
        Seen::Always(Use::Assigned(AssignOp::Greatest)) => Class::Reduced(Combine::Max),
        Seen::Always(Use::Assigned(AssignOp::Set)) | Seen::Mixed => Class::Carried,
    }
}

/// The classes of a dense block, in one walk over its loop body.
pub fn classes_of(dense: &Dense) -> Classes
    requires few { length dense.now.lets.items ≤ 8 }
    ensures locals { result.locals.items
        ≡ let_classes 0 dense.now.lets.items (body_marks dense.now.body.items) }
    ensures breaks { result.breaks ≡ has_break (body_marks dense.now.body.items) }
{
    let mut walk = Walk {
        lets: [Seen::Nowhere; 8],
        breaks: false,
    };
    walk_body(&dense.body, &mut walk);
    let mut locals = ArrayVec::new();
    for i in 0..dense.lets.len() {
        locals.push(class_seen(walk.lets[i]));
    }
    Classes {
        locals,
        breaks: walk.breaks,
    }
}
