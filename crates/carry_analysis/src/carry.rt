ghost use Rattle.std.specs.Prelude.{◌≡◌};
ghost use Rattle.carry_analysis.specs.Classes.{carry_in, is_carried};

use crate::classes::{Class, Classes};

/// What a loop hands on: the number of its carried lets, in words of 8 bytes.
#[derive(Clone, Copy, Debug, PartialEq, Eq)]
pub struct Carry {
    pub words: u8,
}

fn is_carried(class: Class) -> bool
    ensures { result ≡ is_carried class }
{
    match class {
        Class::Carried => true,
        _ => false,
    }
}

/// The carry of a loop. There is none where its body holds no `break` and no let is carried.
pub fn carry_of(classes: &Classes) -> Option<Carry>
    ensures { result ≡ carry_in classes.now.breaks classes.now.locals.items }
{
    let mut words = 0u8;
    for class in classes.locals.as_slice() {
        if is_carried(*class) {
            words += 1;
        }
    }
    if classes.breaks || words > 0 {
        Some(Carry { words })
    } else {
        None
    }
}
