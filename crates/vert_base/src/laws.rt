ghost use Rattle.vert_base.specs.Letters.{SameLetters};

/// The law that a list of messages in the order of their names is settled by what each name has. It does nothing.
pub fn same_letters()
    ensures { SameLetters }
{}
