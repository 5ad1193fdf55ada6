/// Why bytes are no message of a machine: they are fewer than a header has or not as many as it says, the kind is none
/// of the six, the machine neither sends nor takes a message of that name, the body doesn't fit its form. `Want` is
/// want of memory.
#[derive(Clone, Copy, Debug, PartialEq, Eq)]
pub enum MessageFault {
    Short,
    Kind,
    NotPlanned,
    Body,
    Want,
}
