use vert_base::Name;

/// What a machine can do next: its action, which is ready, or waits for the first message that it needs
/// and hasn't taken, or nothing more.
#[derive(Clone, Copy, Debug, PartialEq, Eq)]
pub enum Action {
    Ready,
    Waits(Name),
    Over,
}
