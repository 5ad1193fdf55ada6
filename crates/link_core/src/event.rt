use vert_base::Name;

/// What happens in a run over links: a machine performs its action, a copy of a message is taken, lost or
/// made, an acknowledgement comes or is lost.
#[derive(Clone, Copy, Debug, PartialEq, Eq)]
pub enum LinkEvent {
    Go(u8),
    Take(Name),
    Lose(Name),
    Again(Name),
    Ack(Name),
    Drop(Name),
}

/// The machines of a run over links, and its events in order.
#[derive(Debug, Drop)]
pub struct LinkSchedule {
    pub machines: u8,
    pub events: Vec<LinkEvent>,
}
