//! What a machine does without code: the tables of its part, rows and ring states laid flat, a feed
//! over them, one environment that is entered at vertex after vertex, and the bodies of its
//! messages.
#![tactic(auto)]

mod bodies;
mod counting;
mod environment;
mod groups;
mod judging;
mod laws;
mod missing;
mod part_feed;
mod repeated;
mod ring_half;
mod ring_marks;
mod rows;
mod sends;
mod spans;
mod totals;
mod updates;

pub use bodies::{refresh_body, tally_body, verdict_body};
pub use counting::{active_rows, edges_ahead};
pub use environment::{Setting, enter, new_env, read_row_of};
pub use groups::Groups;
pub use judging::rule;
pub use laws::{own_vertices, rising_spans};
pub use missing::first_missing;
pub use part_feed::PartFeed;
pub use ring_half::RingHalf;
pub use rows::Rows;
pub use sends::push_body;
pub use spans::{Span, edges_in, first_sources, spans_of, spans_within};
pub use totals::own_totals;
pub use updates::{SentWords, merge_update};
