//! The steps of a machine, each over all vertices that it goes through: the begin of a round, scans of
//! halves, the close, and the pieces of which a judge is made.
#![tactic(auto)]

mod acting;
mod begin;
mod blank;
mod close;
mod counting;
mod gifts;
mod half;
mod halves;
mod held;
mod judging;
mod keeping;
mod noting;
mod pushes;
mod reading;
mod scan;
mod scanning;
mod sums;

pub use acting::{hand, send_tally, tally_name};
pub use begin::{begin_partials, work_push};
pub use blank::{empty_row, ring_width};
pub use close::{close_rows, turn_counts};
pub use counting::{counted, reads_of};
pub use gifts::begin_messages;
pub use halves::{drop_needed, half_messages, needed_bytes, refresh_to};
pub use held::held_body;
pub use judging::{join, ruled, verdicts};
pub use keeping::scan_own;
pub use noting::note_counts;
pub use pushes::drop_pushes;
pub use reading::sources_read;
pub use scanning::{HalfScan, scan_half};
pub use sums::Sums;
