//! The laws that tie what machines hold and do to the graph and to the source run: a machine's part, the edges of a
//! vertex in the parts, sums over chunks; the ring of a dense round, scans, partials and the close.
#![tactic(auto)]

mod laws;
mod parts;

pub use laws::{
    begins_go_on, closes_are_ideal, closes_go_on, dense_closes, dense_rounds, judge_goes_on,
    judges_rule_as_the_source, lets_at_the_end, machines_scan_ideally, machines_see_the_source,
    partials_by_steps, reads_are_counted, ring_comes_round, scans_by_the_source, scans_go_on,
    sends_are_ideal, sights_agree, sparse_closes, takes_are_ideal, tallies_are_summed, tells_go_on,
};
pub use parts::{
    chunk_sums, known_degrees, member_edges, met_vertices, one_chunk, planned_can_take, sparse_keys,
};
