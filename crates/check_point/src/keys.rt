ghost use Rattle.std.specs.Prelude.{◌≡◌, ◌++◌, ℕ, List};
ghost use Rattle.sha2.specs.Hashers.{Holds256};
ghost use Rattle.vert_base.specs.HeaderBytes.{four_bytes};
ghost use Rattle.body_shape.specs.Tally.{number_bytes};
ghost use Rattle.check_point.specs.Keys.{counted_bytes, key_of};

use sha2::{Digest, Sha256};

/// The key of what is run: the texts of program and graph, the vertices where they are told, how
/// the graph is read, the machines and the draws.
pub fn key(
    program: &[u8],
    graph: &[u8],
    vertices: Option<u32>,
    flags: u8,
    machines: u8,
    draws: u64,
) -> [u8; 32]
    ensures { result ≡ key_of program.now graph.now vertices flags machines draws }
{
    let mut hasher = Sha256::new();
    feed_text(&mut hasher, program);
    feed_text(&mut hasher, graph);
    feed_four(&mut hasher, vertices.unwrap_or(u32::MAX));
    hasher.update(&[flags, machines]);
    feed_number(&mut hasher, draws);
    hasher.finalize()
}

fn feed_text(hasher: &mut Sha256, text: &[u8])
    ensures { (m : List ℕ) → Holds256 hasher.old m
        → Holds256 hasher.new (m ++ counted_bytes text.now) }
{
    feed_number(hasher, text.len() as u64);
    hasher.update(text);
}

#[tactic(auto, unfolding(vert_base::specs::HeaderBytes::four_bytes))]
fn feed_four(hasher: &mut Sha256, number: u32)
    ensures { (m : List ℕ) → Holds256 hasher.old m
        → Holds256 hasher.new (m ++ four_bytes number) }
{
    hasher.update(&number.to_le_bytes());
}

#[tactic(auto, unfolding(body_shape::specs::Tally::number_bytes))]
fn feed_number(hasher: &mut Sha256, number: u64)
    ensures { (m : List ℕ) → Holds256 hasher.old m
        → Holds256 hasher.new (m ++ number_bytes number) }
{
    hasher.update(&number.to_le_bytes());
}
