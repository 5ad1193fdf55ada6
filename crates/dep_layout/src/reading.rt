ghost use Rattle.std.specs.Prelude.{◌≡◌, ◌≤◌, ◌*◌, [], ◌∷◌, IfOk, IfErr, Option, List, length, take};
ghost use Rattle.dep_layout.specs.declared.fault.DepFault.{DepFault};
ghost use Rattle.dep_layout.specs.Spelling.{State, Spells, bits_of};
ghost use Rattle.dep_layout.specs.Judgement.{refusal_of, pairs_in, started};
ghost use Rattle.dep_layout.specs.Reading.{state_with, states_in, words_behind};
ghost use Rattle.dep_layout.specs.States.{state_of, states_of};

use crate::fault::DepFault;
use crate::judging::fault_of;
use crate::marks::{mark_len, mark_with, pair_at};
use crate::state::{DepState, Mark, Words};
use crate::words::read_words;
use std::alloc::Global;

/// The ring states that a body spells, one for each of so many vertices. Word i of a vertex is a Bool where bit i of
/// `bools` is set.
pub fn unpack<const W: usize>(
    alloc: Global,
    body: &[u8],
    vertices: u32,
    bools: u8,
) -> Result<Vec<DepState<W>>, DepFault>
    requires { W ≤ 8 }
    ensures found { IfOk result (λ states.
        Spells W vertices bools body.now (states_of states.items)) }
    ensures only { IfOk result (λ states. (others : List State) →
        Spells W vertices bools body.now others → others ≡ states_of states.items) }

    // A fault is the first one, and comes before memory is asked for. A body without a fault is refused for want alone.
    ensures refused { (fault : DepFault) → refusal_of W vertices bools body.now ≡ Some fault →
        result ≡ Err fault }
    ensures accepted { refusal_of W vertices bools body.now ≡ None →
        IfErr result (λ fault. fault ≡ DepFault.Want) }
{
    match fault_of(body, vertices, W, bools) {
        Some(fault) => Err(fault),
        None => {
            let vertices = vertices as usize;
            let (marks, words) = body.split_at(mark_len(vertices));
            read_states(alloc, marks, words, vertices)
        }
    }
}

// The states of so many vertices with these marks and these words.
fn read_states<const W: usize>(
    alloc: Global,
    marks: &[u8],
    words: &[u8],
    vertices: usize,
) -> Result<Vec<DepState<W>>, DepFault>
    requires width { W ≤ 8 }
    requires marked { vertices ≤ 4 * length marks.now }
    requires enough { 8 * W * started (take vertices (pairs_in marks.now)) ≤ length words.now }
    ensures want { IfErr result (λ fault. fault ≡ DepFault.Want) }
    ensures states { IfOk result (λ states.
        states_of states.items ≡ states_in W (take vertices (pairs_in marks.now)) words.now) }
{
    let mut states = Vec::new(alloc);
    let mut rest = words;
    for vertex in 0..vertices {
        let (state, others) = read_state(mark_with(pair_at(marks, vertex)), rest);
        rest = others;
        states.push(state)?;
    }
    Ok(states)
}

// The state with a mark, its words at the front of bytes where it is started, and the bytes behind them.
fn read_state<const W: usize>(mark: Mark, words: &[u8]) -> (DepState<W>, &[u8])
    requires width { W ≤ 8 }
    requires enough { 8 * W * started (bits_of mark ∷ []) ≤ length words.now }
    ensures state { state_of result.0 ≡ state_with W mark words.now }
    ensures rest { result.1.now ≡ words_behind W mark words.now }
{
    match mark {
        Mark::Fresh => (
            DepState {
                mark,
                words: Words { at: [0; W] },
            },
            words,
        ),
        Mark::Running | Mark::Broken => {
            let (_, others) = words.split_at(8 * W);
            (
                DepState {
                    mark,
                    words: read_words(words),
                },
                others,
            )
        }
    }
}
