// The dispatcher (paper 01, "Dispatch" and questions 27 and 28): a lane's state moves one tick along its table. Any state and any
// words are taken; those that do not fit each other are refused.
#![tactic(auto)]

ghost use Rattle.std.specs.Prelude.{◌≡◌, get_or};
ghost use Rattle.plan.specs.Dispatch.{step, refusal, step_all};
ghost use Rattle.moves.specs.Lookups.{lookup};

use moves::{Lookup, decide};
use plan::{LaneState, Stepped};

// The word at an index, or 0 past the end.
fn word_at(words: &[u32], i: usize) -> u32
    ensures { result ≡ get_or words.now i 0 }
{
    if i < words.len() { words[i] } else { 0 }
}

// What a step of the state looks up: at most six words are read.
fn look_up(words: &[u32], state: LaneState) -> Lookup
    ensures { result ≡ lookup words.now state }
{
    let first = state.first as usize;
    let at = first + 2 + 3 * state.entry as usize;
    let ticks = word_at(words, first);
    let entries = word_at(words, first + 1);
    let begin = word_at(words, at);
    let kind = word_at(words, at + 1);
    let row = word_at(words, at + 2);
    let next = word_at(words, at + 3);
    let inside = first + 2 + 3 * entries as usize <= words.len();
    Lookup {
        inside,
        ticks,
        entries,
        begin,
        kind,
        row,
        next,
    }
}

// A step of a state by value: 0 and the state moved, or the refusal's number and the state as it was.
pub fn step(words: &[u32], state: LaneState) -> Stepped
    ensures { result ≡ step words.now state }
{
    decide(look_up(words, state), state)
}

// A step of one lane: the new state is written into the caller's own record. Gives 0, or the number of a refusal, which leaves
// the record as it was.
pub fn step_lane(words: &[u32], lane: &mut LaneState) -> u32
    ensures { (result ≡ (step words.now lane.old).number) × (lane.new ≡ (step words.now lane.old).state) }
{
    let stepped = step(words, *lane);
    *lane = stepped.state;
    stepped.number
}

// A step of all lanes: every record is tried, and then every record moves. Gives 0, or the refusal number of the lowest record
// that is refused, and then none moves.
pub fn step_all(words: &[u32], lanes: &mut [LaneState]) -> u32
    ensures { (result ≡ refusal words.now lanes.old) × (lanes.new ≡ step_all words.now lanes.old) }
{
    for lane in lanes.iter() {
        let stepped = step(words, *lane);
        if stepped.number != 0 {
            return stepped.number;
        }
    }
    for lane in lanes.iter_mut() {
        let stepped = step(words, *lane);
        *lane = stepped.state;
    }
    0
}
