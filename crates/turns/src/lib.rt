// A row of lanes' records, over words in bytes in which a plan's tables lie one after another (paper 02, request 14): all records started
// there, or turned there from another plan's tables and stepped.
#![tactic(auto)]

ghost use Rattle.std.specs.Prelude.{◌≡◌, cond, ◌%◌, ◌/◌, eqb, length};
ghost use mathlib.Core.List.{flat_map};
ghost use Rattle.plan.specs.Dispatch.{starts_at, step, refusal, step_all};
ghost use Rattle.plan.specs.Boundary.{words_of, state_of, state_bytes};
ghost use Rattle.modes.specs.Modes.{table_after, table_from, placed, at_table};
ghost use Rattle.turns.specs.Turns.{states_of};

use plan::LaneState;
use records::{moved, number_for, word_at};
use states::{STATE, put_state, state_of};

// The word after the table that begins at a word, as a 32-bit number.
fn table_after(words: &[u8], at: u32) -> u32
    ensures { result ≡ table_after (words_of words.now) at }
{
    let entries = word_at(words, at as usize + 1);
    let after = at as u64 + 2 + 3 * entries as u64;
    (after % 4294967296) as u32
}

// A state at the table that begins at another word.
fn at_table(state: LaneState, at: u32) -> LaneState
    ensures { result ≡ at_table at state }
{
    LaneState {
        cycle: state.cycle,
        tick: state.tick,
        entry: state.entry,
        first: at,
        kind: state.kind,
        row: state.row,
    }
}

// Starts all records in a cycle, the first one's table at a word.
pub fn start_all(words: &[u8], first: u32, cycle: u64, states: &mut [u8])
    requires { length states.old % 28 ≡ 0 }
    ensures { states.new ≡ flat_map state_bytes (starts_at (table_from (words_of words.now) first) cycle (length states.old / 28)) }
{
    let mut at = first;
    for i in (0..states.len()).step_by(STATE) {
        put_state(&mut states[i..i + STATE], LaneState::start(cycle, at));
        at = table_after(words, at);
    }
}

// The number of a step of a record of 28 bytes whose table begins at another word.
fn number_there(words: &[u8], at: u32, bytes: &[u8]) -> u32
    requires { length bytes.now ≡ 28 }
    ensures { result ≡ (step (words_of words.now) (at_table at (state_of bytes.now))).number }
{
    number_for(words, at_table(state_of(bytes), at))
}

// Moves such a record, where it is not refused.
fn move_there(words: &[u8], at: u32, bytes: &mut [u8])
    requires { (length bytes.old ≡ 28) × ((step (words_of words.now) (at_table at (state_of bytes.old))).number ≡ 0) }
    ensures { bytes.new ≡ state_bytes (step (words_of words.now) (at_table at (state_of bytes.old))).state }
{
    let next = moved(words, at_table(state_of(bytes), at));
    put_state(bytes, next);
}

// The number of the lowest record that is refused, or 0.
fn refused_there(words: &[u8], first: u32, states: &[u8]) -> u32
    requires { length states.now % 28 ≡ 0 }
    ensures { result ≡ refusal (words_of words.now) (placed (words_of words.now) first (states_of states.now)) }
{
    let mut at = first;
    for bytes in states.chunks_exact(STATE) {
        let number = number_there(words, at, bytes);
        if number != 0 {
            return number;
        }
        at = table_after(words, at);
    }
    0
}

// Moves all records, none of which is refused.
fn move_all_there(words: &[u8], first: u32, states: &mut [u8])
    requires { (length states.old % 28 ≡ 0) × (refusal (words_of words.now) (placed (words_of words.now) first (states_of states.old)) ≡ 0) }
    ensures { states.new ≡ flat_map state_bytes (step_all (words_of words.now) (placed (words_of words.now) first (states_of states.old))) }
{
    let mut at = first;
    for i in (0..states.len()).step_by(STATE) {
        move_there(words, at, &mut states[i..i + STATE]);
        at = table_after(words, at);
    }
}

// Turns all records to the tables of which the first begins at a word, and steps them there: every record is tried, and then every record
// moves. Gives 0, or the number of the lowest record that is refused, and then no byte changes.
pub fn turn_all(words: &[u8], first: u32, states: &mut [u8]) -> u32
    requires { length states.old % 28 ≡ 0 }
    ensures value { result ≡ refusal (words_of words.now) (placed (words_of words.now) first (states_of states.old)) }
    ensures states_after { states.new ≡ cond (eqb result 0) (flat_map state_bytes (step_all (words_of words.now) (placed (words_of words.now) first (states_of states.old)))) states.old }
{
    let lowest = refused_there(words, first, states);
    if lowest != 0 {
        return lowest;
    }
    move_all_there(words, first, states);
    0
}
