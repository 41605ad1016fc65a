// Steps of lanes' records of 28 bytes, over words in bytes (paper 01, "What the product covers").
#![tactic(auto)]

ghost use Rattle.std.specs.Prelude.{◌≡◌, true, ◌≤◌, length, get_or};
ghost use Rattle.plan.specs.Dispatch.{step};
ghost use Rattle.plan.specs.Boundary.{words_of, step_number, step_bytes, step_all_number, step_all_bytes};
ghost use Rattle.moves.specs.Lookups.{lookup};
ghost use Rattle.records.specs.Entries.{has_entry};

use moves::{Lookup, ends_calendar, fits_table, state_after};
use plan::LaneState;
use states::{STATE, put_state, state_of};
use tables::word;

// The word at an index, or 0 past the end. A part of a word at the end does not count.
pub fn word_at(words: &[u8], i: usize) -> u32
    ensures { result ≡ get_or (words_of words.now) i 0 }
{
    if i < words.len() / 4 {
        word(words, 4 * i)
    } else {
        0
    }
}

// Does the state's table lie inside the words, and has it the state's entry?
fn has_entry(words: &[u8], state: LaneState) -> bool
    ensures { result ≡ has_entry (words_of words.now) state }
{
    let first = state.first as usize;
    let entries = word_at(words, first + 1);
    let inside = first + 2 + 3 * entries as usize <= words.len() / 4;
    let exists = state.entry < entries;
    inside & exists
}

// What a step of the state looks up: six words.
fn look_up(words: &[u8], state: LaneState) -> Lookup
    requires { has_entry (words_of words.now) state ≡ true }
    ensures { result ≡ lookup (words_of words.now) state }
{
    let first = state.first as usize;
    let at = first + 2 + 3 * state.entry as usize;
    let ticks = word(words, 4 * first);
    let entries = word(words, 4 * (first + 1));
    let begin = word(words, 4 * at);
    let kind = word(words, 4 * (at + 1));
    let row = word(words, 4 * (at + 2));
    let next = word_at(words, at + 3);
    let inside = first + 2 + 3 * entries as usize <= words.len() / 4;
    Lookup {
        inside: inside,
        ticks: ticks,
        entries: entries,
        begin: begin,
        kind: kind,
        row: row,
        next: next,
    }
}

// The number of a step of a state.
pub fn number_for(words: &[u8], state: LaneState) -> u32
    ensures { result ≡ (step (words_of words.now) state).number }
{
    if !has_entry(words, state) {
        return 27;
    }
    let table = look_up(words, state);
    if !fits_table(table, state) {
        return 27;
    }
    if ends_calendar(table, state) {
        return 28;
    }
    0
}

// The state after a step that is not refused.
pub fn moved(words: &[u8], state: LaneState) -> LaneState
    requires { (step (words_of words.now) state).number ≡ 0 }
    ensures { result ≡ (step (words_of words.now) state).state }
{
    state_after(look_up(words, state), state)
}

// The number of a step of a record of 28 bytes.
pub fn number_of(words: &[u8], bytes: &[u8]) -> u32
    requires { length bytes.now ≡ 28 }
    ensures { result ≡ step_number words.now bytes.now }
{
    number_for(words, state_of(bytes))
}

// Moves a record of 28 bytes that is not refused.
pub fn move_record(words: &[u8], bytes: &mut [u8])
    requires { (length bytes.old ≡ 28) × (step_number words.now bytes.old ≡ 0) }
    ensures { bytes.new ≡ step_bytes words.now bytes.old }
{
    let next = moved(words, state_of(bytes));
    put_state(bytes, next);
}

// The number of a step of a record that may be cut short.
fn number_at(words: &[u8], bytes: &[u8]) -> u32
    requires { length bytes.now ≤ 28 }
    ensures { result ≡ step_number words.now bytes.now }
{
    if bytes.len() < STATE {
        return 27;
    }
    number_of(words, bytes)
}

// The number of the lowest record that is refused, or 0.
pub fn refused_number(words: &[u8], states: &[u8]) -> u32
    ensures { result ≡ step_all_number words.now states.now }
{
    for bytes in states.chunks(STATE) {
        let number = number_at(words, bytes);
        if number != 0 {
            return number;
        }
    }
    0
}

// Moves all records, none of which is refused.
pub fn move_all(words: &[u8], states: &mut [u8])
    requires { step_all_number words.now states.old ≡ 0 }
    ensures { states.new ≡ step_all_bytes words.now states.old }
{
    for i in (0..states.len()).step_by(STATE) {
        move_record(words, &mut states[i..i + STATE]);
    }
}

// Steps all lanes: every record is tried, and then every record moves. Gives 0, also for no records, or the number of the
// lowest record that is refused, and then no byte changes.
pub fn step_all(words: &[u8], states: &mut [u8]) -> u32
    ensures { (result ≡ step_all_number words.now states.old) × (states.new ≡ step_all_bytes words.now states.old) }
{
    let lowest = refused_number(words, states);
    if lowest != 0 {
        return lowest;
    }
    move_all(words, states);
    0
}
