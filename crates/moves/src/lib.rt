// One tick of a lane's state (paper 01, "Dispatch" and questions 27 and 28), from the few numbers that it looks up in its table, wherever they
// are read. Any state and any numbers are taken; those that do not fit each other are refused.
#![tactic(auto)]

ghost use Rattle.std.specs.Prelude.{◌≡◌, false, ◌<◌};
ghost use Rattle.moves.specs.Lookups.{fits_table, ends_cycle, ends_calendar, state_after, decided};

use plan::{LaneState, Stepped};

// What a step looks up in its lane's table: whether the table lies inside the words; its cycle H and count n of entries; the
// current entry's first tick, kind and row; and the first tick of the entry after it. A word past the end counts as 0.
#[derive(Clone, Copy)]
pub struct Lookup {
    pub inside: bool,
    pub ticks: u32,
    pub entries: u32,
    pub begin: u32,
    pub kind: u32,
    pub row: u32,
    pub next: u32,
}

// 27: does the state fit its table?
pub fn fits_table(table: Lookup, state: LaneState) -> bool
    ensures { result ≡ fits_table table state }
{
    let exists = state.entry < table.entries;
    let in_cycle = state.tick < table.ticks;
    let begun = table.begin <= state.tick;
    let last = table.entries as u64 <= state.entry as u64 + 1;
    let before_next = state.tick < table.next;
    table.inside & exists & in_cycle & begun & (last | before_next)
}

// Is this the last tick of the cycle?
fn ends_cycle(table: Lookup, state: LaneState) -> bool
    ensures { result ≡ ends_cycle table state }
{
    state.tick as u64 + 1 == table.ticks as u64
}

// 28: is this the last tick of cycle 2^64 - 1, where the calendar ends?
pub fn ends_calendar(table: Lookup, state: LaneState) -> bool
    ensures { result ≡ ends_calendar table state }
{
    let last_cycle = state.cycle == 18446744073709551615;
    ends_cycle(table, state) & last_cycle
}

// The cycle, the tick and the entry one tick on.
fn cycle_after(table: Lookup, state: LaneState) -> u64
    requires { ends_calendar table state ≡ false }
    ensures { result ≡ (state_after table state).cycle }
{
    if ends_cycle(table, state) {
        state.cycle + 1
    } else {
        state.cycle
    }
}

fn tick_after(table: Lookup, state: LaneState) -> u32
    requires { state.tick < table.ticks }
    ensures { result ≡ (state_after table state).tick }
{
    if ends_cycle(table, state) {
        0
    } else {
        state.tick + 1
    }
}

fn entry_after(table: Lookup, state: LaneState) -> u32
    requires { (state.entry < table.entries) × (state.tick < table.ticks) }
    ensures { result ≡ (state_after table state).entry }
{
    if ends_cycle(table, state) {
        return 0;
    }
    let follows = state.entry + 1 < table.entries;
    let reached = table.next <= state.tick + 1;
    if follows & reached {
        state.entry + 1
    } else {
        state.entry
    }
}

// The state one tick on. It shows the kind and row of the entry that it leaves or stays in.
pub fn state_after(table: Lookup, state: LaneState) -> LaneState
    requires { ((state.entry < table.entries) × (state.tick < table.ticks)) × (ends_calendar table state ≡ false) }
    ensures { result ≡ state_after table state }
{
    LaneState {
        cycle: cycle_after(table, state),
        tick: tick_after(table, state),
        entry: entry_after(table, state),
        first: state.first,
        kind: table.kind,
        row: table.row,
    }
}

// A step, from the numbers that it looks up, wherever they are read. A refusal leaves the state as it was.
pub fn decide(table: Lookup, state: LaneState) -> Stepped
    ensures { result ≡ decided table state }
{
    if !fits_table(table, state) {
        return Stepped {
            number: 27,
            state: state,
        };
    }
    if ends_calendar(table, state) {
        return Stepped {
            number: 28,
            state: state,
        };
    }
    let next = state_after(table, state);
    Stepped {
        number: 0,
        state: next,
    }
}
