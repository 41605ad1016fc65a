// A lane's state as a record of 28 bytes (paper 01, "What the product covers"), read and written.
#![tactic(auto)]

ghost use Rattle.std.specs.Prelude.{◌≡◌, length};
ghost use Rattle.plan.specs.Boundary.{state_of, state_bytes};

use plan::LaneState;
use tables::word;
use words::put_word;

// How many bytes a state takes.
pub const STATE: usize = 28;

// The state that a record of 28 bytes holds.
pub fn state_of(bytes: &[u8]) -> LaneState
    requires { length bytes.now ≡ 28 }
    ensures { result ≡ state_of bytes.now }
{
    let low = word(bytes, 0) as u64;
    let high = word(bytes, 4) as u64;
    LaneState {
        cycle: low + 4294967296 * high,
        tick: word(bytes, 8),
        entry: word(bytes, 12),
        first: word(bytes, 16),
        kind: word(bytes, 20),
        row: word(bytes, 24),
    }
}

// Writes a state into a record of 28 bytes.
pub fn put_state(bytes: &mut [u8], state: LaneState)
    requires { length bytes.old ≡ 28 }
    ensures { bytes.new ≡ state_bytes state }
{
    let low = (state.cycle % 4294967296) as u32;
    let high = (state.cycle / 4294967296) as u32;
    put_word(bytes, 0, low);
    put_word(bytes, 4, high);
    put_word(bytes, 8, state.tick);
    put_word(bytes, 12, state.entry);
    put_word(bytes, 16, state.first);
    put_word(bytes, 20, state.kind);
    put_word(bytes, 24, state.row);
}
