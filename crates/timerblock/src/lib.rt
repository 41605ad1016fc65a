// The tick timer in a lent block (paper 02, request 12): 16 bytes, the registers as four little-endian words. A block of another length is
// refused with 38 and stays as it was.
#![tactic(auto)]

ghost use Rattle.std.specs.Prelude.{◌≡◌, length};
ghost use Rattle.timerblock.specs.Blocks.{timer_of, timer_bytes, block_number, started_bytes, reading_bytes, register_number, writing_number, written_bytes, interrupt_word};

use tables::word;
use timer::{Timer, bit_word, is_set};
use words::put_word;

// How many bytes a block takes.
const BLOCK: usize = 16;

// The timer that a block of 16 bytes stands for.
fn timer_of(block: &[u8]) -> Timer
    requires { length block.now ≡ 16 }
    ensures { result ≡ timer_of block.now }
{
    let status = word(block, 8);
    let enable = word(block, 12);
    Timer {
        count: word(block, 0),
        compare: word(block, 4),
        matched: is_set(status),
        enabled: is_set(enable),
    }
}

// Writes a timer into a block of 16 bytes.
fn put_timer(block: &mut [u8], timer: Timer)
    requires { length block.old ≡ 16 }
    ensures { block.new ≡ timer_bytes timer }
{
    let status = bit_word(timer.matched);
    let enable = bit_word(timer.enabled);
    put_word(block, 0, timer.count);
    put_word(block, 4, timer.compare);
    put_word(block, 8, status);
    put_word(block, 12, enable);
}

// Makes a block fresh: 0 everywhere. Gives 0 or 38.
pub fn start(block: &mut [u8]) -> u32
    ensures { (result ≡ block_number block.old) × (block.new ≡ started_bytes block.old) }
{
    if block.len() == BLOCK {
        put_timer(block, Timer::fresh());
        return 0;
    }
    38
}

// A reading: brings in the counter's new value. Gives 0 or 38.
pub fn reading(block: &mut [u8], count: u32) -> u32
    ensures { (result ≡ block_number block.old) × (block.new ≡ reading_bytes block.old count) }
{
    if block.len() == BLOCK {
        let next = timer::reading(timer_of(block), count);
        put_timer(block, next);
        return 0;
    }
    38
}

// Reads a register. Gives number + 2^32 × value.
pub fn read(block: &[u8], address: u32) -> u64
    ensures { result ≡ register_number block.now address }
{
    if block.len() == BLOCK {
        let register = timer::read(timer_of(block), address);
        return register.number as u64 + 4294967296 * register.value as u64;
    }
    38
}

// Writes a register. Gives 0, 38 or 39; a refusal changes no byte.
pub fn write(block: &mut [u8], address: u32, x: u32) -> u32
    ensures { (result ≡ writing_number block.old address) × (block.new ≡ written_bytes block.old address x) }
{
    if block.len() != BLOCK {
        return 38;
    }
    let next = timer::write(timer_of(block), address, x);
    if next.number != 0 {
        return next.number;
    }
    let after = next.timer;
    put_timer(block, after);
    0
}

// Gives 1 while the interrupt is raised, else 0.
pub fn interrupt(block: &[u8]) -> u32
    ensures { result ≡ interrupt_word block.now }
{
    if block.len() == BLOCK {
        return bit_word(timer::interrupt(timer_of(block)));
    }
    0
}
