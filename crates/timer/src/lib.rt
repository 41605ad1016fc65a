// The board's tick timer (paper 02, request 12): its four registers as a struct by value. Any address is taken; one that names no register
// is refused and changes nothing.
#![tactic(auto)]

ghost use Rattle.std.specs.Prelude.{◌≡◌};
ghost use Rattle.timer.specs.Registers.{fresh, minus, reached, reading, interrupts, is_register, read_number, read_value, write_number, written, bit0, bit_word};

// Count, compare, bit 0 of status (the match) and bit 0 of enable; the other bits of status and enable are always 0.
#[derive(Clone, Copy)]
pub struct Timer {
    pub count: u32,
    pub compare: u32,
    pub matched: bool,
    pub enabled: bool,
}

// What a register read gives: its number, and the register's word, 0 where it is refused.
#[derive(Clone, Copy)]
pub struct Register {
    pub number: u32,
    pub value: u32,
}

// What a register write gives: its number, and the timer afterwards.
#[derive(Clone, Copy)]
pub struct Written {
    pub number: u32,
    pub timer: Timer,
}

impl Timer {
    pub const COUNT: u32 = 0;

    pub const COMPARE: u32 = 4;

    pub const STATUS: u32 = 8;

    pub const ENABLE: u32 = 12;

    // A fresh block.
    pub fn fresh() -> Timer
        ensures { result ≡ fresh }
    {
        Timer {
            count: 0,
            compare: 0,
            matched: false,
            enabled: false,
        }
    }
}

// A count less another, modulo 2^32.
fn minus(a: u32, b: u32) -> u32
    ensures { result ≡ minus a b }
{
    std::num::wrapping_sub_u32(a, b)
}

// Does the counter come to compare on its way from the old count to a new one?
fn reached(timer: Timer, new: u32) -> bool
    ensures { result ≡ reached timer new }
{
    let ahead = minus(timer.compare, timer.count);
    let gone = minus(new, timer.count);
    (1 <= ahead) & (ahead <= gone)
}

// A reading: brings in the counter's new value, and sets the match where the counter came to compare.
pub fn reading(timer: Timer, new: u32) -> Timer
    ensures { result ≡ reading timer new }
{
    let now = reached(timer, new);
    Timer {
        count: new,
        compare: timer.compare,
        matched: now | timer.matched,
        enabled: timer.enabled,
    }
}

// Is the interrupt raised?
pub fn interrupt(timer: Timer) -> bool
    ensures { result ≡ interrupts timer }
{
    timer.matched & timer.enabled
}

// 38: is there a register at the address?
fn is_register(address: u32) -> bool
    ensures { result ≡ is_register address }
{
    (address == Timer::COUNT)
        | (address == Timer::COMPARE)
        | (address == Timer::STATUS)
        | (address == Timer::ENABLE)
}

// Asks 38.
fn read_number(address: u32) -> u32
    ensures { result ≡ read_number address }
{
    if is_register(address) {
        return 0;
    }
    38
}

// Asks 38, then 39.
fn write_number(address: u32) -> u32
    ensures { result ≡ write_number address }
{
    if !is_register(address) {
        return 38;
    }
    if address == Timer::COUNT {
        return 39;
    }
    0
}

// Is bit 0 of a word 1?
pub fn is_set(x: u32) -> bool
    ensures { result ≡ bit0 x }
{
    x % 2 == 1
}

// The word of which a bit is the only one.
pub fn bit_word(set: bool) -> u32
    ensures { result ≡ bit_word set }
{
    if set { 1 } else { 0 }
}

// The word of the register at an address, and 0 where there is none.
fn read_value(timer: Timer, address: u32) -> u32
    ensures { result ≡ read_value timer address }
{
    if address == Timer::COUNT {
        return timer.count;
    }
    if address == Timer::COMPARE {
        return timer.compare;
    }
    if address == Timer::STATUS {
        return bit_word(timer.matched);
    }
    if address == Timer::ENABLE {
        return bit_word(timer.enabled);
    }
    0
}

// The timer after a word is written to a register; one that there is not, or that is read only, leaves it as it was.
fn write_value(timer: Timer, address: u32, x: u32) -> Timer
    ensures { result ≡ written timer address x }
{
    let set = is_set(x);
    let mut next = timer;
    if address == Timer::COMPARE {
        next.compare = x;
        return next;
    }
    if address == Timer::STATUS {
        next.matched = timer.matched & !set;
        return next;
    }
    if address == Timer::ENABLE {
        next.enabled = set;
        return next;
    }
    timer
}

// A register read: 0 and the register's word, or 38 and 0.
pub fn read(timer: Timer, address: u32) -> Register
    ensures { (result.number ≡ read_number address) × (result.value ≡ read_value timer address) }
{
    Register {
        number: read_number(address),
        value: read_value(timer, address),
    }
}

// A register write: 0 and the timer afterwards, or 38 or 39 and the timer as it was.
pub fn write(timer: Timer, address: u32, x: u32) -> Written
    ensures { (result.number ≡ write_number address) × (result.timer ≡ written timer address x) }
{
    Written {
        number: write_number(address),
        timer: write_value(timer, address, x),
    }
}
