// Tables in bytes (paper 01, "What the product covers" and "Dispatch"; question 26): a lane's table written into lent bytes as
// little-endian words, entry by entry as the walk along the lane finds them, and the tables of all lanes.
#![tactic(auto)]

ghost use Rattle.std.specs.Prelude.{◌≡◌, ◌∷◌, [], ◌+◌, ◌*◌, ◌<◌, ◌≤◌, length};
ghost use Rattle.plan.specs.Image.{cycle_ticks};
ghost use Rattle.plan.specs.Dispatch.{lanes, entry_count, entries, table_of};
ghost use Rattle.lanes.specs.Walks.{Gathered};
ghost use Rattle.writing.specs.Stored.{stored, Built};
ghost use Rattle.writing.specs.AllTables.{all_tables, BuiltAll};

use lanes::{count_entries, lane_count, start, step};
use plan::Answer;
use tables::cycle_ticks;
use words::put_word;

// An entry from byte `at` on: first tick, kind, row.
fn put_entry(bytes: &mut [u8], at: usize, first: u32, kind: u32, row: u32)
    requires { at + 12 ≤ length bytes.old }
    ensures { bytes.new ≡ stored bytes.old at (first ∷ kind ∷ row ∷ []) }
{
    put_word(bytes, at, first);
    put_word(bytes, at + 4, kind);
    put_word(bytes, at + 8, row);
}

// A lane's entries from byte `at` on. Gives n, how many they are.
fn write_entries(
    image: &[u8],
    charges: &[u32],
    index: &[u32],
    lane: u32,
    bytes: &mut [u8],
    at: usize,
) -> u32
    requires gathered { Gathered image.now charges.now index.now × (lane < lanes image.now) }
    requires lane_in_bounds { at + 12 * entry_count image.now lane ≤ length bytes.old }
    ensures { (result ≡ entry_count image.now lane) × (bytes.new ≡ stored bytes.old at (entries image.now lane (cycle_ticks image.now))) }
{
    let end = cycle_ticks(image);
    let mut walk = start(image, index, lane);
    let mut count: u32 = 0;
    while walk.until < end {
        walk = step(image, charges, index, lane, walk);
        if walk.begins {
            put_entry(
                bytes,
                at + 12 * count as usize,
                walk.from,
                walk.kind,
                walk.row,
            );
            count += 1;
        }
    }
    count
}

// A lane's table from byte `at` on: H, n and the entries. Gives n.
fn write_table(
    image: &[u8],
    charges: &[u32],
    index: &[u32],
    lane: u32,
    bytes: &mut [u8],
    at: usize,
) -> u32
    requires gathered { Gathered image.now charges.now index.now × (lane < lanes image.now) }
    requires lane_in_bounds { at + 4 * (2 + 3 * entry_count image.now lane) ≤ length bytes.old }
    ensures { (result ≡ entry_count image.now lane) × (bytes.new ≡ stored bytes.old at (table_of image.now lane)) }
{
    let count = write_entries(image, charges, index, lane, bytes, at + 8);
    put_word(bytes, at, cycle_ticks(image));
    put_word(bytes, at + 4, count);
    count
}

// 26, and the table of a lane of an accepted plan where the words suffice. A part of a word at the end does not count.
pub fn fill(image: &[u8], charges: &[u32], index: &[u32], lane: u32, bytes: &mut [u8]) -> Answer
    requires { Gathered image.now charges.now index.now × (lane < lanes image.now) }
    ensures { Built image.now lane bytes.old result bytes.new }
{
    let count = count_entries(image, charges, index, lane);
    if bytes.len() / 4 < 2 + 3 * count as usize {
        return Answer {
            number: 26,
            table: 0,
            row: 0,
        };
    }
    write_table(image, charges, index, lane, bytes, 0);
    plan::accepted()
}

// How many words the tables of all lanes take.
pub fn words_of_all(image: &[u8], charges: &[u32], index: &[u32]) -> usize
    requires { Gathered image.now charges.now index.now }
    ensures { result ≡ length (all_tables image.now) }
{
    let lanes = lane_count(image);
    let mut words: usize = 0;
    for lane in 0..lanes {
        words += 2 + 3 * count_entries(image, charges, index, lane) as usize;
    }
    words
}

// The tables of all lanes, one after another from byte 0 on.
pub fn write_all(image: &[u8], charges: &[u32], index: &[u32], bytes: &mut [u8])
    requires { Gathered image.now charges.now index.now × (4 * length (all_tables image.now) ≤ length bytes.old) }
    ensures { bytes.new ≡ stored bytes.old 0 (all_tables image.now) }
{
    let lanes = lane_count(image);
    let mut at: usize = 0;
    for lane in 0..lanes {
        let count = write_table(image, charges, index, lane, bytes, at);
        at += 8 + 12 * count as usize;
    }
}

// 26 of all words together, and the tables of all lanes of an accepted plan where the words suffice.
pub fn fill_all(image: &[u8], charges: &[u32], index: &[u32], bytes: &mut [u8]) -> Answer
    requires { Gathered image.now charges.now index.now }
    ensures { BuiltAll image.now bytes.old result bytes.new }
{
    if bytes.len() / 4 < words_of_all(image, charges, index) {
        return Answer {
            number: 26,
            table: 0,
            row: 0,
        };
    }
    write_all(image, charges, index, bytes);
    plan::accepted()
}
