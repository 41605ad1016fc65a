// The joined image (paper 02, request 10), counted and then written into lent bytes: the rows that are picked, table by table, and the trailer.
#![tactic(auto)]

ghost use Rattle.std.specs.Prelude.{◌≡◌, true, ℕ, ◌+◌, ◌*◌, ◌^◌, ◌≤◌, ◌<◌, length, get_or, drop};
ghost use mathlib.Core.List.{◌++◌, flat_map};
ghost use Rattle.plan.specs.declared.Table.TheVariants.{Tasks, Streams};
ghost use Rattle.plan.specs.Image.{rows, shape, tables, most_pieces};
ghost use Rattle.joins.specs.Joins.{table_words, rows_fit, joined_rows, joined_image, stream_at};
ghost use Rattle.tables.specs.Tables.{table_count};
ghost use Rattle.tallies.specs.Tallies.{Kept};
ghost use Rattle.pairs.specs.Pairs.{Ready, Placed, both_row};
ghost use Rattle.picking.specs.Picking.{Numbers, picked_rows};
ghost use Rattle.composing.specs.Composing.{Wrote, WroteLayout, Tallied, Counted, Written};

use pairs::word_of;
use picking::{pick, place_streams};
use plan::Table;
use tables::{cycle_ticks, precision_ticks, shape_of, table_at};
use words::put_word;

// How many words are lent for row counts.
const COUNTS: usize = tables::TABLES as usize;

// How many rows a joined table has.
fn rows_joined(first: &[u8], second: &[u8], shared: u32, streams: &[u32], table: Table) -> u32
    requires ready { Ready first.now second.now × Placed first.now second.now shared streams.now table }
    requires shared_bound { shared ≤ rows second.now Tasks }
    ensures { (result ≡ length (joined_rows first.now second.now shared table)) × (length (flat_map (λ x. x) (joined_rows first.now second.now shared table)) ≡ (shape table).width * result) }
{
    let mut picks = [0u32; picking::PICKS];
    pick(first, second, shared, streams, table, &mut picks)
}

// Counts the rows of each joined table, and gives the joined image's length; none where a table would have too many rows.
fn count(
    first: &[u8],
    second: &[u8],
    shared: u32,
    streams: &[u32],
    counts: &mut [u32],
) -> Option<u32>
    requires ready { Ready first.now second.now × Kept streams.now 0 (rows second.now Streams) (stream_at first.now second.now shared) }
    requires shared_bound { (shared ≤ rows second.now Tasks) × (length counts.old ≡ table_count) }
    ensures { Counted (joined_rows first.now second.now shared) counts.new result }
{
    let mut bytes = tables::TRAILER_BYTES as u32;
    for i in 0..tables::TABLES {
        let table = table_at(i);
        let n = rows_joined(first, second, shared, streams, table);
        let shape = shape_of(table);
        if shape.most < n {
            return None;
        }
        counts[i as usize] = n;
        bytes += 4 * (shape.width * n);
    }
    Some(bytes)
}

// Writes a row of both. Gives the byte after it.
fn put_row(
    first: &[u8],
    second: &[u8],
    shared: u32,
    streams: &[u32],
    table: Table,
    row: u32,
    joined: &mut [u8],
    at: usize,
) -> usize
    requires ready { Ready first.now second.now × Placed first.now second.now shared streams.now table }
    requires row_bound { (row < rows first.now table + rows second.now table) × (at + 4 * (shape table).width ≤ length joined.old) }
    ensures { Wrote joined.old at (both_row first.now second.now shared table row) result joined.new }
{
    let width = shape_of(table).width;
    let mut place = at;
    for j in 0..width {
        put_word(
            joined,
            place,
            word_of(first, second, shared, streams, table, row, j),
        );
        place += 4;
    }
    place
}

// Writes the rows that are picked.
fn put_rows(
    first: &[u8],
    second: &[u8],
    shared: u32,
    streams: &[u32],
    table: Table,
    picks: &[u32],
    n: u32,
    joined: &mut [u8],
    at: usize,
) -> usize
    requires ready { Ready first.now second.now × Placed first.now second.now shared streams.now table }
    requires numbers { Numbers first.now second.now shared table picks.now n × (at + 4 * ((shape table).width * n) ≤ length joined.old) }
    ensures { Wrote joined.old at (flat_map (λ x. x) (picked_rows first.now second.now shared table picks.now n)) result joined.new }
{
    let mut place = at;
    for i in 0..n {
        place = put_row(
            first,
            second,
            shared,
            streams,
            table,
            picks[i as usize],
            joined,
            place,
        );
    }
    place
}

// Writes a joined table.
fn put_table(
    first: &[u8],
    second: &[u8],
    shared: u32,
    streams: &[u32],
    table: Table,
    joined: &mut [u8],
    at: usize,
) -> usize
    requires ready { Ready first.now second.now × Placed first.now second.now shared streams.now table }
    requires shared_bound { (shared ≤ rows second.now Tasks) × (at + 4 * length (flat_map (λ x. x) (joined_rows first.now second.now shared table)) ≤ length joined.old) }
    ensures { Wrote joined.old at (flat_map (λ x. x) (joined_rows first.now second.now shared table)) result joined.new }
{
    let mut picks = [0u32; picking::PICKS];
    let n = pick(first, second, shared, streams, table, &mut picks);
    put_rows(first, second, shared, streams, table, &picks, n, joined, at)
}

// Writes all joined tables from byte 0 on.
fn put_tables(first: &[u8], second: &[u8], shared: u32, streams: &[u32], joined: &mut [u8]) -> usize
    requires ready { Ready first.now second.now × Kept streams.now 0 (rows second.now Streams) (stream_at first.now second.now shared) }
    requires shared_bound { (shared ≤ rows second.now Tasks) × (4 * length (table_words (joined_rows first.now second.now shared) tables) ≤ length joined.old) }
    ensures { Wrote joined.old 0 (table_words (joined_rows first.now second.now shared) tables) result joined.new }
{
    let mut place: usize = 0;
    for i in 0..tables::TABLES {
        let table = table_at(i);
        place = put_table(first, second, shared, streams, table, joined, place);
    }
    place
}

// Writes the offset and row count of each table, and then the last word: where the tables end.
fn put_layout(counts: &[u32], joined: &mut [u8], at: usize) -> usize
    requires table_count_in_bounds { (table_count ≤ length counts.now) × ((i : ℕ) → i < table_count → get_or counts.now i 0 ≤ most_pieces) }
    requires at_in_bounds { at + 84 ≤ length joined.old }
    ensures { WroteLayout counts.now joined.old at result joined.new }
{
    let mut from: u32 = 0;
    let mut place = at;
    for i in 0..tables::TABLES {
        let n = counts[i as usize];
        put_word(joined, place, from);
        put_word(joined, place + 4, n);
        from += 4 * (shape_of(table_at(i)).width * n);
        place += 8;
    }
    put_word(joined, place, from);
    place + 4
}

// Writes the joined image. Later bytes stay as they are.
fn compose(
    first: &[u8],
    second: &[u8],
    shared: u32,
    streams: &[u32],
    counts: &[u32],
    joined: &mut [u8],
)
    requires ready { Ready first.now second.now × Kept streams.now 0 (rows second.now Streams) (stream_at first.now second.now shared) }
    requires shared_bound { (shared ≤ rows second.now Tasks) × Tallied (joined_rows first.now second.now shared) counts.now }
    requires tables_value { (rows_fit (joined_rows first.now second.now shared) tables ≡ true) × ((length (joined_image first.now second.now shared) ≤ length joined.old) × (length (joined_image first.now second.now shared) < 2 ^ 32)) }
    ensures { joined.new ≡ joined_image first.now second.now shared ++ drop (length (joined_image first.now second.now shared)) joined.old }
{
    let at = put_tables(first, second, shared, streams, joined);
    put_word(joined, at, cycle_ticks(first));
    put_word(joined, at + 4, precision_ticks(first));
    put_layout(counts, joined, at + 8);
}

// Writes the joined image where row limits and the lent bytes suffice (37), and gives its length; else none, and no byte is written.
pub fn write(first: &[u8], second: &[u8], shared: u32, joined: &mut [u8]) -> Option<u32>
    requires { Ready first.now second.now × (shared ≤ rows second.now Tasks) }
    ensures { Written first.now second.now shared joined.old result joined.new }
{
    let mut streams = [0u32; picking::STREAMS];
    place_streams(first, second, shared, &mut streams);
    let mut counts = [0u32; COUNTS];
    let length = count(first, second, shared, &streams, &mut counts)?;
    if joined.len() < length as usize {
        return None;
    }
    compose(first, second, shared, &streams, &counts, joined);
    Some(length)
}
