// An answer in words (paper 02, request 9) put into lent bytes: what its number says, then its number and its place. As in crate lines, what does not fit
// falls away, and the place after it is given either way.
#![tactic(auto)]

ghost use Rattle.std.specs.Prelude.{◌≡◌, ◌+◌, ◌^◌, ◌≤◌, length, drop};
ghost use Rattle.texts.specs.Characters.{first_line, lines_from, line_at};
ghost use Rattle.texts.specs.Wording.{phrase, named, kind, place, line_of, line_length, line_bytes};
ghost use Rattle.texts.specs.Printed.{word_line};
ghost use Rattle.lines.specs.Putting.{Put};

use lines::{put, put_digits};

// What each number says, a line for each from 0 on.
const PHRASES: [u8; 1769] = *b"accepted, every question is answered yes
the image's length is out of bounds
the last word does not point to the trailer
row counts, offsets and trailer do not fit
the cycle H or the precision P is out of range
a row number names no existing row
a value is out of range
a window is too short, or ends after H
two windows on one core overlap
a task's mask does not allow its VCPU's core
no such job, or a piece too short, early or late
not in one window of its VCPU after the switch
two pieces on one core overlap
a job's pieces do not sum to budget and switches
periods differ, or both tasks are on one node
no such job or hop, or not in its job's period
a job's hop has no frame, or several
the hops do not lead from sender to receiver
may start before the previous hop has arrived
two frames on one link overlap
sent before the sender ends, or may be read early
may take longer than its latency
periods differ, or the tasks are not on one node
a reader job starts before the writer job ends
two holds of one buffer overlap
there is no such lane or link
too few words are lent
a state does not fit its bytes or its words
the calendar is over
one of its tasks does not exist, or both are one
no path joins its tasks
a job may take longer than the limit
a row is out of order, below the one before it
no draft with true totals, or no such piece
no such free place, or too few words are lent
H, P, cores, VCPUs, windows or links differ
the shared tasks differ, or are not in both plans
too many rows, or too few bytes are lent
no register has this address
the count is read only
the queue is out of range
two frames stay in one queue of a link at once
too few words are lent for the gate list
no plan is held at that place
H, core or link count is not the running plan's
";

const PHRASED: u32 = 45;

// No line is longer (`LinesFit` of texts).
const LINE: usize = 95;

// The kinds of rows, a line for each from table 1 on.
const KINDS: [u8; 59] = *b"core
VCPU
task
window
piece
link
stream
frame
buffer
chain
";

const NAMED: u32 = 10;

// A text from byte `at` on.
fn put_text(out: &mut [u8], at: usize, text: &[u8]) -> usize
    requires { (at ≤ 2 ^ 40) × (length text.now ≤ 2 ^ 40) }
    ensures { Put out.old at text.now (length text.now) result out.new }
{
    for i in 0..text.len() {
        put(out, at + i, text[i]);
    }
    at + text.len()
}

// Where line n of a text begins, or the text's end where it has fewer.
fn line_start(text: &[u8], n: u32) -> usize
    ensures { (result ≤ length text.now) × (drop result text.now ≡ lines_from n text.now) }
{
    let mut left = n;
    for at in 0..text.len() {
        if left == 0 {
            return at;
        }
        if text[at] == b'\n' {
            left -= 1;
        }
    }
    text.len()
}

// The end of the line that begins at a place: its newline, or the text's end.
fn line_end(text: &[u8], from: usize) -> usize
    requires { from ≤ length text.now }
    ensures { result ≡ from + length (first_line (drop from text.now)) }
{
    match text[from..].iter().position(|byte| *byte == b'\n') {
        Some(length) => from + length,
        None => text.len(),
    }
}

// Line n of a text.
fn put_line_at(out: &mut [u8], at: usize, text: &[u8], n: u32) -> usize
    requires { (at ≤ 2 ^ 40) × (length text.now ≤ 2 ^ 40) }
    ensures { Put out.old at (line_at n text.now) (length (line_at n text.now)) result out.new }
{
    let from = line_start(text, n);
    let end = line_end(text, from);
    put_text(out, at, &text[from..end])
}

// What a number says.
fn put_phrase(out: &mut [u8], at: usize, number: u32) -> usize
    requires { at ≤ 2 ^ 40 }
    ensures { Put out.old at (phrase number) 51 result out.new }
{
    if number < PHRASED {
        return put_line_at(out, at, &PHRASES, number);
    }
    put_text(out, at, b"no question has this number")
}

// Has a table a name?
fn is_named(table: u32) -> bool
    ensures { result ≡ named table }
{
    (0 < table) & (table <= NAMED)
}

// A kind of rows by name; a table without one by its number.
fn put_kind(out: &mut [u8], at: usize, table: u32) -> usize
    requires { at ≤ 2 ^ 39 }
    ensures { Put out.old at (kind table) 21 result out.new }
{
    if is_named(table) {
        return put_line_at(out, at, &KINDS, table - 1);
    }
    let number = put_text(out, at, b"table ");
    let end = put_digits(out, number, table);
    put_text(out, end, b", row")
}

// A row's kind and number.
fn put_place(out: &mut [u8], at: usize, table: u32, row: u32) -> usize
    requires { at ≤ 2 ^ 39 }
    ensures { Put out.old at (place table row) 32 result out.new }
{
    let end = put_kind(out, at, table);
    let number = put_text(out, end, b" ");
    put_digits(out, number, row)
}

// An answer in words: what its number says, then number and place in brackets.
fn put_line(out: &mut [u8], at: usize, number: u32, table: u32, row: u32) -> usize
    requires { at ≤ 2 ^ 38 }
    ensures { Put out.old at (line_of (record { number = number; table = table; row = row })) 95 result out.new }
{
    let bracket = put_phrase(out, at, number);
    let second = put_text(out, bracket, b" (answer ");
    let comma = put_digits(out, second, number);
    let third = put_text(out, comma, b", ");
    let end = put_place(out, third, table, row);
    put_text(out, end, b")")
}

// The same with its newline.
pub fn put_words(out: &mut [u8], at: usize, number: u32, table: u32, row: u32) -> usize
    requires { at ≤ 2 ^ 38 }
    ensures { Put out.old at (word_line (record { number = number; table = table; row = row })) 96 result out.new }
{
    let end = put_line(out, at, number, table, row);
    put(out, end, b'\n');
    end + 1
}

// An answer in words without a newline, where the bytes suffice. Gives its length, or 0, and then no byte changes. Later bytes stay as they are.
pub fn write_line(number: u32, table: u32, row: u32, line: &mut [u8]) -> u32
    ensures { (result ≡ line_length (record { number = number; table = table; row = row }) line.old) × (line.new ≡ line_bytes (record { number = number; table = table; row = row }) line.old) }
{
    let mut whole = [0u8; LINE];
    let length = put_line(&mut whole, 0, number, table, row);
    if line.len() < length {
        return 0;
    }
    put_text(line, 0, &whole[..length]);
    length as u32
}
