// Questions 22 to 24 (paper 01, "The questions"): buffers and their holds.
#![tactic(auto)]

ghost use Rattle.std.specs.Prelude.{◌≡◌, ◌<◌};
ghost use Rattle.plan.specs.declared.Table.TheVariants.{Buffers};
ghost use Rattle.plan.specs.Image.{rows, buffer};
ghost use Rattle.plan.specs.Questions.{jobs, buffer_ends, reader_waits, same_buffer, hold_apart, hold_clear};
ghost use Rattle.plan.specs.Questions.{piece_questions, buffer_questions};
ghost use Rattle.plan.specs.Held.{Sound, Passed};
ghost use Rattle.asking.specs.Asking.{verdict};
ghost use Rattle.jobs.specs.Times.{Timed};
ghost use Rattle.buffers.specs.Holds.{waits, hold_of, side_of, holds_apart};

use asking::each_row;
use jobs::{first_start, last_end};
use plan::{Answer, Asked, Table};
use tables::{buffer_at, task_at};
use terms::{jobs_of, node_of};

// 22: have writer and reader equal periods and one node?
fn buffer_ends(image: &[u8], row: u32) -> bool
    requires { Sound image.now × (row < rows image.now Buffers) }
    ensures { result ≡ buffer_ends image.now row }
{
    let b = buffer_at(image, row);
    let periods = task_at(image, b.writer).period == task_at(image, b.reader).period;
    let nodes = node_of(image, b.writer) == node_of(image, b.reader);
    periods & nodes
}

// How many jobs a buffer row's writer has.
fn buffer_jobs(image: &[u8], row: u32) -> u32
    requires { Sound image.now × (row < rows image.now Buffers) }
    ensures { result ≡ jobs image.now (buffer image.now row).writer }
{
    jobs_of(image, buffer_at(image, row).writer)
}

// 23: does the reader's job start no sooner than the writer's ends?
fn job_waits(image: &[u8], times: &[u32], row: u32, job: u32) -> bool
    requires sound { Sound image.now × Timed image.now times.now }
    requires row_bound { (row < rows image.now Buffers) × (Passed (buffer_questions image.now) 1 × (job < jobs image.now (buffer image.now row).writer)) }
    ensures { result ≡ waits image.now row job }
{
    let b = buffer_at(image, row);
    last_end(image, times, b.writer, job) <= first_start(image, times, b.reader, job)
}

// 23: does every job?
#[tactic(auto, unfolding(plan::specs::Questions::reader_waits, crate::specs::Holds::waits))]
fn reader_waits(image: &[u8], times: &[u32], row: u32) -> bool
    requires sound { Sound image.now × Timed image.now times.now }
    requires row_bound { (row < rows image.now Buffers) × Passed (buffer_questions image.now) 1 }
    ensures { result ≡ reader_waits image.now row }
{
    let jobs = buffer_jobs(image, row);
    searching::all(jobs, |job| job_waits(image, times, row, job))
}

// A hold: from the writer's first start to the reader's last end.
#[derive(Clone, Copy)]
struct Hold {
    from: u32,
    to: u32,
}

fn hold_of(image: &[u8], times: &[u32], row: u32, job: u32) -> Hold
    requires sound { Sound image.now × Timed image.now times.now }
    requires row_bound { (row < rows image.now Buffers) × (Passed (buffer_questions image.now) 1 × (job < jobs image.now (buffer image.now row).writer)) }
    ensures { result ≡ hold_of image.now row job }
{
    let b = buffer_at(image, row);
    Hold {
        from: first_start(image, times, b.writer, job),
        to: last_end(image, times, b.reader, job),
    }
}

// 24: are two rows of one buffer: one number on one node?
fn same_buffer(image: &[u8], lower: u32, row: u32) -> bool
    requires { Sound image.now × ((lower < row) × (row < rows image.now Buffers)) }
    ensures { result ≡ same_buffer image.now lower row }
{
    let a = buffer_at(image, lower);
    let b = buffer_at(image, row);
    let numbers = a.number == b.number;
    let nodes = node_of(image, a.writer) == node_of(image, b.writer);
    numbers & nodes
}

// 24: whether two holds overlap; else which one is over when the other begins.
#[derive(Clone, Copy)]
enum Side {
    Overlap,
    FirstOver,
    SecondOver,
}

fn side_of(a: Hold, b: Hold) -> Side
    ensures { result ≡ side_of a b }
{
    if (a.from < b.to) & (b.from < a.to) {
        Side::Overlap
    } else if a.to <= b.from {
        Side::FirstOver
    } else {
        Side::SecondOver
    }
}

// 24: does no hold of one row overlap one of the other? The holds of a row rise with their jobs, so the one that ends first need
// not be looked at again.
fn holds_apart(image: &[u8], times: &[u32], lower: u32, row: u32) -> bool
    requires sound { Sound image.now × (Passed (piece_questions image.now) 7 × Timed image.now times.now) }
    requires lower_lt_row { ((lower < row) × (row < rows image.now Buffers)) × Passed (buffer_questions image.now) 1 }
    ensures { result ≡ holds_apart image.now lower row }
{
    let lower_jobs = buffer_jobs(image, lower);
    let jobs = buffer_jobs(image, row);
    let mut j: u32 = 0;
    let mut k: u32 = 0;
    while (j < lower_jobs) & (k < jobs) {
        let a = hold_of(image, times, lower, j);
        let b = hold_of(image, times, row, k);
        match side_of(a, b) {
            Side::Overlap => return false,
            Side::FirstOver => j += 1,
            Side::SecondOver => k += 1,
        }
    }
    true
}

// 24: is a row apart from every lower row of its buffer?
fn row_apart(image: &[u8], times: &[u32], lower: u32, row: u32) -> bool
    requires sound { Sound image.now × (Passed (piece_questions image.now) 7 × Timed image.now times.now) }
    requires lower_lt_row { ((lower < row) × (row < rows image.now Buffers)) × Passed (buffer_questions image.now) 1 }
    ensures { result ≡ hold_apart image.now lower row }
{
    if same_buffer(image, lower, row) {
        holds_apart(image, times, lower, row)
    } else {
        true
    }
}

// 24: and from all of them?
#[tactic(auto, unfolding(plan::specs::Questions::hold_clear, plan::specs::Search::clear))]
fn hold_clear(image: &[u8], times: &[u32], row: u32) -> bool
    requires sound { Sound image.now × (Passed (piece_questions image.now) 7 × Timed image.now times.now) }
    requires row_bound { (row < rows image.now Buffers) × Passed (buffer_questions image.now) 1 }
    ensures { result ≡ hold_clear image.now row }
{
    searching::all(row, |lower| row_apart(image, times, lower, row))
}

// The questions.
const BUFFER_ENDS: Asked = Asked {
    number: 22,
    table: Table::Buffers,
};

const READER_WAITS: Asked = Asked {
    number: 23,
    table: Table::Buffers,
};

const HOLD_CLEAR: Asked = Asked {
    number: 24,
    table: Table::Buffers,
};

// Questions 22 to 24, in this order.
pub fn ask(image: &[u8], times: &[u32]) -> Result<(), Answer>
    requires { Sound image.now × (Passed (piece_questions image.now) 7 × Timed image.now times.now) }
    ensures { result ≡ verdict (buffer_questions image.now) }
{
    each_row(image, BUFFER_ENDS, |row| buffer_ends(image, row))?;
    each_row(image, READER_WAITS, |row| reader_waits(image, times, row))?;
    each_row(image, HOLD_CLEAR, |row| hold_clear(image, times, row))
}
