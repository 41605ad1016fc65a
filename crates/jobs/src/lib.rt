// The first start, the last end and the work of every job (paper 01, "The plan image"), gathered in one pass over the pieces into words
// that the caller lends (specs/Times.antt says where each stands).
#![tactic(auto)]

ghost use Rattle.std.specs.Prelude.{◌≡◌, ◌+◌, ◌^◌, ◌<◌, min, max, length, get_or};
ghost use Rattle.plan.specs.declared.Table.TheVariants.{Tasks, Pieces};
ghost use Rattle.plan.specs.Image.{rows, cycle_ticks, most_pieces};
ghost use Rattle.plan.specs.Questions.{jobs, first_start, last_end, piece_questions};
ghost use Rattle.plan.specs.Held.{Sound, Passed};
ghost use Rattle.jobs.specs.Times.{Cleared, taken_at, Gathered, AllGathered, Timed, works_at, times_words};

use plan::{Piece, Table, Task};
use tables::{cycle_ticks, piece_at, rows_of};
use terms::{jobs_of, piece_end, switch_ticks};

// How many words the times take: a place for each task; a first start, a last end and the work of each job.
pub const WORDS: usize = WORKS + JOBS;

// How many jobs have a place.
pub const JOBS: usize = Piece::MAX as usize;

const FIRSTS: usize = Task::MAX as usize;

const LASTS: usize = FIRSTS + JOBS;

// Where the work of each job stands.
pub const WORKS: usize = LASTS + JOBS;

// Writes the place of each task's job 0: the number of jobs of the tasks before it.
fn place_tasks(image: &[u8], times: &mut [u32])
    requires { Sound image.now × Cleared (cycle_ticks image.now) times.old most_pieces }
    ensures { Gathered image.now times.new 0 }
{
    let tasks = rows_of(image, Table::Tasks);
    let mut place: u32 = 0;
    for task in 0..tasks {
        times[task as usize] = place;
        place = (JOBS as u32).min(place + jobs_of(image, task));
    }
}

// Before any piece is taken in, a first start is the cycle's end, and a last end and the work are 0.
fn clear_jobs(times: &mut [u32], cycle: u32)
    requires { length times.old ≡ times_words }
    ensures { Cleared cycle times.new most_pieces }
{
    for place in 0..JOBS {
        times[FIRSTS + place] = cycle;
        times[LASTS + place] = 0;
        times[WORKS + place] = 0;
    }
}

// Takes a piece from start to end into the job at a place.
fn take_at(times: &mut [u32], place: usize, start: u32, end: u32, work: u32)
    requires { (length times.old ≡ times_words) × ((place < most_pieces) × (get_or times.old (works_at + place) 0 + work < 2 ^ 32)) }
    ensures { times.new ≡ taken_at times.old place start end work }
{
    let first = times[FIRSTS + place].min(start);
    let last = times[LASTS + place].max(end);
    let sum = times[WORKS + place] + work;
    times[FIRSTS + place] = first;
    times[LASTS + place] = last;
    times[WORKS + place] = sum;
}

// Takes one piece in, where its job has a place.
fn take_in(image: &[u8], times: &mut [u32], piece: u32)
    requires sound { Sound image.now × (Passed (piece_questions image.now) 6 × (piece < rows image.now Pieces)) }
    requires gathered { Gathered image.now times.old piece }
    ensures { Gathered image.now times.new (piece + 1) }
{
    let p = piece_at(image, piece);
    let place = times[p.task as usize] as usize + p.job as usize;
    if place < JOBS {
        let end = piece_end(image, piece) as u32;
        let work = p.length - switch_ticks(image, p.task);
        take_at(times, place, p.start, end, work);
    }
}

// Takes all pieces in.
fn take_all(image: &[u8], times: &mut [u32])
    requires sound { Sound image.now × Passed (piece_questions image.now) 6 }
    requires gathered { Gathered image.now times.old 0 }
    ensures { AllGathered image.now times.new }
{
    let pieces = rows_of(image, Table::Pieces);
    for piece in 0..pieces {
        take_in(image, times, piece);
    }
}

// Gathers the times of a plan that has passed questions 1 to 12.
pub fn gather(image: &[u8], times: &mut [u32])
    requires { Sound image.now × (Passed (piece_questions image.now) 6 × (length times.old ≡ times_words)) }
    ensures { AllGathered image.now times.new }
{
    let cycle = cycle_ticks(image);
    clear_jobs(times, cycle);
    place_tasks(image, times);
    take_all(image, times);
}

// A job's first start.
pub fn first_start(image: &[u8], times: &[u32], task: u32, job: u32) -> u32
    requires { Timed image.now times.now × ((task < rows image.now Tasks) × (job < jobs image.now task)) }
    ensures { result ≡ first_start image.now task job }
{
    let place = times[task as usize] as usize + job as usize;
    times[FIRSTS + place]
}

// A job's last end.
pub fn last_end(image: &[u8], times: &[u32], task: u32, job: u32) -> u32
    requires { Timed image.now times.now × ((task < rows image.now Tasks) × (job < jobs image.now task)) }
    ensures { result ≡ last_end image.now task job }
{
    let place = times[task as usize] as usize + job as usize;
    times[LASTS + place]
}
