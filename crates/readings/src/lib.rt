// Reading a draft (paper 02, request 6): totals of jobs and cores, and places.
#![tactic(auto)]

ghost use Rattle.std.specs.Prelude.{◌≡◌, not, ◌&&◌, ◌<◌, ◌≤◌, length};
ghost use Rattle.drafts.specs.Drafts.{draft_words, places, is_of, piece_at, is_free, is_draft, holds_piece};
ghost use Rattle.drafts.specs.Edits.{core_number, core_value, place_number, place_leaves, job_number, job_value, stored_total};

use draftwords::{
    PLACES, core_count, core_total, cycle_of, is_free, piece_at, store_piece, task_count,
    task_period, total_at,
};
use totals::is_draft;

// The number of a reading, and the total read: 0 where it is refused.
// No `Result`: crate reaperdecade takes both numbers out of it, as `core_number` and `core_value` name them, and `job_number` and `job_value`.
#[derive(Clone, Copy)]
pub struct Total {
    pub number: u32,
    pub value: u32,
}

// Reads the total of a core: 33, then 5.
pub fn read_core(words: &[u32], core: u32) -> Total
    ensures { (result.number ≡ core_number words.now core) × (result.value ≡ core_value words.now core) }
{
    if !is_draft(words) {
        return Total {
            number: 33,
            value: 0,
        };
    }
    if core_count(words) <= core {
        return Total {
            number: 5,
            value: 0,
        };
    }
    Total {
        number: 0,
        value: core_total(words, core),
    }
}

// Is the piece at a place of a job?
fn is_of(words: &[u32], place: u32, task: u32, job: u32) -> bool
    requires { (draft_words ≤ length words.now) × (place < places) }
    ensures { result ≡ not (is_free words.now place) && is_of task job (piece_at words.now place) }
{
    let piece = piece_at(words, place);
    let free = is_free(words, place);
    !free & ((piece.task == task) & (piece.job == job))
}

// The total stored with the first piece of a job, 0 where it has none.
pub fn stored_total(words: &[u32], task: u32, job: u32) -> u32
    requires { draft_words ≤ length words.now }
    ensures { result ≡ stored_total words.now task job }
{
    match searching::first_no(PLACES, |place| !is_of(words, place, task, job)) {
        Some(place) => total_at(words, place),
        None => 0,
    }
}

// Reads the total of a job: 33, 5, then 10.
pub fn read_job(words: &[u32], task: u32, job: u32) -> Total
    ensures { (result.number ≡ job_number words.now task job) × (result.value ≡ job_value words.now task job) }
{
    if !is_draft(words) {
        return Total {
            number: 33,
            value: 0,
        };
    }
    if task_count(words) <= task {
        return Total {
            number: 5,
            value: 0,
        };
    }
    let period = task_period(words, task);
    let jobs = cycle_of(words) / period;
    if jobs <= job {
        return Total {
            number: 10,
            value: 0,
        };
    }
    Total {
        number: 0,
        value: stored_total(words, task, job),
    }
}

// 33 of a removal, a move or the reading of a place: are the words a draft, and is there a piece at the place?
pub fn holds_piece(words: &[u32], place: u32) -> bool
    ensures { result ≡ is_draft words.now && holds_piece words.now place }
{
    if !is_draft(words) {
        return false;
    }
    if PLACES <= place {
        return false;
    }
    !is_free(words, place)
}

// Reads a place into lent words: 33 as a removal asks it, then 34. No word past the fourth changes, and none after a refusal.
pub fn read_place(words: &[u32], place: u32, piece: &mut [u32]) -> u32
    ensures { (result ≡ place_number words.now place piece.old) × (piece.new ≡ place_leaves words.now place piece.old) }
{
    if !holds_piece(words, place) {
        return 33;
    }
    if piece.len() < 4 {
        return 34;
    }
    let held = piece_at(words, place);
    store_piece(piece, 0, held);
    0
}
