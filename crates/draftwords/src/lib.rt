// The words of a draft (paper 02, request 6), read and stored one by one, and questions 5 and 10 of a piece by itself.
#![tactic(auto)]

ghost use Rattle.std.specs.Prelude.{◌≡◌, ◌∷◌, [], ◌+◌, ◌^◌, ◌<◌, ◌≤◌, length, set};
ghost use Rattle.std.proofs.lemmas.List.Edits.{sets};
ghost use Rattle.drafts.specs.Drafts.{draft_words, places, core_at, place_at, draft_cycle, draft_tasks, draft_cores, core_switch, task_core, task_period, task_deadline, piece_at, rank_at, total_at, core_total, is_free, has_task, fits_job};
ghost use Rattle.drafts.specs.Edits.{piece_words};
ghost use Rattle.draftwords.specs.Heads.{Headed};

use plan::Piece;

// How many words a draft takes of those lent, and how many places for pieces it has.
pub const WORDS: usize = 32768;

pub const PLACES: u32 = 2048;

// The words at which the rows of cores, tasks and places begin.
pub const CORES_AT: usize = 3;

pub const TASKS_AT: usize = 67;

pub const PLACES_AT: usize = 835;

// The piece at a place; one of length 0 where it is free.
pub fn piece_at(words: &[u32], place: u32) -> Piece
    requires { (draft_words ≤ length words.now) × (place < places) }
    ensures { result ≡ piece_at words.now place }
{
    let at = PLACES_AT + 6 * place as usize;
    Piece {
        task: words[at],
        job: words[at + 1],
        start: words[at + 2],
        length: words[at + 3],
    }
}

pub fn is_free(words: &[u32], place: u32) -> bool
    requires { (draft_words ≤ length words.now) × (place < places) }
    ensures { result ≡ is_free words.now place }
{
    words[PLACES_AT + 6 * place as usize + 3] == 0
}

pub fn rank_at(words: &[u32], place: u32) -> u32
    requires { (draft_words ≤ length words.now) × (place < places) }
    ensures { result ≡ rank_at words.now place }
{
    words[PLACES_AT + 6 * place as usize + 4]
}

pub fn total_at(words: &[u32], place: u32) -> u32
    requires { (draft_words ≤ length words.now) × (place < places) }
    ensures { result ≡ total_at words.now place }
{
    words[PLACES_AT + 6 * place as usize + 5]
}

// H, and the numbers of cores and tasks.
pub fn cycle_of(words: &[u32]) -> u32
    requires { draft_words ≤ length words.now }
    ensures { result ≡ draft_cycle words.now }
{
    words[0]
}

pub fn core_count(words: &[u32]) -> u32
    requires { draft_words ≤ length words.now }
    ensures { result ≡ draft_cores words.now }
{
    words[1]
}

pub fn task_count(words: &[u32]) -> u32
    requires { draft_words ≤ length words.now }
    ensures { result ≡ draft_tasks words.now }
{
    words[2]
}

// A core's task switch ticks and its total of piece ticks.
pub fn core_switch(words: &[u32], core: u32) -> u32
    requires { (draft_words ≤ length words.now) × (core < 32) }
    ensures { result ≡ core_switch words.now core }
{
    words[CORES_AT + 2 * core as usize]
}

pub fn core_total(words: &[u32], core: u32) -> u32
    requires { (draft_words ≤ length words.now) × (core < 32) }
    ensures { result ≡ core_total words.now core }
{
    words[CORES_AT + 2 * core as usize + 1]
}

// A task's core, period and deadline.
pub fn task_core(words: &[u32], task: u32) -> u32
    requires { (draft_words ≤ length words.now) × (task < 256) }
    ensures { result ≡ task_core words.now task }
{
    words[TASKS_AT + 3 * task as usize]
}

pub fn task_period(words: &[u32], task: u32) -> u32
    requires { (draft_words ≤ length words.now) × (task < 256) }
    ensures { result ≡ task_period words.now task }
{
    words[TASKS_AT + 3 * task as usize + 1]
}

pub fn task_deadline(words: &[u32], task: u32) -> u32
    requires { (draft_words ≤ length words.now) × (task < 256) }
    ensures { result ≡ task_deadline words.now task }
{
    words[TASKS_AT + 3 * task as usize + 2]
}

// 5: does a piece name a task?
pub fn has_task(words: &[u32], piece: Piece) -> bool
    requires { draft_words ≤ length words.now }
    ensures { result ≡ has_task words.now piece }
{
    piece.task < words[2]
}

// 10, of a piece of a task that exists: is there such a job, is the piece longer than a switch, and does it lie between the job's release and
// due tick?
pub fn fits_job(words: &[u32], piece: Piece) -> bool
    requires { Headed words.now × (piece.task < draft_tasks words.now) }
    ensures { result ≡ fits_job words.now piece }
{
    let task = piece.task;
    let core = task_core(words, task);
    let period = task_period(words, task);
    let deadline = task_deadline(words, task);
    let switch = core_switch(words, core);
    let cycle = cycle_of(words);
    let jobs = cycle / period;
    let release = piece.job as u64 * period as u64;
    let start = piece.start as u64;
    let end = start + piece.length as u64;
    let due = release + deadline as u64;
    (piece.job < jobs) & (switch < piece.length) & (release <= start) & (end <= due)
}

// Stores the four words of a piece.
pub fn store_piece(words: &mut [u32], at: usize, piece: Piece)
    requires { (at + 4 ≤ length words.old) × (at < 2 ^ 16) }
    ensures { words.new ≡ sets words.old at (piece_words piece) }
{
    words[at] = piece.task;
    words[at + 1] = piece.job;
    words[at + 2] = piece.start;
    words[at + 3] = piece.length;
}

// Stores a piece's four words at a place.
pub fn store_place(words: &mut [u32], place: u32, piece: Piece)
    requires { (draft_words ≤ length words.old) × (place < places) }
    ensures { words.new ≡ sets words.old (place_at place) (piece_words piece) }
{
    store_piece(words, PLACES_AT + 6 * place as usize, piece);
}

// Stores the rank and total of a place.
pub fn store_sums(words: &mut [u32], place: u32, rank: u32, total: u32)
    requires { (draft_words ≤ length words.old) × (place < places) }
    ensures { words.new ≡ sets words.old (place_at place + 4) (rank ∷ total ∷ []) }
{
    let at = PLACES_AT + 6 * place as usize;
    words[at + 4] = rank;
    words[at + 5] = total;
}

// Stores a core's total.
pub fn store_core(words: &mut [u32], core: u32, total: u32)
    requires { (draft_words ≤ length words.old) × (core < 32) }
    ensures { words.new ≡ set words.old (core_at core + 1) total }
{
    words[CORES_AT + 2 * core as usize + 1] = total;
}
