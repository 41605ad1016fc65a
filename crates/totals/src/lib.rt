// 33 (paper 02, request 6): are words a draft with true totals? A few passes over places, ranks and cores, none inside another: the pieces are
// gathered by rank and by core.
#![tactic(auto)]

ghost use Rattle.std.specs.Prelude.{◌≡◌, true, is_some, ◌&&◌, ◌+◌, ◌*◌, ◌^◌, ◌<◌, ◌≤◌, length, get_or, set};
ghost use Rattle.plan.specs.Search.{all};
ghost use Rattle.tallies.specs.Tallies.{Kept};
ghost use Rattle.drafts.specs.Drafts.{draft_words, places, draft_tasks, draft_cores, piece_at, head_in_range, task_in_range, core_true, place_true, is_draft};
ghost use Rattle.draftwords.specs.Heads.{Headed, place_fits};
ghost use Rattle.totals.specs.Gathers.{Gathered, taken_at, place_seen, job_key, climb_at, climbed, CoreSums, core_seen};

use draftwords::{
    PLACES, WORDS, core_count, core_switch, core_total, cycle_of, fits_job, has_task, is_free,
    piece_at, rank_at, task_core, task_count, task_deadline, task_period, total_at,
};

// Ranks looked at so far, where they are as they must be: how many pieces they have, and a place of the last that has one.
#[derive(Clone, Copy)]
pub struct Climb {
    pub seen: u32,
    pub last: u32,
}

// Are H and the counts in range?
fn head_in_range(words: &[u32]) -> bool
    requires { draft_words ≤ length words.now }
    ensures { result ≡ head_in_range words.now }
{
    let cycle = words[0];
    let cores = words[1];
    let tasks = words[2];
    (1 <= cycle) & (cycle <= 1000000) & (1 <= cores) & (cores <= 32) & (tasks <= 256)
}

// Is a task's row in range?
fn task_in_range(words: &[u32], task: u32) -> bool
    requires { (draft_words ≤ length words.now) × (task < 256) }
    ensures { result ≡ task_in_range words.now task }
{
    let period = task_period(words, task);
    if period == 0 {
        return false;
    }
    let core = task_core(words, task);
    let deadline = task_deadline(words, task);
    let cores = core_count(words);
    let cycle = cycle_of(words);
    let divides = cycle % period == 0;
    (core < cores) & (1 <= period) & divides & (1 <= deadline) & (deadline <= period)
}

// Are all tasks' rows in range?
fn tasks_in_range(words: &[u32]) -> bool
    requires { (draft_words ≤ length words.now) × (head_in_range words.now ≡ true) }
    ensures { result ≡ all (draft_tasks words.now) (task_in_range words.now) }
{
    let tasks = task_count(words);
    searching::all(tasks, |task| task_in_range(words, task))
}

// Is a place free, or does its piece meet 5 and 10?
fn place_fits(words: &[u32], place: u32) -> bool
    requires { Headed words.now × (place < places) }
    ensures { result ≡ place_fits words.now place }
{
    if is_free(words, place) {
        return true;
    }
    let piece = piece_at(words, place);
    if !has_task(words, piece) {
        return false;
    }
    fits_job(words, piece)
}

// Is every place free, or does its piece meet 5 and 10?
fn places_fit(words: &[u32]) -> bool
    requires { Headed words.now }
    ensures { result ≡ all places (place_fits words.now) }
{
    searching::all(PLACES, |place| place_fits(words, place))
}

// Takes a piece of a length at a place into the words of its rank.
fn take_at(gathered: &mut [u32], rank: u32, ticks: u32, place: u32)
    requires gathered_len { (length gathered.old ≡ 6144) × (rank < 2048) }
    requires rank_bound { (get_or gathered.old rank 0 + 1 < 2 ^ 32) × (get_or gathered.old (2048 + rank) 0 + ticks < 2 ^ 32) }
    ensures { gathered.new ≡ taken_at gathered.old rank ticks place }
{
    let at = rank as usize;
    let count = gathered[at] + 1;
    let sum = gathered[2048 + at] + ticks;
    gathered[at] = count;
    gathered[2048 + at] = sum;
    gathered[4096 + at] = place;
}

// Takes the piece at a place in, where there is one and its rank has a word.
fn take_in(words: &[u32], gathered: &mut [u32], place: u32)
    requires headed { (Headed words.now × (all places (place_fits words.now) ≡ true)) × (place < places) }
    requires gathered { Gathered words.now gathered.old place }
    ensures { Gathered words.now gathered.new (place + 1) }
{
    if is_free(words, place) {
        return;
    }
    let rank = rank_at(words, place);
    if rank < PLACES {
        let piece = piece_at(words, place);
        take_at(gathered, rank, piece.length, place);
    }
}

// Gathers all pieces by rank.
fn gather(words: &[u32], gathered: &mut [u32])
    requires headed { Headed words.now × (all places (place_fits words.now) ≡ true) }
    requires gathered_len { (length gathered.old ≡ 6144) × Kept gathered.old 0 6144 (λ _. 0) }
    ensures { Gathered words.now gathered.new places }
{
    for place in 0..PLACES {
        take_in(words, gathered, place);
    }
}

// Is a place free, or its piece of the job of its rank's last piece, and its total the length gathered for its rank?
fn place_seen(words: &[u32], gathered: &[u32], place: u32) -> bool
    requires headed { Headed words.now × (place < places) }
    requires gathered { Gathered words.now gathered.now places }
    ensures { result ≡ place_seen words.now place }
{
    if is_free(words, place) {
        return true;
    }
    let rank = rank_at(words, place);
    if PLACES <= rank {
        return false;
    }
    let at = rank as usize;
    let piece = piece_at(words, place);
    let last = piece_at(words, gathered[4096 + at]);
    let total = total_at(words, place);
    (piece.task == last.task) & (piece.job == last.job) & (total == gathered[2048 + at])
}

// Does this hold of every place?
fn places_seen(words: &[u32], gathered: &[u32]) -> bool
    requires { Headed words.now × Gathered words.now gathered.now places }
    ensures { result ≡ all places (place_seen words.now) }
{
    searching::all(PLACES, |place| place_seen(words, gathered, place))
}

// The job of the piece at a place, in one number.
fn key_at(words: &[u32], place: u32) -> u64
    requires { (draft_words ≤ length words.now) × (place < places) }
    ensures { result ≡ job_key (piece_at words.now place) }
{
    let piece = piece_at(words, place);
    4294967296 * piece.task as u64 + piece.job as u64
}

// Takes a rank in, where it is as it must be.
fn climb_at(words: &[u32], gathered: &[u32], rank: u32, climb: Climb) -> Option<Climb>
    requires headed { (Headed words.now × Gathered words.now gathered.now places) × (rank < places) }
    requires last_lt_places { (climb.last < places) × (climb.seen ≤ 2048 * rank) }
    ensures { result ≡ climb_at words.now rank climb }
{
    let at = rank as usize;
    let count = gathered[at];
    if count == 0 {
        return Some(climb);
    }
    let here = gathered[4096 + at];
    let before = key_at(words, climb.last);
    let now = key_at(words, here);
    let rises = (climb.seen == rank) & ((rank == 0) | (before < now));
    if !rises {
        return None;
    }
    Some(Climb {
        seen: climb.seen + count,
        last: here,
    })
}

// Are all ranks as they must be?
fn ranks_rise(words: &[u32], gathered: &[u32]) -> bool
    requires { Headed words.now × Gathered words.now gathered.now places }
    ensures { result ≡ is_some (climbed words.now places) }
{
    let mut climb = Climb { seen: 0, last: 0 };
    for rank in 0..PLACES {
        match climb_at(words, gathered, rank, climb) {
            Some(next) => climb = next,
            None => return false,
        }
    }
    true
}

// Adds ticks to a core's word.
fn add_ticks(sums: &mut [u32], core: u32, ticks: u32)
    requires { (length sums.old ≡ 32) × ((core < 32) × (get_or sums.old core 0 + ticks < 2 ^ 32)) }
    ensures { sums.new ≡ set sums.old core (get_or sums.old core 0 + ticks) }
{
    let at = core as usize;
    let sum = sums[at] + ticks;
    sums[at] = sum;
}

// Adds the piece at a place to its core's word.
fn sum_in(words: &[u32], sums: &mut [u32], place: u32)
    requires headed { (Headed words.now × (all places (place_fits words.now) ≡ true)) × (place < places) }
    requires core_sums { CoreSums words.now sums.old place }
    ensures { CoreSums words.now sums.new (place + 1) }
{
    if is_free(words, place) {
        return;
    }
    let piece = piece_at(words, place);
    let core = task_core(words, piece.task);
    add_ticks(sums, core, piece.length);
}

// Sums the piece ticks of each core.
pub fn sum_cores(words: &[u32], sums: &mut [u32])
    requires headed { Headed words.now × (all places (place_fits words.now) ≡ true) }
    requires sums_len { (length sums.old ≡ 32) × Kept sums.old 0 32 (λ _. 0) }
    ensures { CoreSums words.now sums.new places }
{
    for place in 0..PLACES {
        sum_in(words, sums, place);
    }
}

// Are a core's switch ticks in range, and is its total the sum?
fn core_seen(words: &[u32], sums: &[u32], core: u32) -> bool
    requires draft_words_in_bounds { (draft_words ≤ length words.now) × (core < 32) }
    requires core_sums { CoreSums words.now sums.now places }
    ensures { result ≡ core_seen words.now core }
{
    let switch = core_switch(words, core);
    let total = core_total(words, core);
    let sum = sums[core as usize];
    (switch <= 1000) & (total == sum)
}

// Does this hold of every core?
fn cores_seen(words: &[u32], sums: &[u32]) -> bool
    requires { Headed words.now × CoreSums words.now sums.now places }
    ensures { result ≡ all (draft_cores words.now) (core_seen words.now) }
{
    let cores = core_count(words);
    searching::all(cores, |core| core_seen(words, sums, core))
}

// Are all ranks and totals true? Gathers the pieces into lent words that hold 0 and looks at each place, each rank and each core once.
fn totals_true(words: &[u32], gathered: &mut [u32], sums: &mut [u32]) -> bool
    requires headed { Headed words.now × (all places (place_fits words.now) ≡ true) }
    requires gathered_len { ((length gathered.old ≡ 6144) × Kept gathered.old 0 6144 (λ _. 0)) × ((length sums.old ≡ 32) × Kept sums.old 0 32 (λ _. 0)) }
    ensures { result ≡ all (draft_cores words.now) (core_true words.now) && all places (place_true words.now) }
{
    gather(words, gathered);
    sum_cores(words, sums);
    let places = places_seen(words, gathered);
    let ranks = ranks_rise(words, gathered);
    let cores = cores_seen(words, sums);
    places & ranks & cores
}

// 33: are the first 32,768 words a draft with true totals?
pub fn is_draft(words: &[u32]) -> bool
    ensures { result ≡ is_draft words.now }
{
    if words.len() < WORDS {
        return false;
    }
    if !head_in_range(words) {
        return false;
    }
    if !tasks_in_range(words) {
        return false;
    }
    if !places_fit(words) {
        return false;
    }
    let mut gathered = [0u32; 6144];
    let mut sums = [0u32; 32];
    totals_true(words, &mut gathered, &mut sums)
}
