// Making a draft (paper 02, request 6), its first half: H, counts, cores, tasks and pieces of an image copied into lent words.
#![tactic(auto)]

ghost use Rattle.std.specs.Prelude.{◌≡◌, ◌∷◌, [], ◌<◌, ◌≤◌, length};
ghost use Rattle.std.proofs.lemmas.List.Edits.{sets};
ghost use Rattle.plan.specs.declared.Table.TheVariants.{Cores, Tasks};
ghost use Rattle.plan.specs.Image as Image;
ghost use Rattle.plan.specs.Image.{cycle_ticks, rows};
ghost use Rattle.plan.specs.Questions.{core_of};
ghost use Rattle.plan.specs.Held.{Sound};
ghost use Rattle.drafts.specs.Drafts.{draft_words, places, core_at, task_at, place_at};
ghost use Rattle.drafts.specs.Edits.{store_rows, piece_words, made_piece, copied};

use draftwords::{CORES_AT, PLACES, TASKS_AT, store_place};
use plan::{Piece, Table};
use tables::{core_at, cycle_ticks, piece_at, rows_of, task_at};
use terms::core_of;

// H, and how many cores and tasks there are.
fn copy_head(image: &[u8], words: &mut [u32])
    requires { Sound image.now × (draft_words ≤ length words.old) }
    ensures { words.new ≡ sets words.old 0 (cycle_ticks image.now ∷ rows image.now Cores ∷ rows image.now Tasks ∷ []) }
{
    let cycle = cycle_ticks(image);
    let cores = rows_of(image, Table::Cores);
    let tasks = rows_of(image, Table::Tasks);
    words[0] = cycle;
    words[1] = cores;
    words[2] = tasks;
}

// A core's switch ticks.
fn copy_core(image: &[u8], words: &mut [u32], core: u32)
    requires { (Sound image.now × (draft_words ≤ length words.old)) × (core < rows image.now Cores) }
    ensures { words.new ≡ sets words.old (core_at core) ((Image.core image.now core).d ∷ []) }
{
    let row = core_at(image, core);
    words[CORES_AT + 2 * core as usize] = row.d;
}

fn copy_cores(image: &[u8], words: &mut [u32])
    requires { Sound image.now × (draft_words ≤ length words.old) }
    ensures { words.new ≡ store_rows core_at (λ c. (Image.core image.now c).d ∷ []) (rows image.now Cores) words.old }
{
    let cores = rows_of(image, Table::Cores);
    for core in 0..cores {
        copy_core(image, words, core);
    }
}

// A task's core, period and deadline.
fn copy_task(image: &[u8], words: &mut [u32], task: u32)
    requires { (Sound image.now × (draft_words ≤ length words.old)) × (task < rows image.now Tasks) }
    ensures { words.new ≡ sets words.old (task_at task) (core_of image.now task ∷ (Image.task image.now task).period ∷ (Image.task image.now task).deadline ∷ []) }
{
    let core = core_of(image, task);
    let row = task_at(image, task);
    let at = TASKS_AT + 3 * task as usize;
    words[at] = core;
    words[at + 1] = row.period;
    words[at + 2] = row.deadline;
}

fn copy_tasks(image: &[u8], words: &mut [u32])
    requires { Sound image.now × (draft_words ≤ length words.old) }
    ensures { words.new ≡ store_rows task_at (λ t. core_of image.now t ∷ (Image.task image.now t).period ∷ (Image.task image.now t).deadline ∷ []) (rows image.now Tasks) words.old }
{
    let tasks = rows_of(image, Table::Tasks);
    for task in 0..tasks {
        copy_task(image, words, task);
    }
}

// The image's piece at a place; none past its rows.
fn made_piece(image: &[u8], place: u32) -> Piece
    requires { Sound image.now }
    ensures { result ≡ made_piece image.now place }
{
    if place < rows_of(image, Table::Pieces) {
        return piece_at(image, place);
    }
    Piece {
        task: 0,
        job: 0,
        start: 0,
        length: 0,
    }
}

// The four words of a place.
fn copy_place(image: &[u8], words: &mut [u32], place: u32)
    requires { (Sound image.now × (draft_words ≤ length words.old)) × (place < places) }
    ensures { words.new ≡ sets words.old (place_at place) (piece_words (made_piece image.now place)) }
{
    let piece = made_piece(image, place);
    store_place(words, place, piece);
}

fn copy_places(image: &[u8], words: &mut [u32])
    requires { Sound image.now × (draft_words ≤ length words.old) }
    ensures { words.new ≡ store_rows place_at (λ p. piece_words (made_piece image.now p)) places words.old }
{
    for place in 0..PLACES {
        copy_place(image, words, place);
    }
}

// All of it.
pub fn copy(image: &[u8], words: &mut [u32])
    requires { Sound image.now × (draft_words ≤ length words.old) }
    ensures { words.new ≡ copied image.now words.old }
{
    copy_head(image, words);
    copy_cores(image, words);
    copy_tasks(image, words);
    copy_places(image, words);
}
