// Editing a draft (paper 02, request 6): pieces moved, added and removed.
#![tactic(auto)]

ghost use Rattle.std.specs.Prelude.{◌≡◌, ◌&&◌, ◌+◌, ◌<◌, ◌≤◌, length, set, ltb};
ghost use Rattle.drafts.specs.Drafts.{draft_words, places, place_at, is_free};
ghost use Rattle.drafts.specs.Edits.{put_at, freed_at, add_number, add_words, remove_number, remove_words, move_number, move_words};

use counting::{count_all, count_core, rank_of};
use draftwords::{
    PLACES, PLACES_AT, fits_job, has_task, is_free, piece_at, store_place, store_sums, task_core,
};
use plan::Piece;
use readings::{holds_piece, stored_total};
use totals::is_draft;

// Moves the piece at a place to another start: 33, then 10. One word changes, and none after a refusal.
pub fn move_piece(words: &mut [u32], place: u32, start: u32) -> u32
    ensures { (result ≡ move_number words.old place start) × (words.new ≡ move_words words.old place start) }
{
    if !holds_piece(words, place) {
        return 33;
    }
    let piece = piece_at(words, place);
    let moved = Piece {
        task: piece.task,
        job: piece.job,
        start: start,
        length: piece.length,
    };
    if !fits_job(words, moved) {
        return 10;
    }
    words[PLACES_AT + 6 * place as usize + 2] = start;
    0
}

// 34 of an addition: is the place one of a draft's, and free?
fn is_open(words: &[u32], place: u32) -> bool
    requires { draft_words ≤ length words.now }
    ensures { result ≡ ltb place places && is_free words.now place }
{
    if PLACES <= place {
        return false;
    }
    is_free(words, place)
}

// Puts a piece at a free place: every total with it, and its own rank and total beside it.
fn put_piece(words: &mut [u32], place: u32, piece: Piece)
    requires { add_number words.old place piece ≡ 0 }
    ensures { words.new ≡ put_at words.old place piece }
{
    let core = task_core(words, piece.task);
    let rank = rank_of(words, piece);
    let total = stored_total(words, piece.task, piece.job) + piece.length;
    count_all(words, true, piece);
    store_place(words, place, piece);
    store_sums(words, place, rank, total);
    count_core(words, true, core, piece.length);
}

// Adds a piece at a place: 33, 5, 10, then 34. After a refusal no word has changed.
pub fn add_piece(words: &mut [u32], place: u32, piece: Piece) -> u32
    ensures { (result ≡ add_number words.old place piece) × (words.new ≡ add_words words.old place piece) }
{
    if !is_draft(words) {
        return 33;
    }
    if !has_task(words, piece) {
        return 5;
    }
    if !fits_job(words, piece) {
        return 10;
    }
    if !is_open(words, place) {
        return 34;
    }
    put_piece(words, place, piece);
    0
}

// Leaves no piece at a place.
fn clear_place(words: &mut [u32], place: u32)
    requires { (draft_words ≤ length words.old) × (place < places) }
    ensures { words.new ≡ set words.old (place_at place + 3) 0 }
{
    words[PLACES_AT + 6 * place as usize + 3] = 0;
}

// Takes the piece from its place: every total without it, and no length.
fn take_piece(words: &mut [u32], place: u32)
    requires { remove_number words.old place ≡ 0 }
    ensures { words.new ≡ freed_at words.old place }
{
    let piece = piece_at(words, place);
    let core = task_core(words, piece.task);
    clear_place(words, place);
    count_all(words, false, piece);
    count_core(words, false, core, piece.length);
}

// Removes the piece at a place: 33. After a refusal no word has changed.
pub fn remove_piece(words: &mut [u32], place: u32) -> u32
    ensures { (result ≡ remove_number words.old place) × (words.new ≡ remove_words words.old place) }
{
    if !holds_piece(words, place) {
        return 33;
    }
    take_piece(words, place);
    0
}
