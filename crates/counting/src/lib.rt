// One piece more or less (paper 02, request 6): what it gives to the ranks and totals of all others and to its core's, in one pass.
#![tactic(auto)]

ghost use Rattle.std.specs.Prelude.{◌≡◌, false, not, ◌&&◌, cond, ◌+◌, ◌^◌, ◌<◌, ◌≤◌, length, set};
ghost use Rattle.std.proofs.lemmas.List.Edits.{sets};
ghost use Rattle.drafts.specs.Drafts.{draft_words, places, core_at, place_at, is_below, core_total, piece_at, is_free, rank};
ghost use Rattle.drafts.specs.Edits.{store_rows};
ghost use Rattle.counting.specs.Counting.{with_part, rank_part, total_part, counted, Countable, AllCountable};

use draftwords::{
    PLACES, core_total, is_free, piece_at, rank_at, store_core, store_sums, total_at,
};
use plan::Piece;

// A number with a part more or less.
fn with_part(more: bool, number: u32, part: u32) -> u32
    requires { (number + part < 2 ^ 32) × ((more ≡ false) → part ≤ number) }
    ensures { result ≡ with_part more number part }
{
    if more { number + part } else { number - part }
}

// What a piece gives to another piece's rank: 1 if it is of a lower job.
fn rank_part(piece: Piece, other: Piece) -> u32
    ensures { result ≡ rank_part piece other }
{
    let below = (piece.task < other.task) | ((piece.task == other.task) & (piece.job < other.job));
    if below { 1 } else { 0 }
}

// What a piece gives to another piece's total: its length if it is of the same job.
fn total_part(piece: Piece, other: Piece) -> u32
    ensures { result ≡ total_part piece other }
{
    let same = (piece.task == other.task) & (piece.job == other.job);
    if same { piece.length } else { 0 }
}

// What the piece at a place gives to another piece's rank.
fn part_at(words: &[u32], place: u32, piece: Piece) -> u32
    requires { (draft_words ≤ length words.now) × (place < places) }
    ensures { result ≡ cond (not (is_free words.now place) && is_below piece.task piece.job (piece_at words.now place)) 1 0 }
{
    if is_free(words, place) {
        return 0;
    }
    let here = piece_at(words, place);
    rank_part(here, piece)
}

// The rank of a piece: how many pieces are of lower jobs.
pub fn rank_of(words: &[u32], piece: Piece) -> u32
    requires { draft_words ≤ length words.now }
    ensures { result ≡ rank words.now piece.task piece.job }
{
    let mut rank = 0;
    for place in 0..PLACES {
        rank += part_at(words, place, piece);
    }
    rank
}

// Brings the rank and total at a place up to date, where it holds a piece, for another piece more or less.
fn count_at(words: &mut [u32], more: bool, piece: Piece, place: u32)
    requires draft_words_in_bounds { (draft_words ≤ length words.old) × (place < places) }
    requires countable { (is_free words.old place ≡ false) → Countable more piece words.old place }
    ensures { words.new ≡ sets words.old (place_at place + 4) (counted more piece words.old place) }
{
    if is_free(words, place) {
        return;
    }
    let here = piece_at(words, place);
    let rank = with_part(more, rank_at(words, place), rank_part(piece, here));
    let total = with_part(more, total_at(words, place), total_part(piece, here));
    store_sums(words, place, rank, total);
}

// The same at all places.
pub fn count_all(words: &mut [u32], more: bool, piece: Piece)
    requires { (draft_words ≤ length words.old) × AllCountable more piece words.old }
    ensures { words.new ≡ store_rows (λ q. place_at q + 4) (counted more piece words.old) places words.old }
{
    for place in 0..PLACES {
        count_at(words, more, piece, place);
    }
}

// Adds ticks to a core's total, or takes them from it.
pub fn count_core(words: &mut [u32], more: bool, core: u32, ticks: u32)
    requires draft_words_in_bounds { (draft_words ≤ length words.old) × (core < 32) }
    requires ticks_bound { (core_total words.old core + ticks < 2 ^ 32) × ((more ≡ false) → ticks ≤ core_total words.old core) }
    ensures { words.new ≡ set words.old (core_at core + 1) (with_part more (core_total words.old core) ticks) }
{
    let total = with_part(more, core_total(words, core), ticks);
    store_core(words, core, total);
}
