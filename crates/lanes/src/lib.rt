// Lane tables (paper 01, "Dispatch"; question 26): a lane's entries counted, and its table written into lent words. A walk goes along the
// lane from one change to the next, and from each row of the lane's place to the next one there.
#![tactic(auto)]

ghost use Rattle.std.specs.Prelude.{◌≡◌, ◌∷◌, [], ◌+◌, ◌*◌, ◌<◌, ◌≤◌, length};
ghost use Rattle.plan.specs.Image.{cycle_ticks, most_windows};
ghost use Rattle.plan.specs.Questions.{answer_of, accepted};
ghost use Rattle.plan.specs.Dispatch.{lanes, entry_count, entries};
ghost use Rattle.places.specs.Index.{Indexed, index_words};
ghost use Rattle.lanes.specs.Walks.{Gathered, Reached, StepFrom};
ghost use Rattle.lanes.specs.Words.{put_at, Filled};

use cursors::first_cursors;
use plan::{Answer, Table};
use stretches::{View, go_on, idle_stretch, segment_at};
use tables::{cycle_ticks, rows_of};

// How many lanes an accepted plan has: one for each core, then one for each link.
pub fn lane_count(image: &[u8]) -> u32
    requires { answer_of image.now ≡ accepted }
    ensures { result ≡ lanes image.now }
{
    rows_of(image, Table::Cores) + rows_of(image, Table::Links)
}

// How many words a walk needs: charges, and the index of places.
pub const CHARGES: usize = charges::WORDS;

pub const INDEX: usize = places::WORDS;

// Gathers what a walk along a lane needs: the charges of the windows, and the rows of each place.
pub fn gather(image: &[u8], charges: &mut [u32], index: &mut [u32])
    requires { (answer_of image.now ≡ accepted) × ((length charges.old ≡ most_windows) × (length index.old ≡ index_words)) }
    ensures { Gathered image.now charges.new index.new }
{
    charges::gather(image, charges);
    places::gather(image, index);
}

// A walk along a lane, from segment to segment. From tick `from` up to `until` the lane shows `kind` and `row`; `begins` says whether
// an entry begins at `from`; `view` is what is known from `until` on.
#[derive(Clone, Copy)]
pub struct Walk {
    pub from: u32,
    pub until: u32,
    pub kind: u32,
    pub row: u32,
    pub begins: bool,
    view: View,
}

// Before tick 0: nothing is shown, and nothing is known.
pub fn start(image: &[u8], index: &[u32], lane: u32) -> Walk
    requires { (answer_of image.now ≡ accepted) × (Indexed image.now index.now × (lane < lanes image.now)) }
    ensures { (result.until ≡ 0) × Reached image.now lane result }
{
    let stretch = idle_stretch(0);
    let cursors = first_cursors(image, index, lane);
    let view = View { stretch, cursors };
    Walk {
        from: 0,
        until: 0,
        kind: 0,
        row: 0,
        begins: false,
        view,
    }
}

// The next segment. An entry begins at tick 0, and where kind or row are not those of the segment before.
pub fn step(image: &[u8], charges: &[u32], index: &[u32], lane: u32, walk: Walk) -> Walk
    requires { Gathered image.now charges.now index.now × (Reached image.now lane walk × (walk.until < cycle_ticks image.now)) }
    ensures { StepFrom image.now lane walk.until result }
{
    let tick = walk.until;
    let known = walk.view;
    let view = go_on(image, charges, index, lane, tick, known);
    let stretch = view.stretch;
    let next = segment_at(stretch, tick);
    let first = tick == 0;
    let same = (next.kind == walk.kind) & (next.row == walk.row);
    Walk {
        from: tick,
        until: next.until,
        kind: next.kind,
        row: next.row,
        begins: first | !same,
        view,
    }
}

// n, the number of a lane's entries.
pub fn count_entries(image: &[u8], charges: &[u32], index: &[u32], lane: u32) -> u32
    requires { Gathered image.now charges.now index.now × (lane < lanes image.now) }
    ensures { result ≡ entry_count image.now lane }
{
    let ticks = cycle_ticks(image);
    let mut walk = start(image, index, lane);
    let mut count: u32 = 0;
    while walk.until < ticks {
        walk = step(image, charges, index, lane, walk);
        if walk.begins {
            count += 1;
        }
    }
    count
}

// An entry: first tick, kind, row.
fn put(words: &mut [u32], at: usize, first: u32, kind: u32, row: u32)
    requires { at + 3 ≤ length words.old }
    ensures { words.new ≡ put_at words.old at (first ∷ kind ∷ row ∷ []) }
{
    words[at] = first;
    words[at + 1] = kind;
    words[at + 2] = row;
}

// A lane's entries, from word 2 on.
fn write_entries(image: &[u8], charges: &[u32], index: &[u32], lane: u32, words: &mut [u32])
    requires gathered { Gathered image.now charges.now index.now × (lane < lanes image.now) }
    requires lane_in_bounds { 2 + 3 * entry_count image.now lane ≤ length words.old }
    ensures { words.new ≡ put_at words.old 2 (entries image.now lane (cycle_ticks image.now)) }
{
    let end = cycle_ticks(image);
    let mut walk = start(image, index, lane);
    let mut at: usize = 2;
    while walk.until < end {
        walk = step(image, charges, index, lane, walk);
        if walk.begins {
            put(words, at, walk.from, walk.kind, walk.row);
            at += 3;
        }
    }
}

// 26, and the table of a lane of an accepted plan where the words suffice.
pub fn fill(image: &[u8], charges: &[u32], index: &[u32], lane: u32, words: &mut [u32]) -> Answer
    requires { Gathered image.now charges.now index.now × (lane < lanes image.now) }
    ensures { Filled image.now lane words.old result words.new }
{
    let count = count_entries(image, charges, index, lane);
    if words.len() < 2 + 3 * count as usize {
        return Answer {
            number: 26,
            table: 0,
            row: 0,
        };
    }
    words[0] = cycle_ticks(image);
    words[1] = count;
    write_entries(image, charges, index, lane, words);
    plan::accepted()
}
