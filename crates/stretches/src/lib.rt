// What a lane shows from a tick on (paper 01, "Dispatch"): one row for a while, by the rows that have not ended there.
#![tactic(auto)]

ghost use Rattle.std.specs.Prelude.{◌≡◌, ◌<◌};
ghost use Rattle.plan.specs.declared.Table.TheVariants.{Pieces, Windows, Frames};
ghost use Rattle.plan.specs.Image.{rows, cycle_ticks};
ghost use Rattle.plan.specs.Questions.{answer_of, accepted};
ghost use Rattle.plan.specs.Dispatch.{on_core, on_link, shown_at};
ghost use Rattle.charges.specs.Charges.{Charged};
ghost use Rattle.places.specs.declared.Occupant.TheVariants.{Piece, Window, Frame};
ghost use Rattle.places.specs.Index.{Indexed};
ghost use Rattle.cursors.specs.Taken.{Cursor, Current};
ghost use Rattle.cursors.specs.Keeps.{Keeps};
ghost use Rattle.stretches.specs.Stretches.{idle_stretch, piece_stretch, window_stretch, frame_stretch, segment_of, Ahead, Shows, Gathered, Sees};

use charges::charge_at;
use cursors::{Cursors, move_on, nearest};
use places::Occupant;
use plan::Table;
use tables::{piece_at, rows_of, window_at};
use terms::{frame_end, switch_ticks};

// What a lane shows for a while: one row, as kind `kind` before tick `turn` and as kind `later` from it on, up to tick `until`. Kinds are the
// numbers of the C interface.
#[derive(Clone, Copy)]
pub struct Stretch {
    pub kind: u32,
    pub later: u32,
    pub row: u32,
    pub turn: u32,
    pub until: u32,
}

pub fn idle_stretch(until: u32) -> Stretch
    ensures { result ≡ idle_stretch until }
{
    Stretch {
        kind: 0,
        later: 0,
        row: 0,
        turn: 0,
        until,
    }
}

// A piece, with its task switch first.
fn piece_stretch(image: &[u8], piece: u32) -> Stretch
    requires { (answer_of image.now ≡ accepted) × (piece < rows image.now Pieces) }
    ensures { result ≡ piece_stretch image.now piece }
{
    let p = piece_at(image, piece);
    Stretch {
        kind: 3,
        later: 4,
        row: piece,
        turn: p.start + switch_ticks(image, p.task),
        until: p.start + p.length,
    }
}

// A window, with its VCPU switch first, up to its end or to `most`, where a piece begins.
fn window_stretch(image: &[u8], charges: &[u32], window: u32, most: u32) -> Stretch
    requires { (answer_of image.now ≡ accepted) × (Charged image.now charges.now × (window < rows image.now Windows)) }
    ensures { result ≡ window_stretch image.now window most }
{
    let w = window_at(image, window);
    Stretch {
        kind: 1,
        later: 2,
        row: window,
        turn: w.start + charge_at(image, charges, window),
        until: (w.start + w.length).min(most),
    }
}

// A frame that is sent.
fn frame_stretch(image: &[u8], frame: u32) -> Stretch
    requires { (answer_of image.now ≡ accepted) × (frame < rows image.now Frames) }
    ensures { result ≡ frame_stretch image.now frame }
{
    Stretch {
        kind: 5,
        later: 5,
        row: frame,
        turn: 0,
        until: frame_end(image, frame) as u32,
    }
}

// What the lane of a core shows from a tick on, by its first piece and its first window that have not ended.
fn core_stretch(
    image: &[u8],
    charges: &[u32],
    core: u32,
    tick: u32,
    piece: u32,
    window: u32,
) -> Stretch
    requires image_value { (answer_of image.now ≡ accepted) × (Charged image.now charges.now × (tick < cycle_ticks image.now)) }
    requires current { Current image.now Piece core tick piece × Current image.now Window core tick window }
    ensures { Shows (on_core image.now core) tick (cycle_ticks image.now) result }
{
    match nearest(image, Occupant::Piece, core, tick, piece) {
        Ok(taken) => piece_stretch(image, taken),
        Err(next) => match nearest(image, Occupant::Window, core, tick, window) {
            Ok(around) => window_stretch(image, charges, around, next),
            Err(free) => idle_stretch(free.min(next)),
        },
    }
}

// What the lane of a link shows from a tick on, by its first frame that has not ended.
fn link_stretch(image: &[u8], link: u32, tick: u32, frame: u32) -> Stretch
    requires { (answer_of image.now ≡ accepted) × ((tick < cycle_ticks image.now) × Current image.now Frame link tick frame) }
    ensures { Shows (on_link image.now link) tick (cycle_ticks image.now) result }
{
    match nearest(image, Occupant::Frame, link, tick, frame) {
        Ok(taken) => frame_stretch(image, taken),
        Err(free) => idle_stretch(free),
    }
}

// What a lane shows for a while, and where to look on afterwards.
#[derive(Clone, Copy)]
pub struct View {
    pub stretch: Stretch,
    pub cursors: Cursors,
}

fn core_view(
    image: &[u8],
    charges: &[u32],
    index: &[u32],
    core: u32,
    tick: u32,
    cursors: Cursors,
) -> View
    requires gathered { Gathered image.now charges.now index.now × (tick < cycle_ticks image.now) }
    requires cursor { Cursor image.now Piece core tick cursors.piece × Cursor image.now Window core tick cursors.window }
    ensures shows { Shows (on_core image.now core) tick (cycle_ticks image.now) result.stretch }
    ensures cursor_2 { Cursor image.now Piece core tick result.cursors.piece × Cursor image.now Window core tick result.cursors.window }
{
    let piece = move_on(image, index, Occupant::Piece, core, tick, cursors.piece);
    let window = move_on(image, index, Occupant::Window, core, tick, cursors.window);
    let stretch = core_stretch(image, charges, core, tick, piece, window);
    let cursors = Cursors {
        piece,
        window,
        frame: 0,
    };
    View { stretch, cursors }
}

fn link_view(image: &[u8], index: &[u32], link: u32, tick: u32, cursors: Cursors) -> View
    requires image_value { (answer_of image.now ≡ accepted) × (Indexed image.now index.now × (tick < cycle_ticks image.now)) }
    requires cursor { Cursor image.now Frame link tick cursors.frame }
    ensures shows { Shows (on_link image.now link) tick (cycle_ticks image.now) result.stretch }
    ensures cursor_2 { Cursor image.now Frame link tick result.cursors.frame }
{
    let frame = move_on(image, index, Occupant::Frame, link, tick, cursors.frame);
    let stretch = link_stretch(image, link, tick, frame);
    let cursors = Cursors {
        piece: 0,
        window: 0,
        frame,
    };
    View { stretch, cursors }
}

// What a lane shows from a tick on.
fn view_at(
    image: &[u8],
    charges: &[u32],
    index: &[u32],
    lane: u32,
    tick: u32,
    cursors: Cursors,
) -> View
    requires { Gathered image.now charges.now index.now × ((tick < cycle_ticks image.now) × Keeps image.now lane tick cursors) }
    ensures { Sees image.now lane tick result }
{
    let cores = rows_of(image, Table::Cores);
    if lane < cores {
        core_view(image, charges, index, lane, tick, cursors)
    } else {
        link_view(image, index, lane - cores, tick, cursors)
    }
}

// What is shown from a tick on, given what is known already: only past its end is there anything to look for.
pub fn go_on(
    image: &[u8],
    charges: &[u32],
    index: &[u32],
    lane: u32,
    tick: u32,
    known: View,
) -> View
    requires gathered { Gathered image.now charges.now index.now × (tick < cycle_ticks image.now) }
    requires ahead { Ahead (shown_at image.now lane) tick (cycle_ticks image.now) known.stretch × Keeps image.now lane tick known.cursors }
    ensures { Sees image.now lane tick result }
{
    let stretch = known.stretch;
    if tick < stretch.until {
        return known;
    }
    let cursors = known.cursors;
    view_at(image, charges, index, lane, tick, cursors)
}

// One kind and one row, up to tick `until`.
#[derive(Clone, Copy)]
pub struct Segment {
    pub kind: u32,
    pub row: u32,
    pub until: u32,
}

// The first segment of a stretch from a tick on.
pub fn segment_at(stretch: Stretch, tick: u32) -> Segment
    ensures { result ≡ segment_of stretch tick }
{
    if tick < stretch.turn {
        Segment {
            kind: stretch.kind,
            row: stretch.row,
            until: stretch.turn.min(stretch.until),
        }
    } else {
        Segment {
            kind: stretch.later,
            row: stretch.row,
            until: stretch.until,
        }
    }
}
