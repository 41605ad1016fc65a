// Where a walk along a lane looks (paper 01, "Dispatch"): the first row of a core or a link that has not ended at a tick, by the index of
// places, and whether it takes up the tick.
#![tactic(auto)]

ghost use Rattle.std.specs.Prelude.{◌≡◌, ◌<◌};
ghost use Rattle.plan.specs.Image.{cycle_ticks};
ghost use Rattle.plan.specs.Held.{Sound};
ghost use Rattle.plan.specs.Questions.{answer_of, accepted};
ghost use Rattle.plan.specs.Dispatch.{lanes};
ghost use Rattle.places.specs.Index.{Indexed};
ghost use Rattle.cursors.specs.Taken.{Cursor, Current, Nearest};
ghost use Rattle.cursors.specs.Keeps.{Keeps};

use places::{Occupant, first_at, from_of, next_at, table_for, to_of};
use plan::Table;
use tables::{cycle_ticks, rows_of};

// Where a walk looks on: the piece and the window of a core's lane, or the frame of a link's. Those before it have ended.
#[derive(Clone, Copy)]
pub struct Cursors {
    pub piece: u32,
    pub window: u32,
    pub frame: u32,
}

// Where the walk along a lane begins to look: at the lowest rows of its core or its link.
pub fn first_cursors(image: &[u8], index: &[u32], lane: u32) -> Cursors
    requires { (answer_of image.now ≡ accepted) × (Indexed image.now index.now × (lane < lanes image.now)) }
    ensures { Keeps image.now lane 0 result }
{
    let cores = rows_of(image, Table::Cores);
    if lane < cores {
        Cursors {
            piece: first_at(image, index, Occupant::Piece, lane),
            window: first_at(image, index, Occupant::Window, lane),
            frame: 0,
        }
    } else {
        Cursors {
            piece: 0,
            window: 0,
            frame: first_at(image, index, Occupant::Frame, lane - cores),
        }
    }
}

// Moves on from a row of a place past those that have ended by a tick.
pub fn move_on(
    image: &[u8],
    index: &[u32],
    occupant: Occupant,
    place: u32,
    tick: u32,
    row: u32,
) -> u32
    requires { Sound image.now × (Indexed image.now index.now × Cursor image.now occupant place tick row) }
    ensures { Current image.now occupant place tick result }
{
    let rows = rows_of(image, table_for(occupant));
    let mut at = row;
    while at < rows {
        if (tick as u64) < to_of(image, occupant, at) {
            return at;
        }
        at = next_at(image, index, occupant, at);
    }
    at
}

// The row that takes up a tick of a place, or, as an error, a tick up to which none does: by the place's first row that has not ended.
pub fn nearest(
    image: &[u8],
    occupant: Occupant,
    place: u32,
    tick: u32,
    row: u32,
) -> Result<u32, u32>
    requires { (answer_of image.now ≡ accepted) × ((tick < cycle_ticks image.now) × Current image.now occupant place tick row) }
    ensures { Nearest image.now occupant place tick result }
{
    if row < rows_of(image, table_for(occupant)) {
        let from = from_of(image, occupant, row);
        if from <= tick {
            return Ok(row);
        }
        return Err(from);
    }
    Err(cycle_ticks(image))
}
