// Questions 8, 12 and 19 (paper 01, "The questions"): windows and pieces of one core, and frames of one link, that share a tick. Rows
// rise by start (question 32), so a row overlaps a lower one of its place exactly if it begins before the latest end there.
#![tactic(auto)]

ghost use Rattle.std.specs.Prelude.{◌≡◌};
ghost use Rattle.plan.specs.Image.{rows};
ghost use Rattle.plan.specs.Search.{first_no};
ghost use Rattle.plan.specs.Held.{Sound};
ghost use Rattle.places.specs.Places.{table_for};
ghost use Rattle.tallies.specs.Tallies.{Kept};
ghost use Rattle.clashes.specs.Clashes.{clear_of, Lasting};
ghost use Rattle.places.specs.Index.{most_places};

use places::{Occupant, from_of, place_of, table_for, to_of};
use tables::rows_of;
use tallies::raise;

// The same, with a word for each place: the latest end there, 0 at first.
fn clash_after(image: &[u8], occupant: Occupant, ends: &mut [u64]) -> Option<u32>
    requires { Sound image.now × (Lasting image.now occupant × Kept ends.old 0 most_places (λ _. 0)) }
    ensures { result ≡ first_no (rows image.now (table_for occupant)) (clear_of image.now occupant) }
{
    let rows = rows_of(image, table_for(occupant));
    for row in 0..rows {
        let place = place_of(image, occupant, row);
        if (from_of(image, occupant, row) as u64) < ends[place as usize] {
            return Some(row);
        }
        raise(ends, place, to_of(image, occupant, row));
    }
    None
}

// The lowest row that shares a tick with a lower one of its place.
pub fn first_clash(image: &[u8], occupant: Occupant) -> Option<u32>
    requires { Sound image.now × Lasting image.now occupant }
    ensures { result ≡ first_no (rows image.now (table_for occupant)) (clear_of image.now occupant) }
{
    let mut ends = [0u64; places::PLACES];
    clash_after(image, occupant, &mut ends)
}
