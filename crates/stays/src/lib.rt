// Question 41 (paper 02, request 13): stays in one queue of a link that share a tick. A stay begins no later than its frame, and frames rise by start
// (question 32), so a stay overlaps that of a lower frame of its queue exactly if it begins before the latest end there.
#![tactic(auto)]

ghost use Rattle.std.specs.Prelude.{◌≡◌, ◌<◌};
ghost use Rattle.plan.specs.declared.Table.TheVariants.{Frames};
ghost use Rattle.plan.specs.Image.{rows};
ghost use Rattle.plan.specs.Search.{first_no};
ghost use Rattle.plan.specs.Questions.{stay_clear};
ghost use Rattle.plan.specs.Held.{Sound, Queued};
ghost use Rattle.tallies.specs.Tallies.{Kept};
ghost use Rattle.stays.specs.Queues.{most_queues, queue_place, Waited};

use messages::stay_from;
use plan::{Link, Table};
use tables::{frame_at, rows_of};
use tallies::raise;
use terms::{frame_end, queue_of};

// How many queues a link has.
const QUEUES: u32 = 8;

// A word for each queue of each link.
const PLACES: usize = Link::MAX as usize * QUEUES as usize;

// The place of a frame's queue.
fn place_of(image: &[u8], frame: u32) -> u32
    requires { Sound image.now × (Queued image.now × (frame < rows image.now Frames)) }
    ensures { result ≡ queue_place image.now frame }
{
    QUEUES * frame_at(image, frame).link + queue_of(image, frame)
}

// The lowest frame that clashes, with a word for each place: the latest end there, 0 at first.
fn clash_after(image: &[u8], times: &[u32], index: &[u32], ends: &mut [u64]) -> Option<u32>
    requires { Waited image.now times.now index.now × Kept ends.old 0 most_queues (λ _. 0) }
    ensures { result ≡ first_no (rows image.now Frames) (stay_clear image.now) }
{
    let frames = rows_of(image, Table::Frames);
    for frame in 0..frames {
        let place = place_of(image, frame);
        if stay_from(image, times, index, frame) < ends[place as usize] {
            return Some(frame);
        }
        raise(ends, place, frame_end(image, frame));
    }
    None
}

// The lowest frame whose stay shares a tick with that of a lower one in its queue. Without frames no word is needed.
pub fn first_clash(image: &[u8], times: &[u32], index: &[u32]) -> Option<u32>
    requires { Waited image.now times.now index.now }
    ensures { result ≡ first_no (rows image.now Frames) (stay_clear image.now) }
{
    if rows_of(image, Table::Frames) == 0 {
        return None;
    }
    let mut ends = [0u64; PLACES];
    clash_after(image, times, index, &mut ends)
}
