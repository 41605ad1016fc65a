// The gates of a link (paper 02, request 13), found in one pass over the frames: rows rise by start (question 32) and frames of one link never overlap
// (19), so that between its frames, before the first and after the last no gate is open.
#![tactic(auto)]

ghost use Rattle.std.specs.Prelude.{◌≡◌, ◌∷◌, [], ◌+◌, ◌*◌, ◌^◌, ◌<◌, ◌≤◌, length};
ghost use Rattle.std.proofs.lemmas.List.Edits.{sets};
ghost use Rattle.plan.specs.declared.Table.TheVariants.{Frames};
ghost use Rattle.plan.specs.Image as Image;
ghost use Rattle.plan.specs.Image.{rows, most_frames};
ghost use Rattle.plan.specs.Questions.{answer_of, accepted, queue_of};
ghost use Rattle.gates.specs.Gates.{gates, gate_words};
ghost use Rattle.gates.specs.Walks.{Past};
ghost use Rattle.opening.specs.Listings.{list_words, Room, GoneOn, Sent, Walked, Walking, TakenIn};

use plan::{Frame, Table};
use tables::{cycle_ticks, frame_at, rows_of};
use terms::{frame_end, queue_of};

// How many words the list of any link takes at most: the count, and two words for each gate; two gates for each frame, and one more.
pub const WORDS: usize = 1 + 2 * (2 * Frame::MAX as usize + 1);

// A list as far as it is found: so many gates are written, and then the octet is this since one tick, up to another.
#[derive(Clone, Copy)]
pub struct Listing {
    pub count: u32,
    pub octet: u32,
    pub since: u32,
    pub until: u32,
}

// A gate from word `at` on: octet, interval.
fn put(list: &mut [u32], at: usize, octet: u32, interval: u32)
    requires { at + 2 ≤ length list.old }
    ensures { list.new ≡ sets list.old at (octet ∷ interval ∷ []) }
{
    list[at] = octet;
    list[at + 1] = interval;
}

// A frame's octet: the bit of its queue.
fn octet_of(image: &[u8], frame: u32) -> u32
    requires { (answer_of image.now ≡ accepted) × (frame < rows image.now Frames) }
    ensures { result ≡ 2 ^ queue_of image.now frame }
{
    1 << queue_of(image, frame)
}

// Goes on with an octet up to a tick. Only where the octet was another is there a gate to write: neighbours differ. Before tick 0 there was none.
fn go_on(list: &mut [u32], at: Listing, octet: u32, until: u32) -> Listing
    requires { Room list.old at × (at.until < until) }
    ensures { GoneOn list.old at octet until list.new result }
{
    if at.until == 0 {
        return Listing {
            count: 0,
            octet,
            since: 0,
            until,
        };
    }
    if at.octet == octet {
        return Listing {
            count: at.count,
            octet,
            since: at.since,
            until,
        };
    }
    put(
        list,
        1 + 2 * at.count as usize,
        at.octet,
        at.until - at.since,
    );
    Listing {
        count: at.count + 1,
        octet,
        since: at.until,
        until,
    }
}

// Goes on with no gate open up to a tick, if it is not reached yet.
fn idle_to(list: &mut [u32], at: Listing, until: u32) -> Listing
    requires { Room list.old at × (at.until ≤ until) }
    ensures { GoneOn list.old at 0 until list.new result }
{
    if at.until < until {
        return go_on(list, at, 0, until);
    }
    at
}

// A frame of the link is sent.
fn send(image: &[u8], list: &mut [u32], at: Listing, frame: u32) -> Listing
    requires image_value { (answer_of image.now ≡ accepted) × (frame < rows image.now Frames) }
    requires past { Past image.now (Image.frame image.now frame).link frame at.until × Room list.old at × (at.count < 2 * most_frames) }
    ensures { Sent image.now frame list.old at list.new result }
{
    let idle = idle_to(list, at, frame_at(image, frame).start);
    go_on(
        list,
        idle,
        octet_of(image, frame),
        frame_end(image, frame) as u32,
    )
}

// Takes in a frame, if it is the link's.
fn take_in(image: &[u8], link: u32, list: &mut [u32], at: Listing, frame: u32) -> Listing
    requires image_value { (answer_of image.now ≡ accepted) × (frame < rows image.now Frames) }
    requires walking { Walking image.now link frame list.old at }
    ensures { TakenIn image.now link frame list.old at list.new result }
{
    if frame_at(image, frame).link == link {
        return send(image, list, at, frame);
    }
    at
}

// Takes in all frames, one after another.
fn send_all(image: &[u8], link: u32, list: &mut [u32]) -> Listing
    requires { (answer_of image.now ≡ accepted) × (length list.old ≡ list_words) }
    ensures { Walked image.now link list.old (rows image.now Frames) list.new result }
{
    let frames = rows_of(image, Table::Frames);
    let mut at = Listing {
        count: 0,
        octet: 0,
        since: 0,
        until: 0,
    };
    for frame in 0..frames {
        at = take_in(image, link, list, at, frame);
    }
    at
}

// Writes the gate list of a link of an accepted plan: how many gates there are, and the gates. Gives how many.
pub fn find(image: &[u8], link: u32, list: &mut [u32]) -> u32
    requires { (answer_of image.now ≡ accepted) × (length list.old ≡ list_words) }
    ensures { (result ≡ length (gates image.now link)) × (list.new ≡ sets list.old 0 (gate_words image.now link)) }
{
    let end = cycle_ticks(image);
    let sent = send_all(image, link, list);
    let last = idle_to(list, sent, end);
    put(
        list,
        1 + 2 * last.count as usize,
        last.octet,
        end - last.since,
    );
    list[0] = last.count + 1;
    last.count + 1
}
