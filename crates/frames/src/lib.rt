// The frames of every stream's job at every hop, gathered in one pass over the frames into words that the caller lends
// (specs/Index.antt says where each stands), and question 16 (paper 01, "The questions"), which is asked of these.
#![tactic(auto)]

ghost use Rattle.std.specs.Prelude.{◌≡◌, ◌+◌, ◌<◌, ◌≤◌, min, length, get_or, replicate};
ghost use Rattle.plan.specs.declared.Table.TheVariants.{Streams, Frames};
ghost use Rattle.plan.specs.Image.{rows, most_frames};
ghost use Rattle.plan.specs.Image as Image;
ghost use Rattle.plan.specs.Questions.{frame_of, each_job, question_at, stream_questions};
ghost use Rattle.plan.specs.Held.{Sound, Passed, refusing};
ghost use Rattle.tallies.specs.Tallies.{Kept};
ghost use Rattle.frames.specs.Index.{span, place, begins, Taken, Indexed, taken_at, JobOf, once_at, once_each, Framed, counts_at, frame_words};

use plan::{Frame, Stream, Table};
use tables::{frame_at, rows_of, stream_at};
use terms::jobs_of;

const COUNTS: usize = Stream::MAX as usize;

const LASTS: usize = COUNTS + PLACES;

// How many words the index takes.
pub const WORDS: usize = LASTS + PLACES;

// How many places are kept.
const PLACES: usize = Frame::MAX as usize;

// A place as it is kept.
fn capped(place: u64) -> u32
    ensures { result ≡ min most_frames place }
{
    place.min(PLACES as u64) as u32
}

// How many places a stream has: one for each hop of each of its jobs.
fn span_of(image: &[u8], stream: u32) -> u32
    requires { Sound image.now × (stream < rows image.now Streams) }
    ensures { result ≡ span image.now stream }
{
    let m = stream_at(image, stream);
    jobs_of(image, m.sender) * m.hops
}

// Writes the place of each stream's first hop.
fn place_streams(image: &[u8], index: &mut [u32])
    requires { Sound image.now × (index.old ≡ replicate frame_words 0) }
    ensures { Taken image.now index.new 0 }
{
    let streams = rows_of(image, Table::Streams);
    let mut place: u32 = 0;
    for stream in 0..streams {
        index[stream as usize] = place;
        place = capped(place as u64 + span_of(image, stream) as u64);
    }
}

// The place of a stream's job at a hop, as far as places are kept.
fn place_of(image: &[u8], index: &[u32], stream: u32, job: u32, hop: u32) -> u32
    requires sound { Sound image.now × (stream < rows image.now Streams) }
    requires kept { Kept index.now 0 (rows image.now Streams) (begins image.now) }
    ensures { result ≡ min most_frames (place image.now stream job hop) }
{
    let hops = stream_at(image, stream).hops;
    let offset = job as u64 * hops as u64 + hop as u64;
    capped(index[stream as usize] as u64 + offset)
}

// Takes a frame in at a place.
fn take_at(index: &mut [u32], place: usize, frame: u32)
    requires { (length index.old ≡ frame_words) × ((place < most_frames) × (get_or index.old (counts_at + place) 0 ≤ most_frames)) }
    ensures { index.new ≡ taken_at index.old place frame }
{
    index[COUNTS + place] += 1;
    index[LASTS + place] = frame;
}

// Takes a frame in, where its place is kept.
fn take_in(image: &[u8], index: &mut [u32], frame: u32)
    requires sound { Sound image.now × (frame < rows image.now Frames) }
    requires taken { Taken image.now index.old frame }
    ensures { Taken image.now index.new (frame + 1) }
{
    let f = frame_at(image, frame);
    let place = place_of(image, index, f.stream, f.job, f.hop) as usize;
    if place < PLACES {
        take_at(index, place, frame);
    }
}

// Takes all frames in.
fn take_all(image: &[u8], index: &mut [u32])
    requires { Sound image.now × Taken image.now index.old 0 }
    ensures { Indexed image.now index.new }
{
    let frames = rows_of(image, Table::Frames);
    for frame in 0..frames {
        take_in(image, index, frame);
    }
}

// Gathers the frames of a plan into fresh words.
pub fn gather(image: &[u8], index: &mut [u32])
    requires { Sound image.now × (index.old ≡ replicate frame_words 0) }
    ensures { Indexed image.now index.new }
{
    place_streams(image, index);
    take_all(image, index);
}

// 16: has a stream's job exactly one frame at a hop?
fn has_one(image: &[u8], index: &[u32], stream: u32, job: u32, hop: u32) -> bool
    requires sound { Sound image.now × (Passed (stream_questions image.now) 2 × Indexed image.now index.now) }
    requires job_of { JobOf image.now stream job × (hop < (Image.stream image.now stream).hops) }
    ensures { result ≡ once_at image.now stream job hop }
{
    let place = place_of(image, index, stream, job, hop) as usize;
    if place < PLACES {
        index[COUNTS + place] == 1
    } else {
        false
    }
}

// 16: at each hop?
fn one_frame(image: &[u8], index: &[u32], stream: u32, job: u32) -> bool
    requires sound { Sound image.now × (Passed (stream_questions image.now) 2 × Indexed image.now index.now) }
    requires job_of { JobOf image.now stream job }
    ensures { result ≡ once_each image.now stream job }
{
    let hops = stream_at(image, stream).hops;
    searching::all(hops, |hop| has_one(image, index, stream, job, hop))
}

// 16: each job of a stream? The search ends at the first place that is not kept, however many jobs there are.
fn each_framed(image: &[u8], index: &[u32], stream: u32) -> bool
    requires sound { Sound image.now × (Passed (stream_questions image.now) 2 × Indexed image.now index.now) }
    requires stream_bound { stream < rows image.now Streams }
    ensures { result ≡ each_job image.now (once_each image.now) stream }
{
    let jobs = jobs_of(image, stream_at(image, stream).sender);
    searching::all(jobs, |job| one_frame(image, index, stream, job))
}

// 16: the lowest stream with a job that has not exactly one frame for each hop.
pub fn first_unframed(image: &[u8], index: &[u32]) -> Option<u32>
    requires { Sound image.now × (Passed (stream_questions image.now) 2 × Indexed image.now index.now) }
    ensures { result ≡ refusing (question_at (stream_questions image.now) 2) }
{
    let streams = rows_of(image, Table::Streams);
    searching::first_no(streams, |stream| each_framed(image, index, stream))
}

// The frame of a stream's job at a hop, where question 16 is passed.
pub fn frame_of(image: &[u8], index: &[u32], stream: u32, job: u32, hop: u32) -> u32
    requires framed { Framed image.now × Indexed image.now index.now }
    requires job_of { JobOf image.now stream job × (hop < (Image.stream image.now stream).hops) }
    ensures { result ≡ frame_of image.now stream job hop }
{
    let place = place_of(image, index, stream, job, hop) as usize;
    index[LASTS + place]
}
