// Questions 14, 15, 17, 18, 20 and 21 (paper 01, "The questions"), each of one stream, frame or job; and when a frame's stay begins, for 41 (paper 02,
// request 13).
#![tactic(auto)]

ghost use Rattle.std.specs.Prelude.{◌≡◌, ◌<◌};
ghost use Rattle.plan.specs.declared.Table.TheVariants.{Streams, Frames};
ghost use Rattle.plan.specs.Image.{rows};
ghost use Rattle.plan.specs.Held.{Sound};
ghost use Rattle.plan.specs.Questions.{stream_ends, frame_fits, joined, hop_waits};
ghost use Rattle.plan.specs.Questions.{message_waits, in_time, stay_from};
ghost use Rattle.jobs.specs.Times.{Timed};
ghost use Rattle.frames.specs.Index.{Framed, Indexed, JobOf};

use frames::frame_of;
use jobs::{first_start, last_end};
use tables::{frame_at, link_at, precision_ticks, stream_at, task_at};
use terms::{across_at, frame_end, jobs_of, limit_of, node_of, over_from, stream_period};

// 14: have sender and receiver equal periods and different nodes?
pub fn stream_ends(image: &[u8], stream: u32) -> bool
    requires { Sound image.now × (stream < rows image.now Streams) }
    ensures { result ≡ stream_ends image.now stream }
{
    let m = stream_at(image, stream);
    let equal = task_at(image, m.sender).period == task_at(image, m.receiver).period;
    let one_node = node_of(image, m.sender) == node_of(image, m.receiver);
    equal & !one_node
}

// 15: is the job one of the stream's, the hop below its hops, and the frame in the job's period?
pub fn frame_fits(image: &[u8], frame: u32) -> bool
    requires { Sound image.now × (frame < rows image.now Frames) }
    ensures { result ≡ frame_fits image.now frame }
{
    let f = frame_at(image, frame);
    let m = stream_at(image, f.stream);
    let period = stream_period(image, f.stream) as u64;
    let exists = f.job < jobs_of(image, m.sender);
    let below = f.hop < m.hops;
    let starts = f.job as u64 * period <= f.start as u64;
    let ends = frame_end(image, frame) <= (f.job as u64 + 1) * period;
    exists & below & starts & ends
}

// 17: does hop 0 leave the sender's node, each hop start where the one before ended, and the last reach the receiver's node?
pub fn hops_joined(image: &[u8], index: &[u32], stream: u32, job: u32) -> bool
    requires { Framed image.now × (Indexed image.now index.now × JobOf image.now stream job) }
    ensures { result ≡ joined image.now stream job }
{
    let m = stream_at(image, stream);
    let hops = m.hops;
    let mut node = node_of(image, m.sender);
    for hop in 0..hops {
        let frame = frame_of(image, index, stream, job, hop);
        let link = link_at(image, frame_at(image, frame).link);
        if link.from != node {
            return false;
        }
        node = link.to;
    }
    node == node_of(image, m.receiver)
}

// 18: does the frame start no sooner than the previous hop's is across, by any node's clock?
pub fn hop_waits(image: &[u8], index: &[u32], frame: u32) -> bool
    requires { Framed image.now × (Indexed image.now index.now × (frame < rows image.now Frames)) }
    ensures { result ≡ hop_waits image.now frame }
{
    let f = frame_at(image, frame);
    if f.hop == 0 {
        return true;
    }
    let previous = frame_of(image, index, f.stream, f.job, f.hop - 1);
    across_at(image, previous) <= f.start as u64
}

// 20: does hop 0 start no sooner than the sender job's last end, and the receiver job no sooner than the last hop is across?
pub fn message_waits(image: &[u8], times: &[u32], index: &[u32], stream: u32, job: u32) -> bool
    requires timed { Timed image.now times.now × (Framed image.now × JobOf image.now stream job) }
    requires indexed { Indexed image.now index.now }
    ensures { result ≡ message_waits image.now stream job }
{
    let m = stream_at(image, stream);
    let first = frame_of(image, index, stream, job, 0);
    let last = frame_of(image, index, stream, job, m.hops - 1);
    let sent = last_end(image, times, m.sender, job) <= frame_at(image, first).start;
    let read = across_at(image, last) <= first_start(image, times, m.receiver, job) as u64;
    sent & read
}

// 21: is the receiver's last end less the sender's first start, plus P, at most E?
pub fn in_time(image: &[u8], times: &[u32], stream: u32, job: u32) -> bool
    requires { Timed image.now times.now × (Framed image.now × JobOf image.now stream job) }
    ensures { result ≡ in_time image.now stream job }
{
    let m = stream_at(image, stream);
    let end = last_end(image, times, m.receiver, job) as u64 + precision_ticks(image) as u64;
    let start = first_start(image, times, m.sender, job) as u64;
    end <= limit_of(image, stream) as u64 + start
}

// 41: where a frame's stay on its link begins: for hop 0 at the sender job's last end, else when some of it may be over the previous hop's link.
pub fn stay_from(image: &[u8], times: &[u32], index: &[u32], frame: u32) -> u64
    requires timed { Timed image.now times.now × (Framed image.now × (frame < rows image.now Frames)) }
    requires indexed { Indexed image.now index.now }
    ensures { result ≡ stay_from image.now frame }
{
    let f = frame_at(image, frame);
    if f.hop == 0 {
        let sender = stream_at(image, f.stream).sender;
        return last_end(image, times, sender, f.job) as u64;
    }
    let before = frame_of(image, index, f.stream, f.job, f.hop - 1);
    over_from(image, before)
}
