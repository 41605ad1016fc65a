// The words of the plan paper: what its questions say of a task, a window, a piece, a stream and a frame, read off the image.
// Each gives what the definition of that name gives (Questions.antt), for an image that has passed questions 1 to 6 and 32.
#![tactic(auto)]

ghost use Rattle.std.specs.Prelude.{◌≡◌, ◌<◌, ◌≤◌};
ghost use Rattle.plan.specs.declared.Table.TheVariants.{Tasks, Windows, Pieces, Streams, Frames};
ghost use Rattle.plan.specs.Image as Image;
ghost use Rattle.plan.specs.Image.{rows, stream, link};
ghost use Rattle.plan.specs.Held.{Sound};
ghost use Rattle.plan.specs.Search.{any};
ghost use Rattle.plan.specs.Questions.{core_of, node_of, jobs, release, due, switch_ticks, window_core, window_end, keeps_from, charge, piece_core, piece_end};
ghost use Rattle.plan.specs.Questions.{stream_period, or_deadline, limit, send_ticks, frame_end, across, queue_of, over_from};

use plan::Table;
use tables::{
    core_at, cycle_ticks, frame_at, link_at, piece_at, precision_ticks, rows_of, stream_at,
    task_at, vcpu_at, window_at,
};

// A task's core.
pub fn core_of(image: &[u8], task: u32) -> u32
    requires { Sound image.now × (task < rows image.now Tasks) }
    ensures { result ≡ core_of image.now task }
{
    let vcpu = task_at(image, task).vcpu;
    vcpu_at(image, vcpu).core
}

// The node of a task's core.
pub fn node_of(image: &[u8], task: u32) -> u32
    requires { Sound image.now × (task < rows image.now Tasks) }
    ensures { result ≡ node_of image.now task }
{
    core_at(image, core_of(image, task)).node
}

// How many jobs a task has in a cycle.
pub fn jobs_of(image: &[u8], task: u32) -> u32
    requires { Sound image.now × (task < rows image.now Tasks) }
    ensures { result ≡ jobs image.now task }
{
    cycle_ticks(image) / task_at(image, task).period
}

// The tick at which a job is released.
pub fn release_of(image: &[u8], task: u32, job: u32) -> u64
    requires { Sound image.now × (task < rows image.now Tasks) }
    ensures { result ≡ release image.now task job }
{
    job as u64 * task_at(image, task).period as u64
}

// The tick before which a job has to end.
pub fn due_of(image: &[u8], task: u32, job: u32) -> u64
    requires { Sound image.now × (task < rows image.now Tasks) }
    ensures { result ≡ due image.now task job }
{
    let t = task_at(image, task);
    job as u64 * t.period as u64 + t.deadline as u64
}

// The first ticks of each of a task's pieces, which the task switch takes.
pub fn switch_ticks(image: &[u8], task: u32) -> u32
    requires { Sound image.now × (task < rows image.now Tasks) }
    ensures { result ≡ switch_ticks image.now task }
{
    core_at(image, core_of(image, task)).d
}

// A window's core.
pub fn window_core(image: &[u8], window: u32) -> u32
    requires { Sound image.now × (window < rows image.now Windows) }
    ensures { result ≡ window_core image.now window }
{
    let vcpu = window_at(image, window).vcpu;
    vcpu_at(image, vcpu).core
}

pub fn window_end(image: &[u8], window: u32) -> u64
    requires { Sound image.now × (window < rows image.now Windows) }
    ensures { result ≡ window_end image.now window }
{
    let w = window_at(image, window);
    w.start as u64 + w.length as u64
}

// Is another window one of the same VCPU that ends where this one begins?
fn keeps_from(image: &[u8], window: u32, other: u32) -> bool
    requires { Sound image.now × ((window < rows image.now Windows) × (other < rows image.now Windows)) }
    ensures { result ≡ keeps_from image.now window other }
{
    let w = window_at(image, window);
    let u = window_at(image, other);
    let another = !(other == window);
    let own = u.vcpu == w.vcpu;
    let meets = window_end(image, other) == w.start as u64;
    another & own & meets
}

// Is there such a window?
fn follows_another(image: &[u8], window: u32) -> bool
    requires { Sound image.now × (window < rows image.now Windows) }
    ensures { result ≡ any (rows image.now Windows) (keeps_from image.now window) }
{
    let windows = rows_of(image, Table::Windows);
    searching::any(windows, |other| keeps_from(image, window, other))
}

// A window's first ticks, which the VCPU switch takes: none where the window keeps its core. At tick 0 no window does.
pub fn charge_of(image: &[u8], window: u32) -> u32
    requires { Sound image.now × (window < rows image.now Windows) }
    ensures { result ≡ charge image.now window }
{
    let v = core_at(image, window_core(image, window)).v;
    if window_at(image, window).start == 0 {
        return v;
    }
    if follows_another(image, window) {
        return 0;
    }
    v
}

// A piece's core.
pub fn piece_core(image: &[u8], piece: u32) -> u32
    requires { Sound image.now × (piece < rows image.now Pieces) }
    ensures { result ≡ piece_core image.now piece }
{
    core_of(image, piece_at(image, piece).task)
}

pub fn piece_end(image: &[u8], piece: u32) -> u64
    requires { Sound image.now × (piece < rows image.now Pieces) }
    ensures { result ≡ piece_end image.now piece }
{
    let p = piece_at(image, piece);
    p.start as u64 + p.length as u64
}

// A stream's period: its sender's.
pub fn stream_period(image: &[u8], stream: u32) -> u32
    requires { Sound image.now × (stream < rows image.now Streams) }
    ensures { result ≡ stream_period image.now stream }
{
    task_at(image, stream_at(image, stream).sender).period
}

// A limit's word, where 0 stands for the deadline of the task.
pub fn or_deadline(image: &[u8], word: u32, task: u32) -> u32
    requires { Sound image.now × (task < rows image.now Tasks) }
    ensures { result ≡ or_deadline image.now word task }
{
    if word == 0 {
        task_at(image, task).deadline
    } else {
        word
    }
}

// A stream's latency limit; an E of 0 stands for the receiver's deadline.
pub fn limit_of(image: &[u8], stream: u32) -> u32
    requires { Sound image.now × (stream < rows image.now Streams) }
    ensures { result ≡ limit image.now stream }
{
    let m = stream_at(image, stream);
    or_deadline(image, m.latency, m.receiver)
}

// The bytes of a frame on the wire besides its payload: tagged Ethernet's header, check, preamble and gap.
const OVERHEAD: u32 = 42;

// A frame's payload, in bytes.
fn payload_of(image: &[u8], frame: u32) -> u32
    requires { Sound image.now × (frame < rows image.now Frames) }
    ensures { (result ≡ (stream image.now (Image.frame image.now frame).stream).payload) × (result ≤ 1500) }
{
    stream_at(image, frame_at(image, frame).stream).payload
}

// The rate of a frame's link, in bits a tick.
fn rate_of(image: &[u8], frame: u32) -> u32
    requires { Sound image.now × (frame < rows image.now Frames) }
    ensures { (result ≡ (link image.now (Image.frame image.now frame).link).rate) × ((1 ≤ result) × (result ≤ 10000)) }
{
    link_at(image, frame_at(image, frame).link).rate
}

// The ticks for which a frame is sent on its link: its bits by the link's rate, rounded up.
pub fn send_ticks(image: &[u8], frame: u32) -> u32
    requires { Sound image.now × (frame < rows image.now Frames) }
    ensures { result ≡ send_ticks image.now frame }
{
    let bits = 8 * (payload_of(image, frame) + OVERHEAD);
    let rate = rate_of(image, frame);
    (bits + (rate - 1)) / rate
}

pub fn frame_end(image: &[u8], frame: u32) -> u64
    requires { Sound image.now × (frame < rows image.now Frames) }
    ensures { result ≡ frame_end image.now frame }
{
    frame_at(image, frame).start as u64 + send_ticks(image, frame) as u64
}

// When a frame is across its link by any node's clock: its end, the link's delay and P.
pub fn across_at(image: &[u8], frame: u32) -> u64
    requires { Sound image.now × (frame < rows image.now Frames) }
    ensures { result ≡ across image.now frame }
{
    let link = frame_at(image, frame).link;
    frame_end(image, frame) + link_at(image, link).delay as u64 + precision_ticks(image) as u64
}

// A frame's queue: that of its stream.
pub fn queue_of(image: &[u8], frame: u32) -> u32
    requires { Sound image.now × (frame < rows image.now Frames) }
    ensures { result ≡ queue_of image.now frame }
{
    let stream = frame_at(image, frame).stream;
    stream_at(image, stream).queue
}

// The first tick at which some of a frame may be over its link, by any node's clock; never below 0.
pub fn over_from(image: &[u8], frame: u32) -> u64
    requires { Sound image.now × (frame < rows image.now Frames) }
    ensures { result ≡ over_from image.now frame }
{
    let f = frame_at(image, frame);
    let over = f.start as u64 + link_at(image, f.link).lowest as u64;
    let precision = precision_ticks(image) as u64;
    if over < precision {
        return 0;
    }
    over - precision
}
