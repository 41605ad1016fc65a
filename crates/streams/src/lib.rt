// Questions 14 to 21 (paper 01, "The questions") and 41 (paper 02, request 13): streams and frames.
#![tactic(auto)]

ghost use Rattle.std.specs.Prelude.{◌≡◌, ◌<◌, take};
ghost use Rattle.plan.specs.declared.Table.TheVariants.{Streams};
ghost use Rattle.plan.specs.Image as Image;
ghost use Rattle.plan.specs.Image.{rows};
ghost use Rattle.plan.specs.Held.{Sound, Queued, Passed};
ghost use Rattle.plan.specs.Questions.{jobs, each_job, joined, message_waits, in_time, stream_questions};
ghost use Rattle.asking.specs.Asking.{verdict};
ghost use Rattle.jobs.specs.Times.{Timed};
ghost use Rattle.frames.specs.Index.{Indexed, Framed};

use asking::{each_row, tell};
use clashes::first_clash;
use frames::first_unframed;
use messages::{frame_fits, hop_waits, hops_joined, in_time, message_waits, stream_ends};
use places::Occupant;
use plan::{Answer, Asked, Table};
use tables::stream_at;
use terms::jobs_of;

// How many jobs a stream has: those of its sender.
fn stream_jobs(image: &[u8], stream: u32) -> u32
    requires { Sound image.now × (stream < rows image.now Streams) }
    ensures { result ≡ jobs image.now (Image.stream image.now stream).sender }
{
    jobs_of(image, stream_at(image, stream).sender)
}

// 17: are the hops of every job joined? There are no more jobs than frames where 16 is passed.
#[tactic(auto, unfolding(plan::specs::Questions::each_job))]
fn all_joined(image: &[u8], index: &[u32], stream: u32) -> bool
    requires { Framed image.now × (Indexed image.now index.now × (stream < rows image.now Streams)) }
    ensures { result ≡ each_job image.now (joined image.now) stream }
{
    let jobs = stream_jobs(image, stream);
    searching::all(jobs, |job| hops_joined(image, index, stream, job))
}

// 20: does every job's message wait for the sender's job to end?
#[tactic(auto, unfolding(plan::specs::Questions::each_job))]
fn all_wait(image: &[u8], times: &[u32], index: &[u32], stream: u32) -> bool
    requires { Framed image.now × (Timed image.now times.now × (Indexed image.now index.now × (stream < rows image.now Streams))) }
    ensures { result ≡ each_job image.now (message_waits image.now) stream }
{
    let jobs = stream_jobs(image, stream);
    searching::all(jobs, |job| message_waits(image, times, index, stream, job))
}

// 21: is every job's message in time?
#[tactic(auto, unfolding(plan::specs::Questions::each_job))]
fn all_in_time(image: &[u8], times: &[u32], stream: u32) -> bool
    requires { Framed image.now × (Timed image.now times.now × (stream < rows image.now Streams)) }
    ensures { result ≡ each_job image.now (in_time image.now) stream }
{
    let jobs = stream_jobs(image, stream);
    searching::all(jobs, |job| in_time(image, times, stream, job))
}

// The questions.
const STREAM_ENDS: Asked = Asked {
    number: 14,
    table: Table::Streams,
};

const FRAME_FITS: Asked = Asked {
    number: 15,
    table: Table::Frames,
};

const ONE_FRAME: Asked = Asked {
    number: 16,
    table: Table::Streams,
};

const JOINED: Asked = Asked {
    number: 17,
    table: Table::Streams,
};

const HOP_WAITS: Asked = Asked {
    number: 18,
    table: Table::Frames,
};

const FRAME_CLEAR: Asked = Asked {
    number: 19,
    table: Table::Frames,
};

const MESSAGE_WAITS: Asked = Asked {
    number: 20,
    table: Table::Streams,
};

const IN_TIME: Asked = Asked {
    number: 21,
    table: Table::Streams,
};

const STAY_CLEAR: Asked = Asked {
    number: 41,
    table: Table::Frames,
};

// Questions 14 to 16: is there one frame for each hop of each job?
fn ask_frames(image: &[u8], index: &[u32]) -> Result<(), Answer>
    requires { Sound image.now × Indexed image.now index.now }
    ensures { result ≡ verdict (take 3 (stream_questions image.now)) }
{
    each_row(image, STREAM_ENDS, |stream| stream_ends(image, stream))?;
    each_row(image, FRAME_FITS, |frame| frame_fits(image, frame))?;
    tell(ONE_FRAME, first_unframed(image, index))
}

// Questions 17 to 19, where these were passed.
fn ask_hops(image: &[u8], index: &[u32]) -> Result<(), Answer>
    requires { Framed image.now × Indexed image.now index.now }
    ensures { result ≡ verdict (take 6 (stream_questions image.now)) }
{
    each_row(image, JOINED, |stream| all_joined(image, index, stream))?;
    each_row(image, HOP_WAITS, |frame| hop_waits(image, index, frame))?;
    tell(FRAME_CLEAR, first_clash(image, Occupant::Frame))
}

// Questions 20, 21 and 41, where all before them were passed.
fn ask_messages(image: &[u8], times: &[u32], index: &[u32]) -> Result<(), Answer>
    requires framed { Framed image.now × Passed (stream_questions image.now) 6 }
    requires timed { Queued image.now × (Timed image.now times.now × Indexed image.now index.now) }
    ensures { result ≡ verdict (stream_questions image.now) }
{
    each_row(
        image,
        MESSAGE_WAITS,
        |stream| all_wait(image, times, index, stream),
    )?;
    each_row(image, IN_TIME, |stream| all_in_time(image, times, stream))?;
    tell(STAY_CLEAR, stays::first_clash(image, times, index))
}

// Questions 14 to 21 and 41. The times are those of the plan's jobs.
pub fn ask(image: &[u8], times: &[u32]) -> Result<(), Answer>
    requires { Sound image.now × (Queued image.now × Timed image.now times.now) }
    ensures { result ≡ verdict (stream_questions image.now) }
{
    let mut index = [0u32; frames::WORDS];
    frames::gather(image, &mut index);
    ask_frames(image, &index)?;
    ask_hops(image, &index)?;
    ask_messages(image, times, &index)
}
