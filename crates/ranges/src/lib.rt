// Question 6 (paper 01, "The questions"): the values of a row are in range; and 40 (paper 02, request 13), a stream's queue is.
#![tactic(auto)]

ghost use Rattle.std.specs.Prelude.{◌≡◌, ◌<◌};
ghost use Rattle.plan.specs.declared.Table.TheVariants.{Cores, Tasks, Links, Streams, Buffers};
ghost use Rattle.plan.specs.Image.{rows};
ghost use Rattle.plan.specs.Questions.{in_range, queue_fits};
ghost use Rattle.plan.specs.Held.{InImage};

use plan::Table;
use tables::{buffer_at, core_at, cycle_ticks, link_at, stream_at, task_at};

// 6, of a core.
fn core_range(image: &[u8], row: u32) -> bool
    requires { InImage image.now × (row < rows image.now Cores) }
    ensures { result ≡ in_range image.now Cores row }
{
    let core = core_at(image, row);
    (core.node <= 15) & (core.d <= 1000) & (core.v <= 1000)
}

// 6, of a task: 1 ≤ T dividing H, and 1 ≤ C ≤ D ≤ T.
fn task_range(image: &[u8], row: u32) -> bool
    requires { InImage image.now × (row < rows image.now Tasks) }
    ensures { result ≡ in_range image.now Tasks row }
{
    let task = task_at(image, row);
    let period = task.period;
    if period == 0 {
        return false;
    }
    let divides = cycle_ticks(image) % period == 0;
    (1 <= period)
        & divides
        & (1 <= task.budget)
        & (task.budget <= task.deadline)
        & (task.deadline <= period)
}

// 6, of a link.
fn link_range(image: &[u8], row: u32) -> bool
    requires { InImage image.now × (row < rows image.now Links) }
    ensures { result ≡ in_range image.now Links row }
{
    let link = link_at(image, row);
    (link.from <= 15)
        & (link.to <= 15)
        & !(link.from == link.to)
        & (link.delay <= 1000000)
        & (1 <= link.rate)
        & (link.rate <= 10000)
        & (link.lowest <= link.delay)
}

// 6, of a stream.
fn stream_range(image: &[u8], row: u32) -> bool
    requires { InImage image.now × (row < rows image.now Streams) }
    ensures { result ≡ in_range image.now Streams row }
{
    let stream = stream_at(image, row);
    let differ = !(stream.sender == stream.receiver);
    differ
        & (stream.latency <= 1000000)
        & (1 <= stream.hops)
        & (stream.hops <= 8)
        & (46 <= stream.payload)
        & (stream.payload <= 1500)
}

// 6, of a buffer row.
fn buffer_range(image: &[u8], row: u32) -> bool
    requires { InImage image.now × (row < rows image.now Buffers) }
    ensures { result ≡ in_range image.now Buffers row }
{
    let buffer = buffer_at(image, row);
    (buffer.number <= 63) & !(buffer.writer == buffer.reader)
}

// 6: are a row's values in range?
pub fn row_range(image: &[u8], table: Table, row: u32) -> bool
    requires { InImage image.now × (row < rows image.now table) }
    ensures { result ≡ in_range image.now table row }
{
    match table {
        Table::Cores => core_range(image, row),
        Table::Vcpus => true,
        Table::Tasks => task_range(image, row),
        Table::Windows => true,
        Table::Pieces => true,
        Table::Links => link_range(image, row),
        Table::Streams => stream_range(image, row),
        Table::Frames => true,
        Table::Buffers => buffer_range(image, row),
        Table::Chains => true,
    }
}

// 40: is a stream's queue one of the eight?
pub fn queue_fits(image: &[u8], stream: u32) -> bool
    requires { InImage image.now × (stream < rows image.now Streams) }
    ensures { result ≡ queue_fits image.now stream }
{
    stream_at(image, stream).queue <= 7
}
