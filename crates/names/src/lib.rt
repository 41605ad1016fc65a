// Question 5 (paper 01, "The questions"): the row numbers of a row name rows.
#![tactic(auto)]

ghost use Rattle.std.specs.Prelude.{◌≡◌, ◌<◌};
ghost use Rattle.plan.specs.declared.Table.TheVariants.{Streams, Frames, Buffers};
ghost use Rattle.plan.specs.Image.{rows};
ghost use Rattle.plan.specs.Questions.{names};
ghost use Rattle.plan.specs.Held.{InImage};

use plan::Table;
use tables::{buffer_at, frame_at, piece_at, rows_of, stream_at, task_at, vcpu_at, window_at};

// 5, of a stream.
fn stream_names(image: &[u8], row: u32) -> bool
    requires { InImage image.now × (row < rows image.now Streams) }
    ensures { result ≡ names image.now Streams row }
{
    let stream = stream_at(image, row);
    let tasks = rows_of(image, Table::Tasks);
    (stream.sender < tasks) & (stream.receiver < tasks)
}

// 5, of a frame.
fn frame_names(image: &[u8], row: u32) -> bool
    requires { InImage image.now × (row < rows image.now Frames) }
    ensures { result ≡ names image.now Frames row }
{
    let frame = frame_at(image, row);
    (frame.stream < rows_of(image, Table::Streams)) & (frame.link < rows_of(image, Table::Links))
}

// 5, of a buffer row.
fn buffer_names(image: &[u8], row: u32) -> bool
    requires { InImage image.now × (row < rows image.now Buffers) }
    ensures { result ≡ names image.now Buffers row }
{
    let buffer = buffer_at(image, row);
    let tasks = rows_of(image, Table::Tasks);
    (buffer.writer < tasks) & (buffer.reader < tasks)
}

// 5: do the row numbers of a row name rows?
pub fn row_names(image: &[u8], table: Table, row: u32) -> bool
    requires { InImage image.now × (row < rows image.now table) }
    ensures { result ≡ names image.now table row }
{
    match table {
        Table::Cores => true,
        Table::Vcpus => vcpu_at(image, row).core < rows_of(image, Table::Cores),
        Table::Tasks => task_at(image, row).vcpu < rows_of(image, Table::Vcpus),
        Table::Windows => window_at(image, row).vcpu < rows_of(image, Table::Vcpus),
        Table::Pieces => piece_at(image, row).task < rows_of(image, Table::Tasks),
        Table::Links => true,
        Table::Streams => stream_names(image, row),
        Table::Frames => frame_names(image, row),
        Table::Buffers => buffer_names(image, row),
        Table::Chains => true,
    }
}
