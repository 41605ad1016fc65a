// The bytes of a plan image (paper 01, "The plan image"): its words, its trailer, its tables as parts of the caller's bytes, and
// their rows.
#![tactic(auto)]

ghost use Rattle.std.specs.Prelude.{◌≡◌, ◌+◌, ◌*◌, ◌≤◌, ◌<◌, length};
ghost use Rattle.plan.specs.declared.Table.TheVariants.{Cores, Vcpus, Tasks, Windows, Pieces, Links, Streams, Frames, Buffers, Chains};
ghost use Rattle.plan.specs.Image.{word_at, shape, trailer_bytes, trailer_at, cycle_ticks, precision, offset, rows, table_end, part, field};
ghost use Rattle.plan.specs.Image.{core, vcpu, task, window, piece, link, stream, frame, buffer, chain};
ghost use Rattle.plan.specs.Held.{InImage};
ghost use Rattle.tables.specs.Tables.{table_count, table_at};

use plan::{
    Answer, Asked, Buffer, Chain, Core, Frame, Link, Piece, Shape, Stream, Table, Task, Vcpu,
    Window,
};

pub fn shape_of(table: Table) -> Shape
    ensures { result ≡ shape table }
{
    match table {
        Table::Cores => Shape {
            number: 1,
            width: Core::WORDS,
            most: Core::MAX,
        },
        Table::Vcpus => Shape {
            number: 2,
            width: Vcpu::WORDS,
            most: Vcpu::MAX,
        },
        Table::Tasks => Shape {
            number: 3,
            width: Task::WORDS,
            most: Task::MAX,
        },
        Table::Windows => Shape {
            number: 4,
            width: Window::WORDS,
            most: Window::MAX,
        },
        Table::Pieces => Shape {
            number: 5,
            width: Piece::WORDS,
            most: Piece::MAX,
        },
        Table::Links => Shape {
            number: 6,
            width: Link::WORDS,
            most: Link::MAX,
        },
        Table::Streams => Shape {
            number: 7,
            width: Stream::WORDS,
            most: Stream::MAX,
        },
        Table::Frames => Shape {
            number: 8,
            width: Frame::WORDS,
            most: Frame::MAX,
        },
        Table::Buffers => Shape {
            number: 9,
            width: Buffer::WORDS,
            most: Buffer::MAX,
        },
        Table::Chains => Shape {
            number: 10,
            width: Chain::WORDS,
            most: Chain::MAX,
        },
    }
}

// A no to a question, at a row of its table.
pub fn refusal(asked: Asked, row: u32) -> Answer
    ensures { result ≡ record { number = asked.number; table = (shape asked.table).number; row = row } }
{
    let table = asked.table;
    Answer {
        number: asked.number,
        table: shape_of(table).number,
        row,
    }
}

// How many tables there are.
pub const TABLES: u32 = 10;

// The tables, by their place.
pub fn table_at(i: u32) -> Table
    requires { i < table_count }
    ensures { result ≡ table_at i }
{
    match i {
        0 => Table::Cores,
        1 => Table::Vcpus,
        2 => Table::Tasks,
        3 => Table::Windows,
        4 => Table::Pieces,
        5 => Table::Links,
        6 => Table::Streams,
        7 => Table::Frames,
        8 => Table::Buffers,
        _ => Table::Chains,
    }
}

// Trailer and last word: H, P, an offset and a row count for each of the ten tables, and the word that points back.
pub const TRAILER_BYTES: usize = 4 * (3 + 2 * TABLES as usize);

// The word of four bytes, lowest first, that begins at byte i.
pub fn word(bytes: &[u8], i: usize) -> u32
    requires { i + 4 ≤ length bytes.now }
    ensures { result ≡ word_at bytes.now i }
{
    let a = bytes[i] as u32;
    let b = bytes[i + 1] as u32;
    let c = bytes[i + 2] as u32;
    let d = bytes[i + 3] as u32;
    a + 256 * b + 65536 * c + 16777216 * d
}

// The word at byte i of the trailer.
fn trailer_word(image: &[u8], i: usize) -> u32
    requires { (i + 4 ≤ trailer_bytes) × (trailer_bytes ≤ length image.now) }
    ensures { result ≡ word_at image.now (trailer_at image.now + i) }
{
    word(image, image.len() - TRAILER_BYTES + i)
}

// H.
pub fn cycle_ticks(image: &[u8]) -> u32
    requires { trailer_bytes ≤ length image.now }
    ensures { result ≡ cycle_ticks image.now }
{
    trailer_word(image, 0)
}

// P.
pub fn precision_ticks(image: &[u8]) -> u32
    requires { trailer_bytes ≤ length image.now }
    ensures { result ≡ precision image.now }
{
    trailer_word(image, 4)
}

pub fn offset_of(image: &[u8], table: Table) -> u32
    requires { trailer_bytes ≤ length image.now }
    ensures { result ≡ offset image.now table }
{
    let number = shape_of(table).number as usize;
    trailer_word(image, 8 * number)
}

pub fn rows_of(image: &[u8], table: Table) -> u32
    requires { trailer_bytes ≤ length image.now }
    ensures { result ≡ rows image.now table }
{
    let number = shape_of(table).number as usize;
    trailer_word(image, 8 * number + 4)
}

// The byte after a table's last row, by its offset and its count.
pub fn end_of(image: &[u8], table: Table) -> u64
    requires { trailer_bytes ≤ length image.now }
    ensures { result ≡ table_end image.now table }
{
    let width = shape_of(table).width as u64;
    offset_of(image, table) as u64 + 4 * (width * rows_of(image, table) as u64)
}

// The part of the image that a table occupies.
pub fn part_of(image: &[u8], table: Table) -> &[u8]
    requires { InImage image.now }
    ensures { result.now ≡ part image.now table }
{
    let from = offset_of(image, table) as usize;
    let end = end_of(image, table) as usize;
    &image[from..end]
}

// Word j of a row.
pub fn field_of(image: &[u8], table: Table, row: u32, j: u32) -> u32
    requires in_image { InImage image.now }
    requires row_bound { (row < rows image.now table) × (j < (shape table).width) }
    ensures { result ≡ field image.now table row j }
{
    let width = shape_of(table).width as usize;
    let rows = part_of(image, table);
    word(rows, 4 * (width * row as usize + j as usize))
}

pub fn core_at(image: &[u8], row: u32) -> Core
    requires in_image { InImage image.now }
    requires row_bound { row < rows image.now Cores }
    ensures { result ≡ core image.now row }
{
    Core {
        node: field_of(image, Table::Cores, row, 0),
        d: field_of(image, Table::Cores, row, 1),
        v: field_of(image, Table::Cores, row, 2),
    }
}

pub fn vcpu_at(image: &[u8], row: u32) -> Vcpu
    requires in_image { InImage image.now }
    requires row_bound { row < rows image.now Vcpus }
    ensures { result ≡ vcpu image.now row }
{
    Vcpu {
        core: field_of(image, Table::Vcpus, row, 0),
    }
}

pub fn task_at(image: &[u8], row: u32) -> Task
    requires in_image { InImage image.now }
    requires row_bound { row < rows image.now Tasks }
    ensures { result ≡ task image.now row }
{
    Task {
        vcpu: field_of(image, Table::Tasks, row, 0),
        mask: field_of(image, Table::Tasks, row, 1),
        period: field_of(image, Table::Tasks, row, 2),
        budget: field_of(image, Table::Tasks, row, 3),
        deadline: field_of(image, Table::Tasks, row, 4),
    }
}

pub fn window_at(image: &[u8], row: u32) -> Window
    requires in_image { InImage image.now }
    requires row_bound { row < rows image.now Windows }
    ensures { result ≡ window image.now row }
{
    Window {
        vcpu: field_of(image, Table::Windows, row, 0),
        start: field_of(image, Table::Windows, row, 1),
        length: field_of(image, Table::Windows, row, 2),
    }
}

pub fn piece_at(image: &[u8], row: u32) -> Piece
    requires in_image { InImage image.now }
    requires row_bound { row < rows image.now Pieces }
    ensures { result ≡ piece image.now row }
{
    Piece {
        task: field_of(image, Table::Pieces, row, 0),
        job: field_of(image, Table::Pieces, row, 1),
        start: field_of(image, Table::Pieces, row, 2),
        length: field_of(image, Table::Pieces, row, 3),
    }
}

pub fn link_at(image: &[u8], row: u32) -> Link
    requires in_image { InImage image.now }
    requires row_bound { row < rows image.now Links }
    ensures { result ≡ link image.now row }
{
    Link {
        from: field_of(image, Table::Links, row, 0),
        to: field_of(image, Table::Links, row, 1),
        delay: field_of(image, Table::Links, row, 2),
        rate: field_of(image, Table::Links, row, 3),
        lowest: field_of(image, Table::Links, row, 4),
    }
}

pub fn stream_at(image: &[u8], row: u32) -> Stream
    requires in_image { InImage image.now }
    requires row_bound { row < rows image.now Streams }
    ensures { result ≡ stream image.now row }
{
    Stream {
        sender: field_of(image, Table::Streams, row, 0),
        receiver: field_of(image, Table::Streams, row, 1),
        latency: field_of(image, Table::Streams, row, 2),
        hops: field_of(image, Table::Streams, row, 3),
        payload: field_of(image, Table::Streams, row, 4),
        queue: field_of(image, Table::Streams, row, 5),
    }
}

pub fn frame_at(image: &[u8], row: u32) -> Frame
    requires in_image { InImage image.now }
    requires row_bound { row < rows image.now Frames }
    ensures { result ≡ frame image.now row }
{
    Frame {
        stream: field_of(image, Table::Frames, row, 0),
        job: field_of(image, Table::Frames, row, 1),
        hop: field_of(image, Table::Frames, row, 2),
        link: field_of(image, Table::Frames, row, 3),
        start: field_of(image, Table::Frames, row, 4),
    }
}

pub fn buffer_at(image: &[u8], row: u32) -> Buffer
    requires in_image { InImage image.now }
    requires row_bound { row < rows image.now Buffers }
    ensures { result ≡ buffer image.now row }
{
    Buffer {
        number: field_of(image, Table::Buffers, row, 0),
        writer: field_of(image, Table::Buffers, row, 1),
        reader: field_of(image, Table::Buffers, row, 2),
    }
}

pub fn chain_at(image: &[u8], row: u32) -> Chain
    requires in_image { InImage image.now }
    requires row_bound { row < rows image.now Chains }
    ensures { result ≡ chain image.now row }
{
    Chain {
        first: field_of(image, Table::Chains, row, 0),
        last: field_of(image, Table::Chains, row, 1),
        limit: field_of(image, Table::Chains, row, 2),
    }
}
