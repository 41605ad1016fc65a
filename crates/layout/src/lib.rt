// Questions 1 to 4 (paper 01, "The questions"): the image as a whole.
#![tactic(auto)]

ghost use Rattle.std.specs.Prelude.{◌≡◌, ◌≤◌, ◌-◌, length, eqb};
ghost use Rattle.plan.specs.Image.{tables, trailer_bytes, word_at};
ghost use Rattle.plan.specs.Questions.{laid, image_questions};
ghost use Rattle.asking.specs.Asking.{verdict};
ghost use Rattle.layout.specs.Tests.{length_fits, table_fits, laid_out, ticks_fit};

use asking::whole;
use plan::{Answer, Buffer, Chain, Core, Frame, Link, Piece, Stream, Table, Task, Vcpu, Window};
use tables::{
    TABLES, TRAILER_BYTES, cycle_ticks, end_of, offset_of, precision_ticks, rows_of, shape_of,
    table_at, word,
};

// The words of all tables, each at its highest count.
const MOST_WORDS: u32 = Core::WORDS * Core::MAX
    + Vcpu::WORDS * Vcpu::MAX
    + Task::WORDS * Task::MAX
    + Window::WORDS * Window::MAX
    + Piece::WORDS * Piece::MAX
    + Link::WORDS * Link::MAX
    + Stream::WORDS * Stream::MAX
    + Frame::WORDS * Frame::MAX
    + Buffer::WORDS * Buffer::MAX
    + Chain::WORDS * Chain::MAX;

// The largest image.
pub const MOST_BYTES: usize = TRAILER_BYTES + 4 * MOST_WORDS as usize;

// 1: is the length in bounds?
fn length_fits(image: &[u8]) -> bool
    ensures { result ≡ length_fits image.now }
{
    (TRAILER_BYTES <= image.len()) & (image.len() <= MOST_BYTES)
}

// 2: does the last word point back to the trailer?
fn points_back(image: &[u8]) -> bool
    requires { trailer_bytes ≤ length image.now }
    ensures { result ≡ eqb (word_at image.now (length image.now - 4)) (length image.now - trailer_bytes) }
{
    word(image, image.len() - 4) as usize == image.len() - TRAILER_BYTES
}

// 3: is a table's row count in bounds, and does it lie where the table before it ends?
fn table_fits(image: &[u8], table: Table, from: u64) -> bool
    requires { trailer_bytes ≤ length image.now }
    ensures { result ≡ table_fits image.now table from }
{
    let count = rows_of(image, table) <= shape_of(table).most;
    let place = offset_of(image, table) as u64 == from;
    count & place
}

// 3: do the tables lie one after another up to the trailer?
fn tables_fit(image: &[u8]) -> bool
    requires { trailer_bytes ≤ length image.now }
    ensures { result ≡ laid image.now 0 tables }
{
    let mut from: u64 = 0;
    for i in 0..TABLES {
        let table = table_at(i);
        if !table_fits(image, table, from) {
            return false;
        }
        from = end_of(image, table);
    }
    from == (image.len() - TRAILER_BYTES) as u64
}

// 3: and is there a core?
fn laid_out(image: &[u8]) -> bool
    requires { trailer_bytes ≤ length image.now }
    ensures { result ≡ laid_out image.now }
{
    (1 <= rows_of(image, Table::Cores)) & tables_fit(image)
}

// 4: are H and P in range?
fn ticks_fit(image: &[u8]) -> bool
    requires { trailer_bytes ≤ length image.now }
    ensures { result ≡ ticks_fit image.now }
{
    let cycle = cycle_ticks(image);
    (1 <= cycle) & (cycle <= 1000000) & (precision_ticks(image) <= 10000)
}

// Questions 1 to 4.
pub fn ask_image(image: &[u8]) -> Result<(), Answer>
    ensures { result ≡ verdict (image_questions image.now) }
{
    whole(1, length_fits(image))?;
    whole(2, points_back(image))?;
    whole(3, laid_out(image))?;
    whole(4, ticks_fit(image))
}
