// Question 32 (paper 02, request 5): a row is not below its predecessor.
#![tactic(auto)]

ghost use Rattle.std.specs.Prelude.{◌≡◌, ◌<◌, ◌≤◌, ◌-◌, eqb, ltb, ◌&&◌, ◌||◌};
ghost use Rattle.plan.specs.declared.Table.TheVariants.{Windows, Pieces, Frames};
ghost use Rattle.plan.specs.Image.{rows};
ghost use Rattle.plan.specs.Questions.{order_words, in_order};
ghost use Rattle.plan.specs.Search as Search;
ghost use Rattle.plan.specs.Held.{InImage};

use plan::Table;
use tables::{frame_at, piece_at, window_at};

// 32: is a word higher than that of the row before, or equal with the rest not below?
fn rises(before: u32, word: u32, rest: bool) -> bool
    ensures { result ≡ (ltb before word || (eqb before word && rest)) }
{
    (before < word) | ((before == word) & rest)
}

// 32, of a window: is it not below the one before it, by start and then word by word?
fn window_rises(image: &[u8], row: u32) -> bool
    requires { InImage image.now × ((1 ≤ row) × (row < rows image.now Windows)) }
    ensures { result ≡ Search.rises (order_words image.now Windows (row - 1)) (order_words image.now Windows row) }
{
    let a = window_at(image, row - 1);
    let b = window_at(image, row);
    let length = rises(a.length, b.length, true);
    let start = rises(a.start, b.start, length);
    let vcpu = rises(a.vcpu, b.vcpu, start);
    rises(a.start, b.start, vcpu)
}

// 32, of a piece.
fn piece_rises(image: &[u8], row: u32) -> bool
    requires { InImage image.now × ((1 ≤ row) × (row < rows image.now Pieces)) }
    ensures { result ≡ Search.rises (order_words image.now Pieces (row - 1)) (order_words image.now Pieces row) }
{
    let a = piece_at(image, row - 1);
    let b = piece_at(image, row);
    let length = rises(a.length, b.length, true);
    let start = rises(a.start, b.start, length);
    let job = rises(a.job, b.job, start);
    let task = rises(a.task, b.task, job);
    rises(a.start, b.start, task)
}

// 32, of a frame.
fn frame_rises(image: &[u8], row: u32) -> bool
    requires { InImage image.now × ((1 ≤ row) × (row < rows image.now Frames)) }
    ensures { result ≡ Search.rises (order_words image.now Frames (row - 1)) (order_words image.now Frames row) }
{
    let a = frame_at(image, row - 1);
    let b = frame_at(image, row);
    let start = rises(a.start, b.start, true);
    let link = rises(a.link, b.link, start);
    let hop = rises(a.hop, b.hop, link);
    let job = rises(a.job, b.job, hop);
    let stream = rises(a.stream, b.stream, job);
    rises(a.start, b.start, stream)
}

// 32: is a row not below its predecessor? Row 0 has none, and other tables have no order.
pub fn row_rises(image: &[u8], table: Table, row: u32) -> bool
    requires { InImage image.now × (row < rows image.now table) }
    ensures { result ≡ in_order image.now table row }
{
    if row == 0 {
        return true;
    }
    match table {
        Table::Cores => true,
        Table::Vcpus => true,
        Table::Tasks => true,
        Table::Windows => window_rises(image, row),
        Table::Pieces => piece_rises(image, row),
        Table::Links => true,
        Table::Streams => true,
        Table::Frames => frame_rises(image, row),
        Table::Buffers => true,
        Table::Chains => true,
    }
}
