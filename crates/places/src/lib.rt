// The rows of each place in order: pieces and windows of each core, frames of each link. An index, gathered once into words that the
// caller lends (specs/Index.antt says where each stands), leads from a place to its lowest row and from a row to the next one there.
#![tactic(auto)]

ghost use Rattle.std.specs.Prelude.{◌≡◌, suc, ◌+◌, ◌<◌, ◌≤◌, length};
ghost use Rattle.plan.specs.Image.{rows, most_pieces};
ghost use Rattle.plan.specs.Held.{Sound};
ghost use Rattle.places.specs.Places.{table_for, place_of, from_of, to_of, NextRow};
ghost use Rattle.places.specs.Index.{base_of, linked_at, Untouched, Cleared, Linked, Indexed, most_places, frames_at, index_words};

use plan::{Frame, Link, Piece, Table, Window};
use tables::{frame_at, piece_at, rows_of, window_at};
use terms::{frame_end, piece_core, piece_end, window_core, window_end};

// How many words the index takes.
pub const WORDS: usize = FRAMES + PLACES + Frame::MAX as usize;

// A word for each place of an occupant; more than there are cores, and as many as there are links.
pub const PLACES: usize = Link::MAX as usize;

// Where the words of windows and of frames begin.
const WINDOWS: usize = PLACES + Piece::MAX as usize;

const FRAMES: usize = WINDOWS + PLACES + Window::MAX as usize;

// What takes up ticks of a place: pieces and windows those of a core, frames those of a link.
#[derive(Clone, Copy)]
pub enum Occupant {
    Piece,
    Window,
    Frame,
}

pub fn table_for(occupant: Occupant) -> Table
    ensures { result ≡ table_for occupant }
{
    match occupant {
        Occupant::Piece => Table::Pieces,
        Occupant::Window => Table::Windows,
        Occupant::Frame => Table::Frames,
    }
}

// The place of a row: its core or its link.
pub fn place_of(image: &[u8], occupant: Occupant, row: u32) -> u32
    requires { Sound image.now × (row < rows image.now (table_for occupant)) }
    ensures { result ≡ place_of image.now occupant row }
{
    match occupant {
        Occupant::Piece => piece_core(image, row),
        Occupant::Window => window_core(image, row),
        Occupant::Frame => frame_at(image, row).link,
    }
}

// Its first tick.
pub fn from_of(image: &[u8], occupant: Occupant, row: u32) -> u32
    requires { Sound image.now × (row < rows image.now (table_for occupant)) }
    ensures { result ≡ from_of image.now occupant row }
{
    match occupant {
        Occupant::Piece => piece_at(image, row).start,
        Occupant::Window => window_at(image, row).start,
        Occupant::Frame => frame_at(image, row).start,
    }
}

// The tick after its last.
pub fn to_of(image: &[u8], occupant: Occupant, row: u32) -> u64
    requires { Sound image.now × (row < rows image.now (table_for occupant)) }
    ensures { result ≡ to_of image.now occupant row }
{
    match occupant {
        Occupant::Piece => piece_end(image, row),
        Occupant::Window => window_end(image, row),
        Occupant::Frame => frame_end(image, row),
    }
}

// The word at which an occupant's part of the index begins.
fn base_of(occupant: Occupant) -> usize
    ensures { result ≡ base_of occupant }
{
    match occupant {
        Occupant::Piece => 0,
        Occupant::Window => WINDOWS,
        Occupant::Frame => FRAMES,
    }
}

// Before any row is taken in, no place has one.
fn clear(index: &mut [u32], base: usize, rows: u32)
    requires { (length index.old ≡ index_words) × (base ≤ frames_at) }
    ensures { Cleared base rows index.new most_places × Untouched base index.old index.new }
{
    index[base..base + PLACES].fill(rows);
}

// Puts a row before those of its place.
fn link(index: &mut [u32], base: usize, place: usize, row: usize)
    requires { (length index.old ≡ index_words) × ((place < most_places) × ((base + most_places + row < index_words) × (row < most_pieces))) }
    ensures { index.new ≡ linked_at index.old base place row }
{
    let next = index[base + place];
    index[base + PLACES + row] = next;
    index[base + place] = row as u32;
}

// Takes all rows in, the last one first.
fn link_rows(image: &[u8], index: &mut [u32], occupant: Occupant)
    requires sound { Sound image.now }
    requires linked { Linked image.now occupant index.old (rows image.now (table_for occupant)) }
    ensures { Linked image.now occupant index.new 0 × Untouched (base_of occupant) index.old index.new }
{
    let base = base_of(occupant);
    let rows = rows_of(image, table_for(occupant));
    for row in (0..rows).rev() {
        let place = place_of(image, occupant, row);
        link(index, base, place as usize, row as usize);
    }
}

// An occupant's part of the index.
fn gather_part(image: &[u8], index: &mut [u32], occupant: Occupant)
    requires { Sound image.now × (length index.old ≡ index_words) }
    ensures { Linked image.now occupant index.new 0 × Untouched (base_of occupant) index.old index.new }
{
    let rows = rows_of(image, table_for(occupant));
    clear(index, base_of(occupant), rows);
    link_rows(image, index, occupant);
}

// Gathers the index.
pub fn gather(image: &[u8], index: &mut [u32])
    requires { Sound image.now × (length index.old ≡ index_words) }
    ensures { Indexed image.now index.new }
{
    gather_part(image, index, Occupant::Piece);
    gather_part(image, index, Occupant::Window);
    gather_part(image, index, Occupant::Frame);
}

// The lowest row of a place, or the number of rows: a number, no Option, since `NextRow` says so of the words.
pub fn first_at(image: &[u8], index: &[u32], occupant: Occupant, place: u32) -> u32
    requires { Indexed image.now index.now × (place < most_places) }
    ensures { NextRow image.now occupant place 0 result }
{
    index[base_of(occupant) + place as usize]
}

// The next row of a row's place, or the number of rows.
pub fn next_at(image: &[u8], index: &[u32], occupant: Occupant, row: u32) -> u32
    requires { Indexed image.now index.now × (Sound image.now × (row < rows image.now (table_for occupant))) }
    ensures { NextRow image.now occupant (place_of image.now occupant row) (suc row) result }
{
    index[base_of(occupant) + PLACES + row as usize]
}
