// Question 11 (paper 01, "The questions"): does each piece lie in a window of its VCPU, after the window's charge? Windows and pieces rise by
// start (question 32), so that one walk over the windows serves all pieces: the window is the last one of the VCPU to begin.
#![tactic(auto)]

ghost use Rattle.std.specs.Prelude.{◌≡◌, ◌<◌, ◌≤◌};
ghost use Rattle.plan.specs.declared.Table.TheVariants.{Windows, Pieces};
ghost use Rattle.plan.specs.Image.{rows, piece, most_vcpus};
ghost use Rattle.plan.specs.Search.{first_no};
ghost use Rattle.plan.specs.Questions.{inside, piece_inside, piece_questions};
ghost use Rattle.plan.specs.Held.{Sound, Passed};
ghost use Rattle.charges.specs.Charges.{Charged};
ghost use Rattle.tallies.specs.Tallies.{Kept};
ghost use Rattle.inside.specs.Holders.{holders, inside_last, vcpu_of, Begun, Starting};

use charges::charge_at;
use plan::{Table, Vcpu};
use tables::{piece_at, rows_of, task_at, window_at};
use terms::{piece_end, window_end};

// Does a piece lie in a window of its VCPU, after the window's charge?
fn lies_inside(image: &[u8], charges: &[u32], piece: u32, window: u32) -> bool
    requires sound { Sound image.now × ((piece < rows image.now Pieces) × (window < rows image.now Windows)) }
    requires charged { Charged image.now charges.now }
    ensures { result ≡ inside image.now piece window }
{
    let p = piece_at(image, piece);
    let w = window_at(image, window);
    let own = w.vcpu == task_at(image, p.task).vcpu;
    let starts = w.start as u64 + charge_at(image, charges, window) as u64 <= p.start as u64;
    let ends = piece_end(image, piece) <= window_end(image, window);
    own & starts & ends
}

// Takes in the windows from row `from` on that begin no later than a tick. Gives the first row that is left.
fn take_windows(image: &[u8], last: &mut [u32], from: u32, tick: u32) -> u32
    requires sound { Sound image.now × ((from ≤ rows image.now Windows) × Kept last.old 0 most_vcpus (holders image.now from)) }
    requires starting { Starting image.now tick from }
    ensures { Begun image.now tick result × Kept last.new 0 most_vcpus (holders image.now result) }
{
    let windows = rows_of(image, Table::Windows);
    for window in from..windows {
        let w = window_at(image, window);
        if tick < w.start {
            return window;
        }
        last[w.vcpu as usize] = window + 1;
    }
    windows
}

// Is a piece inside, by the last window of its VCPU to begin? 0 stands for none, else it is one more than its row: a number, no Option, since
// `holders` says so of the words.
fn inside_last(image: &[u8], charges: &[u32], piece: u32, last: u32) -> bool
    requires sound { Sound image.now × (Charged image.now charges.now × (piece < rows image.now Pieces)) }
    requires last_bound { last ≤ rows image.now Windows }
    ensures { result ≡ inside_last image.now piece last }
{
    match last.checked_sub(1) {
        Some(window) => lies_inside(image, charges, piece, window),
        None => false,
    }
}

// A piece's VCPU.
fn vcpu_of(image: &[u8], piece: u32) -> u32
    requires { Sound image.now × (piece < rows image.now Pieces) }
    ensures { result ≡ vcpu_of image.now piece }
{
    task_at(image, piece_at(image, piece).task).vcpu
}

// The same of all pieces, with a word for each VCPU: its last window to begin, none at first.
fn outside_after(image: &[u8], charges: &[u32], last: &mut [u32]) -> Option<u32>
    requires sound { Sound image.now × (Passed (piece_questions image.now) 4 × Charged image.now charges.now) }
    requires kept { Kept last.old 0 most_vcpus (λ _. 0) }
    ensures { result ≡ first_no (rows image.now Pieces) (piece_inside image.now) }
{
    let pieces = rows_of(image, Table::Pieces);
    let mut window: u32 = 0;
    for piece in 0..pieces {
        window = take_windows(image, last, window, piece_at(image, piece).start);
        let vcpu = vcpu_of(image, piece);
        if !inside_last(image, charges, piece, last[vcpu as usize]) {
            return Some(piece);
        }
    }
    None
}

// 11: the lowest piece that lies in no window.
pub fn first_outside(image: &[u8], charges: &[u32]) -> Option<u32>
    requires { Sound image.now × (Passed (piece_questions image.now) 4 × Charged image.now charges.now) }
    ensures { result ≡ first_no (rows image.now Pieces) (piece_inside image.now) }
{
    let mut last = [0u32; Vcpu::MAX as usize];
    outside_after(image, charges, &mut last)
}
