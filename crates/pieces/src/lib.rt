// Questions 7, 9 and 10 (paper 01, "The questions"), each of one window, task or piece.
#![tactic(auto)]

ghost use Rattle.std.specs.Prelude.{◌≡◌, ◌<◌};
ghost use Rattle.plan.specs.declared.Table.TheVariants.{Tasks, Windows, Pieces};
ghost use Rattle.plan.specs.Image.{rows};
ghost use Rattle.plan.specs.Questions.{window_fits, mask_allows, piece_fits};
ghost use Rattle.plan.specs.Held.{Sound};
ghost use Rattle.charges.specs.Charges.{Charged};

use charges::charge_at;
use tables::{cycle_ticks, piece_at, task_at, window_at};
use terms::{core_of, due_of, jobs_of, piece_end, release_of, switch_ticks, window_end};

// 7: is the window longer than its charge, and its end in the cycle?
pub fn window_fits(image: &[u8], charges: &[u32], window: u32) -> bool
    requires { Sound image.now × (Charged image.now charges.now × (window < rows image.now Windows)) }
    ensures { result ≡ window_fits image.now window }
{
    let long = charge_at(image, charges, window) < window_at(image, window).length;
    let ends = window_end(image, window) <= cycle_ticks(image) as u64;
    long & ends
}

// 9: does the mask allow the VCPU's core?
pub fn mask_allows(image: &[u8], task: u32) -> bool
    requires { Sound image.now × (task < rows image.now Tasks) }
    ensures { result ≡ mask_allows image.now task }
{
    (task_at(image, task).mask >> core_of(image, task)) % 2 == 1
}

// 10: is the job one of the task's, the piece longer than the task switch, and between release and due tick?
pub fn piece_fits(image: &[u8], piece: u32) -> bool
    requires { Sound image.now × (piece < rows image.now Pieces) }
    ensures { result ≡ piece_fits image.now piece }
{
    let p = piece_at(image, piece);
    let exists = p.job < jobs_of(image, p.task);
    let long = switch_ticks(image, p.task) < p.length;
    let starts = release_of(image, p.task, p.job) <= p.start as u64;
    let ends = piece_end(image, piece) <= due_of(image, p.task, p.job);
    exists & long & starts & ends
}
