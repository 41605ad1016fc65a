// The charge of every window (paper 02, request 1), found once and kept: questions 7 and 11 and the tables of the cores' lanes ask
// for it again and again.
#![tactic(auto)]

ghost use Rattle.std.specs.Prelude.{◌≡◌, ◌<◌, length};
ghost use Rattle.plan.specs.declared.Table.TheVariants.{Windows};
ghost use Rattle.plan.specs.Image.{rows, most_vcpus, most_windows};
ghost use Rattle.plan.specs.Held.{Sound};
ghost use Rattle.plan.specs.Questions.{charge};
ghost use Rattle.tallies.specs.Tallies.{Kept};
ghost use Rattle.charges.specs.Charges.{end_before, Charged};

use plan::{Table, Vcpu, Window};
use tables::{core_at, rows_of, window_at};
use tallies::raise;
use terms::{charge_of, window_core, window_end};

// How many words the charges take: one for each window.
pub const WORDS: usize = Window::MAX as usize;

// A window's charge, by the latest end of the lower windows of its VCPU: a window that begins there keeps the core. Only where it is
// empty or begins sooner, so that question 7 or 8 is going to refuse a window, are all others looked at.
fn charge_after(image: &[u8], window: u32, latest: u64) -> u32
    requires { Sound image.now × ((window < rows image.now Windows) × (latest ≡ end_before image.now window)) }
    ensures { result ≡ charge image.now window }
{
    let w = window_at(image, window);
    let start = w.start as u64;
    if w.length == 0 {
        return charge_of(image, window);
    }
    if start < latest {
        return charge_of(image, window);
    }
    let v = core_at(image, window_core(image, window)).v;
    if start == 0 {
        return v;
    }
    if start == latest {
        return 0;
    }
    v
}

// The same of every window, with a word for each VCPU: the latest end of its windows so far, 0 at first.
fn gather_after(image: &[u8], charges: &mut [u32], ends: &mut [u64])
    requires { Sound image.now × ((length charges.old ≡ most_windows) × Kept ends.old 0 most_vcpus (λ _. 0)) }
    ensures { Charged image.now charges.new }
{
    let windows = rows_of(image, Table::Windows);
    for window in 0..windows {
        let vcpu = window_at(image, window).vcpu;
        charges[window as usize] = charge_after(image, window, ends[vcpu as usize]);
        raise(ends, vcpu, window_end(image, window));
    }
}

// Finds the charge of every window.
pub fn gather(image: &[u8], charges: &mut [u32])
    requires { Sound image.now × (length charges.old ≡ most_windows) }
    ensures { Charged image.now charges.new }
{
    let mut ends = [0u64; Vcpu::MAX as usize];
    gather_after(image, charges, &mut ends);
}

// A window's charge, as found.
pub fn charge_at(image: &[u8], charges: &[u32], window: u32) -> u32
    requires { Charged image.now charges.now × (Sound image.now × (window < rows image.now Windows)) }
    ensures { result ≡ charge image.now window }
{
    charges[window as usize]
}
