// Searches over the rows below a count, by any test (paper 01, "The questions"): each asks the rows in order and stops at the first that
// decides. A row is asked only where all rows before it have let the search go on.
#![tactic(auto)]

ghost use Rattle.std.specs.Prelude.{◌≡◌, ℕ, Bool, true, false};
ghost use Rattle.plan.specs.Search.{first_no, all, any};
ghost use Rattle.searching.specs.Searching.{MayAsk, Tells};

// The lowest row whose test says no.
pub fn first_no<F: Fn(u32) -> bool>(rows: u32, ok: F) -> Option<u32>
    requires { MayAsk (F.pre ok) (F.post ok) true rows }
    ensures { (p : ℕ → Bool) → Tells (F.post ok) true rows p → result ≡ first_no rows p }
{
    for row in 0..rows {
        if !ok(row) {
            return Some(row);
        }
    }
    None
}

// Do all rows pass?
pub fn all<F: Fn(u32) -> bool>(rows: u32, ok: F) -> bool
    requires { MayAsk (F.pre ok) (F.post ok) true rows }
    ensures { (p : ℕ → Bool) → Tells (F.post ok) true rows p → result ≡ all rows p }
{
    for row in 0..rows {
        if !ok(row) {
            return false;
        }
    }
    true
}

// Does any row pass?
pub fn any<F: Fn(u32) -> bool>(rows: u32, test: F) -> bool
    requires { MayAsk (F.pre test) (F.post test) false rows }
    ensures { (p : ℕ → Bool) → Tells (F.post test) false rows p → result ≡ any rows p }
{
    for row in 0..rows {
        if test(row) {
            return true;
        }
    }
    false
}
