// Asking questions in order (paper 01, "The questions"): each over the rows of its table, and only where all before it were passed. A no is an
// error, the answer that names question, table and row.
#![tactic(auto)]

ghost use Rattle.std.specs.Prelude.{◌≡◌, ◌≤◌, ℕ, Bool, true, length, [], ◌∷◌};
ghost use Rattle.plan.specs.Image.{rows, trailer_bytes};
ghost use Rattle.plan.specs.Search.{first_no};
ghost use Rattle.searching.specs.Searching.{MayAsk, Tells};
ghost use Rattle.plan.specs.Questions.{whole};
ghost use Rattle.asking.specs.Asking.{told, verdict};

use plan::{Answer, Asked, refused};
use tables::{refusal, rows_of};

// What the lowest row that says no to a question tells, if there is one.
#[tactic(auto, unfolding(crate::specs::Asking::told))]
pub fn tell(asked: Asked, row: Option<u32>) -> Result<(), Answer>
    ensures { result ≡ told asked row }
{
    match row {
        Some(row) => Err(refusal(asked, row)),
        None => Ok(()),
    }
}

// Asks a question of each row of its table.
pub fn each_row<F: Fn(u32) -> bool>(image: &[u8], asked: Asked, ok: F) -> Result<(), Answer>
    requires trailer { trailer_bytes ≤ length image.now }
    requires may_ask { MayAsk (F.pre ok) (F.post ok) true (rows image.now asked.table) }
    ensures { (p : ℕ → Bool) → Tells (F.post ok) true (rows image.now asked.table) p → result ≡ told asked (first_no (rows image.now asked.table) p) }
{
    let table = asked.table;
    tell(asked, searching::first_no(rows_of(image, table), ok))
}

// Asks a question of the image as a whole, which names no row.
#[tactic(auto, unfolding(crate::specs::Asking::verdict, plan::specs::Questions::whole, plan::specs::Search::first_no))]
pub fn whole(number: u32, holds: bool) -> Result<(), Answer>
    ensures { result ≡ verdict (whole number holds ∷ []) }
{
    if holds { Ok(()) } else { Err(refused(number)) }
}
