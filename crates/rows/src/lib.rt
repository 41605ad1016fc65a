// Questions 5 and 6 (paper 01, "The questions") and 32 (paper 02, request 5), each over the rows of all tables; and 40 (request 13), over the streams.
#![tactic(auto)]

ghost use Rattle.std.specs.Prelude.{◌≡◌, ◌<◌, ℕ, Bool};
ghost use Rattle.plan.specs.declared.Table.{Table};
ghost use Rattle.plan.specs.Image.{tables, rows};
ghost use Rattle.plan.specs.Questions.{each_table, row_questions, queue_questions};
ghost use Rattle.plan.specs.Held.{InImage};
ghost use Rattle.asking.specs.Asking.{verdict};

use asking::each_row;
use names::row_names;
use order::row_rises;
use plan::{Answer, Asked, Table};
use ranges::{queue_fits, row_range};
use tables::{TABLES, table_at};

// Asks a question of the rows of all tables.
fn each_table<F: Fn(Table, u32) -> bool>(image: &[u8], number: u32, ok: F) -> Result<(), Answer>
    requires in_image { InImage image.now }
    requires may_ask { (t : Table) (r : ℕ) → r < rows image.now t → F.pre ok t r }
    ensures { (p : Table → ℕ → Bool) → ((t : Table) (r : ℕ) (b : Bool) → r < rows image.now t → F.post ok t r b → b ≡ p t r)
        → result ≡ verdict (each_table image.now number tables p) }
{
    for i in 0..TABLES {
        let table = table_at(i);
        each_row(
            image,
            Asked { number, table },
            |row|
                requires { F.pre ok table row }
                ensures { F.post ok table row result }
            { ok(table, row) },
        )?;
    }
    Ok(())
}

// Questions 5, 32 and 6.
pub fn ask(image: &[u8]) -> Result<(), Answer>
    requires { InImage image.now }
    ensures { result ≡ verdict (row_questions image.now) }
{
    each_table(image, 5, |table, row| row_names(image, table, row))?;
    each_table(image, 32, |table, row| row_rises(image, table, row))?;
    each_table(image, 6, |table, row| row_range(image, table, row))
}

const QUEUE_FITS: Asked = Asked {
    number: 40,
    table: Table::Streams,
};

// Question 40.
pub fn ask_queues(image: &[u8]) -> Result<(), Answer>
    requires { InImage image.now }
    ensures { result ≡ verdict (queue_questions image.now) }
{
    each_row(image, QUEUE_FITS, |stream| queue_fits(image, stream))
}
