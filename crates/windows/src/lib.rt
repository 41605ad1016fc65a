// Questions 7 to 13 (paper 01, "The questions"): windows, tasks and pieces.
#![tactic(auto)]

ghost use Rattle.std.specs.Prelude.{◌≡◌, IfOk, length, take};
ghost use Rattle.plan.specs.Questions.{piece_questions};
ghost use Rattle.plan.specs.Held.{Sound, Passed};
ghost use Rattle.asking.specs.Asking.{verdict};
ghost use Rattle.charges.specs.Charges.{Charged};
ghost use Rattle.jobs.specs.Times.{times_words, Timed};

use asking::{each_row, tell};
use budgets::first_off_budget;
use clashes::first_clash;
use inside::first_outside;
use pieces::{mask_allows, piece_fits, window_fits};
use places::Occupant;
use plan::{Answer, Asked, Table};

// The questions.
const WINDOW_FITS: Asked = Asked {
    number: 7,
    table: Table::Windows,
};

const WINDOW_CLEAR: Asked = Asked {
    number: 8,
    table: Table::Windows,
};

const MASK_ALLOWS: Asked = Asked {
    number: 9,
    table: Table::Tasks,
};

const PIECE_FITS: Asked = Asked {
    number: 10,
    table: Table::Pieces,
};

const PIECE_INSIDE: Asked = Asked {
    number: 11,
    table: Table::Pieces,
};

const PIECE_CLEAR: Asked = Asked {
    number: 12,
    table: Table::Pieces,
};

const TASK_BUDGET: Asked = Asked {
    number: 13,
    table: Table::Tasks,
};

// Questions 7 to 10, with the charges at hand.
fn ask_fits(image: &[u8], charges: &[u32]) -> Result<(), Answer>
    requires { Sound image.now × Charged image.now charges.now }
    ensures { result ≡ verdict (take 4 (piece_questions image.now)) }
{
    each_row(
        image,
        WINDOW_FITS,
        |window| window_fits(image, charges, window),
    )?;
    tell(WINDOW_CLEAR, first_clash(image, Occupant::Window))?;
    each_row(image, MASK_ALLOWS, |task| mask_allows(image, task))?;
    each_row(image, PIECE_FITS, |piece| piece_fits(image, piece))
}

// Questions 11 and 12, where these were passed.
fn ask_places(image: &[u8], charges: &[u32]) -> Result<(), Answer>
    requires { Sound image.now × (Passed (piece_questions image.now) 4 × Charged image.now charges.now) }
    ensures { result ≡ verdict (take 6 (piece_questions image.now)) }
{
    tell(PIECE_INSIDE, first_outside(image, charges))?;
    tell(PIECE_CLEAR, first_clash(image, Occupant::Piece))
}

// Question 13, where all before it were passed. The times of all jobs are gathered for it.
fn ask_budgets(image: &[u8], times: &mut [u32]) -> Result<(), Answer>
    requires { Sound image.now × (Passed (piece_questions image.now) 6 × (length times.old ≡ times_words)) }
    ensures told { result ≡ verdict (piece_questions image.now) }
    ensures timed { IfOk result (λ _. Timed image.now times.new) }
{
    jobs::gather(image, times);
    tell(TASK_BUDGET, first_off_budget(image, times))
}

// Questions 7 to 13. Where all are answered yes, the times are those of the plan's jobs.
pub fn ask(image: &[u8], times: &mut [u32]) -> Result<(), Answer>
    requires { Sound image.now × (length times.old ≡ times_words) }
    ensures told { result ≡ verdict (piece_questions image.now) }
    ensures timed { IfOk result (λ _. Timed image.now times.new) }
{
    let mut charges = [0u32; charges::WORDS];
    charges::gather(image, &mut charges);
    ask_fits(image, &charges)?;
    ask_places(image, &charges)?;
    ask_budgets(image, times)
}

// Questions 7 to 10: all that asks of windows, masks and pieces by themselves.
pub fn ask_fitting(image: &[u8]) -> Result<(), Answer>
    requires { Sound image.now }
    ensures { result ≡ verdict (take 4 (piece_questions image.now)) }
{
    let mut charges = [0u32; charges::WORDS];
    charges::gather(image, &mut charges);
    ask_fits(image, &charges)
}
