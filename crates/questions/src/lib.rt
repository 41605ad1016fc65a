// The check (paper 01, "The questions"): every question over all its rows before the next.
#![tactic(auto)]

ghost use Rattle.std.specs.Prelude.{◌≡◌, ◌+◌, ◌++◌};
ghost use Rattle.plan.specs.Questions.{plan_questions, piece_questions, stream_questions, buffer_questions, chain_questions, questions, answer_of};
ghost use Rattle.plan.specs.Held.{Sound, Queued, Passed};
ghost use Rattle.asking.specs.Asking.{verdict};
ghost use Rattle.jobs.specs.Times.{Timed};

use plan::{Answer, accepted};

// Questions 14 to 21, 41, 22 to 24 and 29 to 31: with the times of all jobs at hand.
fn ask_messages(image: &[u8], times: &[u32]) -> Result<(), Answer>
    requires { Sound image.now × (Queued image.now × (Passed (piece_questions image.now) 7 × Timed image.now times.now)) }
    ensures { result ≡ verdict (stream_questions image.now ++ (buffer_questions image.now ++ chain_questions image.now)) }
{
    streams::ask(image, times)?;
    buffers::ask(image, times)?;
    chains::ask(image, times)
}

// Questions 7 to 21, 41, 22 to 24 and 29 to 31.
fn ask_plan(image: &[u8]) -> Result<(), Answer>
    requires { Sound image.now × Queued image.now }
    ensures { result ≡ verdict (plan_questions image.now) }
{
    let mut times = [0u32; jobs::WORDS];
    windows::ask(image, &mut times)?;
    ask_messages(image, &times)
}

// All questions: nothing where all are answered yes, else the answer to the first that is answered no.
pub fn ask(image: &[u8]) -> Result<(), Answer>
    ensures { result ≡ verdict (questions image.now) }
{
    layout::ask_image(image)?;
    rows::ask(image)?;
    rows::ask_queues(image)?;
    ask_plan(image)
}

// The first question answered no, with its table and row; 0 0 0 where all are answered yes.
pub fn check(image: &[u8]) -> Answer
    ensures { result ≡ answer_of image.now }
{
    match ask(image) {
        Ok(()) => accepted(),
        Err(no) => no,
    }
}
