// When a frame arrives, by its sending node's clock (paper 02, request 7): the check, then the row, then its earliest and its latest tick; as a
// value, and as two words in lent bytes.
#![tactic(auto)]

ghost use Rattle.std.specs.Prelude.{◌≡◌, ◌<◌};
ghost use Rattle.plan.specs.declared.Table.TheVariants.{Frames};
ghost use Rattle.plan.specs.Image.{rows};
ghost use Rattle.plan.specs.Questions.{answer_of, accepted};
ghost use Rattle.arrivals.specs.Arrivals.{refusal, arrivals_of, lent_answer, arrival_bytes};
ghost use Rattle.arriving.specs.Asked.{Asks};

use arrivals::Arrival;
use plan::{Answer, Table};
use tables::{frame_at, link_at, rows_of};
use terms::frame_end;
use words::put_word;

// A refusal.
fn refused(answer: Answer) -> Arrival
    ensures { result ≡ refusal answer }
{
    Arrival {
        answer: answer,
        earliest: 0,
        latest: 0,
    }
}

// The arrivals of a frame of an accepted plan: its end and its link's lowest delay, its end and its link's delay.
fn ticks_of(image: &[u8], frame: u32) -> Arrival
    requires { (answer_of image.now ≡ accepted) × (frame < rows image.now Frames) }
    ensures { result ≡ arrivals_of image.now frame }
{
    let link = link_at(image, frame_at(image, frame).link);
    let end = frame_end(image, frame) as u32;
    Arrival {
        answer: plan::accepted(),
        earliest: end + link.lowest,
        latest: end + link.delay,
    }
}

// Asks the check's questions, then 5 of the row.
fn ask(image: &[u8], frame: u32) -> Result<(), Answer>
    ensures { Asks image.now frame result }
{
    questions::ask(image)?;
    if rows_of(image, Table::Frames) <= frame {
        return Err(Answer {
            number: 5,
            table: 8,
            row: frame,
        });
    }
    Ok(())
}

// A frame's arrivals. Asks the check's questions, then 5 of the row.
pub fn arrivals(image: &[u8], frame: u32) -> Arrival
    ensures { result ≡ arrivals_of image.now frame }
{
    match ask(image, frame) {
        Ok(()) => ticks_of(image, frame),
        Err(no) => refused(no),
    }
}

// The same into lent bytes, as two words, the earliest tick and the latest: then 26, are there two words? Later bytes, and all bytes after a
// refusal, stay as they are.
pub fn store(image: &[u8], frame: u32, bytes: &mut [u8]) -> Answer
    ensures { (result ≡ lent_answer image.now frame bytes.old) × (bytes.new ≡ arrival_bytes image.now frame bytes.old) }
{
    if let Err(no) = ask(image, frame) {
        return no;
    }
    if bytes.len() / 4 < 2 {
        return plan::refused(26);
    }
    let found = ticks_of(image, frame);
    put_word(bytes, 0, found.earliest);
    put_word(bytes, 4, found.latest);
    found.answer
}
