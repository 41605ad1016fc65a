// One plan for two modes (paper 02, request 10): both inputs and 35 to 37 are asked, then the joined image is written, and it is checked.
#![tactic(auto)]

ghost use Rattle.std.specs.Prelude.{◌≡◌, length};
ghost use Rattle.joins.specs.Joins.{join_answer, join_length, join_bytes};

use agreeing::{plans_agree, tasks_shared};
use composing::write;
use joins::Joined;
use plan::Answer;
use questions::{ask, check};

// A refusal: no image is written.
fn refused(answer: Answer) -> Joined
    ensures { result ≡ record { answer = answer; length = 0 } }
{
    Joined { answer, length: 0 }
}

// A no to one of 35 to 37.
fn refused_by(number: u32) -> Joined
    ensures { result ≡ record { answer = record { number = number; table = 0; row = 0 }; length = 0 } }
{
    refused(plan::refused(number))
}

// Joins the second plan to the first; their first `shared` tasks are the same. Asks both inputs, the first before the second, then 35 to 37, and
// writes the joined image from byte 0 on; the answer is then the check's about that image. Later bytes, and all bytes after a refusal by the
// inputs or by 35 to 37, stay as they are.
pub fn join(first: &[u8], second: &[u8], shared: u32, joined: &mut [u8]) -> Joined
    ensures value { result ≡ record { answer = join_answer first.now second.now shared (length joined.old); length = join_length first.now second.now shared (length joined.old) } }
    ensures joined_after { joined.new ≡ join_bytes first.now second.now shared joined.old }
{
    if let Err(own) = ask(first) {
        return refused(own);
    }
    if let Err(other) = ask(second) {
        return refused(other);
    }
    if !plans_agree(first, second) {
        return refused_by(35);
    }
    if !tasks_shared(first, second, shared) {
        return refused_by(36);
    }
    let Some(length) = write(first, second, shared, joined) else {
        return refused_by(37);
    };
    let end = length as usize;
    let image = &joined[0..end];
    Joined {
        answer: check(image),
        length,
    }
}
