// Making a draft of an image (paper 02, request 6).
#![tactic(auto)]

ghost use Rattle.std.specs.Prelude.{◌≡◌, ◌++◌, take};
ghost use Rattle.plan.specs.Questions.{image_questions, row_questions, piece_questions, answer_to};
ghost use Rattle.asking.specs.Asking.{verdict};
ghost use Rattle.drafts.specs.Edits.{make_number, make_words};

use draftwords::WORDS;
use plan::Answer;

// 1 to 5, 32 and 6 to 10, in this order.
fn ask(image: &[u8]) -> Result<(), Answer>
    ensures { result ≡ verdict (image_questions image.now ++ (row_questions image.now ++ take 4 (piece_questions image.now))) }
{
    layout::ask_image(image)?;
    rows::ask(image)?;
    windows::ask_fitting(image)
}

// The number of the first of these that is answered no, or 0.
fn asked(image: &[u8]) -> u32
    ensures { result ≡ (answer_to (image_questions image.now ++ (row_questions image.now ++ take 4 (piece_questions image.now)))).number }
{
    match ask(image) {
        Ok(()) => 0,
        Err(no) => no.number,
    }
}

// Makes a draft: these questions, then 34. After a refusal no word has changed.
pub fn make(image: &[u8], words: &mut [u32]) -> u32
    ensures { (result ≡ make_number image.now words.old) × (words.new ≡ make_words image.now words.old) }
{
    let number = asked(image);
    if number != 0 {
        return number;
    }
    if words.len() < WORDS {
        return 34;
    }
    copying::copy(image, words);
    ranking::sum_up(words);
    0
}
