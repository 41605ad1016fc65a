// Gate lists (paper 02, request 13; questions 25 and 42): the check, then the link, then its list into lent words, or as little-endian words into lent
// bytes. The list is found first, into words of our own: whether those lent suffice is known only then.
#![tactic(auto)]

ghost use Rattle.std.specs.Prelude.{◌≡◌, ◌*◌, ◌≤◌, length, take};
ghost use Rattle.std.proofs.lemmas.List.Edits.{sets};
ghost use Rattle.gates.specs.Gates.{gate_answer, gated, gate_bytes};
ghost use Rattle.plan.specs.Boundary.{words_of};
ghost use Rattle.writing.specs.Stored.{stored};
ghost use Rattle.opening.specs.Listings.{list_words};
ghost use Rattle.gating.specs.Listed.{Listed};

use opening::{WORDS, find};
use plan::{Answer, Table, refused};
use tables::rows_of;
use words::put_word;

// Asks the check's questions, then 25 of the link, and 42 of so many lent words; finds the list. Gives how many gates there are.
fn list_gates(image: &[u8], link: u32, list: &mut [u32], lent: usize) -> Result<u32, Answer>
    requires { length list.old ≡ list_words }
    ensures { Listed image.now link lent list.old result list.new }
{
    questions::ask(image)?;
    if rows_of(image, Table::Links) <= link {
        return Err(refused(25));
    }
    let count = find(image, link, list);
    if lent < 1 + 2 * count as usize {
        return Err(refused(42));
    }
    Ok(count)
}

// Copies so many words.
fn copy(list: &[u32], many: usize, words: &mut [u32])
    requires { (many ≤ length list.now) × (many ≤ length words.old) }
    ensures { words.new ≡ sets words.old 0 (take many list.now) }
{
    words[..many].copy_from_slice(&list[..many]);
}

// The same into bytes.
fn copy_bytes(list: &[u32], many: usize, bytes: &mut [u8])
    requires { (many ≤ length list.now) × (4 * many ≤ length bytes.old) }
    ensures { bytes.new ≡ stored bytes.old 0 (take many list.now) }
{
    for i in 0..many {
        put_word(bytes, 4 * i, list[i]);
    }
}

// Writes a link's gate list into lent words: how many gates there are, then octet and interval of each. Later words, and all words after a refusal, stay as
// they are.
pub fn fill(image: &[u8], link: u32, words: &mut [u32]) -> Answer
    ensures { (result ≡ gate_answer image.now link words.old) × (words.new ≡ gated image.now link words.old) }
{
    let mut list = [0u32; WORDS];
    let lent = words.len();
    match list_gates(image, link, &mut list, lent) {
        Ok(count) => {
            copy(&list, 1 + 2 * count as usize, words);
            plan::accepted()
        }
        Err(no) => no,
    }
}

// The same into lent bytes, four to a word. A part of a word at the end does not count.
pub fn store(image: &[u8], link: u32, bytes: &mut [u8]) -> Answer
    ensures { (result ≡ gate_answer image.now link (words_of bytes.old)) × (bytes.new ≡ gate_bytes image.now link bytes.old) }
{
    let mut list = [0u32; WORDS];
    let lent = bytes.len() / 4;
    match list_gates(image, link, &mut list, lent) {
        Ok(count) => {
            copy_bytes(&list, 1 + 2 * count as usize, bytes);
            plan::accepted()
        }
        Err(no) => no,
    }
}
