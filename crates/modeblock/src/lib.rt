// Modes in lent bytes (paper 02, request 14): a block of 172 bytes that keeps the running and the requested place, how many words tables take so
// far, and what is kept of the plan at each of eight places; over it, holding a plan, a start, a request and a step of all lanes. A block of
// another length is refused with 27 and stays as it was.
#![tactic(auto)]

ghost use Rattle.std.specs.Prelude.{◌≡◌, ◌&&◌, cond, ◌∷◌, [], ◌+◌, ◌*◌, ◌≤◌, ◌<◌, length, eqb, ltb, Some, None};
ghost use Rattle.plan.specs.Questions.{answer_of, accepted};
ghost use Rattle.plan.specs.Image.{word_at};
ghost use Rattle.plan.specs.Boundary.{words_of};
ghost use Rattle.writing.specs.Stored.{stored};
ghost use Rattle.writing.specs.AllTables.{all_tables};
ghost use Rattle.modes.specs.Modes.{places, held_of, plan, held, alike, suffice};
ghost use Rattle.modeblock.specs.Blocks.{held_words, plans_of, modes_fresh_number, modes_fresh_block, modes_hold_answer, modes_hold_words, modes_hold_block, has_room, modes_start_number, modes_start_states, modes_start_block, modes_request_number, modes_request_block, runs, modes_step_number, modes_step_states, modes_step_block};

use modes::{HeldPlan, alike, is_plan, lane_count};
use plan::{Answer, Table, refused};
use records::step_all;
use states::STATE;
use tables::{cycle_ticks, rows_of, word};
use turns::{start_all, turn_all};
use words::put_word;
use writing::{words_of_all, write_all};

// How many bytes a block takes.
const BLOCK: usize = 172;

// Places are below it; it stands for none.
const PLACES: u32 = 8;

// What a place holds.
fn plan_at(block: &[u8], place: u32) -> HeldPlan
    requires { (length block.now ≡ 172) × (place < places) }
    ensures { result ≡ plan (plans_of block.now) place }
{
    let at = 12 + 20 * place as usize;
    HeldPlan {
        ticks: word(block, at),
        cores: word(block, at + 4),
        links: word(block, at + 8),
        first: word(block, at + 12),
        end: word(block, at + 16),
    }
}

// 43: does a place hold a plan?
fn is_held(block: &[u8], place: u32) -> bool
    requires { length block.now ≡ 172 }
    ensures { result ≡ held (plans_of block.now) place }
{
    if place < PLACES {
        return is_plan(plan_at(block, place));
    }
    false
}

// Writes the running and the requested place.
fn put_places(block: &mut [u8], running: u32, wanted: u32)
    requires { length block.old ≡ 172 }
    ensures { block.new ≡ stored block.old 0 (running ∷ wanted ∷ []) }
{
    put_word(block, 0, running);
    put_word(block, 4, wanted);
}

// Makes a block fresh: no place holds a plan, nothing runs. Gives 0 or 27.
pub fn fresh(block: &mut [u8]) -> u32
    ensures { (result ≡ modes_fresh_number block.old) × (block.new ≡ modes_fresh_block block.old) }
{
    if block.len() != BLOCK {
        return 27;
    }
    block.fill(0);
    put_places(block, PLACES, PLACES);
    0
}

// Writes what is kept of the plan at a place.
fn put_plan(block: &mut [u8], place: u32, plan: HeldPlan)
    requires { (length block.old ≡ 172) × (place < places) }
    ensures { block.new ≡ stored block.old (12 + 20 * place) (held_words plan) }
{
    let at = 12 + 20 * place as usize;
    put_word(block, at, plan.ticks);
    put_word(block, at + 4, plan.cores);
    put_word(block, at + 8, plan.links);
    put_word(block, at + 12, plan.first);
    put_word(block, at + 16, plan.end);
}

// What is kept of an accepted plan whose tables lie from one word to before another.
fn held_of(image: &[u8], first: u32, end: u32) -> HeldPlan
    requires { (answer_of image.now ≡ accepted) × (end ≡ first + length (all_tables image.now)) }
    ensures { result ≡ held_of image.now first }
{
    HeldPlan {
        ticks: cycle_ticks(image),
        cores: rows_of(image, Table::Cores),
        links: rows_of(image, Table::Links),
        first: first,
        end: end,
    }
}

// The tables of an accepted plan, behind the words taken so far. Gives the word after them; none where the words that are left do not suffice,
// and then no byte changes.
fn lay(image: &[u8], used: u32, words: &mut [u8]) -> Option<u32>
    requires { answer_of image.now ≡ accepted }
    ensures value { result ≡ cond (suffice (words_of words.old) (used + length (all_tables image.now))) (Some (used + length (all_tables image.now))) None }
    ensures words_after { words.new ≡ cond (suffice (words_of words.old) (used + length (all_tables image.now))) (stored words.old (4 * used) (all_tables image.now)) words.old }
{
    let mut charges = [0u32; lanes::CHARGES];
    let mut index = [0u32; lanes::INDEX];
    lanes::gather(image, &mut charges, &mut index);
    let end = used as usize + words_of_all(image, &charges, &index);
    let all = words.len();
    if all / 4 < end {
        return None;
    }
    if end >= 4294967296 {
        return None;
    }
    let at = 4 * used as usize;
    write_all(image, &charges, &index, &mut words[at..all]);
    Some(end as u32)
}

// Holds a plan at a place: the image's questions, 43, then 26. Its tables are written behind the words taken so far, and the run ends. A refusal
// changes no byte.
pub fn hold(image: &[u8], place: u32, words: &mut [u8], block: &mut [u8]) -> Answer
    ensures value { result ≡ modes_hold_answer block.old image.now place words.old }
    ensures words_after { words.new ≡ modes_hold_words block.old image.now place words.old }
    ensures block_after { block.new ≡ modes_hold_block block.old image.now place words.old }
{
    if block.len() != BLOCK {
        return refused(27);
    }
    if let Err(no) = questions::ask(image) {
        return no;
    }
    if place >= PLACES {
        return refused(43);
    }
    let used = word(block, 8);
    let Some(end) = lay(image, used, words) else {
        return refused(26);
    };
    put_places(block, PLACES, PLACES);
    put_word(block, 8, end);
    put_plan(block, place, held_of(image, used, end));
    plan::accepted()
}

// Has a row one record for each lane of a plan, and do the words not end before its tables do?
fn has_room(plan: HeldPlan, words: &[u8], states: &[u8]) -> bool
    ensures { result ≡ has_room plan words.now states.now }
{
    let row = states.len() == STATE * lane_count(plan);
    let inside = plan.end as usize <= words.len() / 4;
    row & inside
}

// Starts the plan of a place on all its lanes: 43, then 27. Gives 0, or the number of a refusal, which changes no byte.
pub fn start(place: u32, cycle: u64, words: &[u8], states: &mut [u8], block: &mut [u8]) -> u32
    ensures value { result ≡ modes_start_number block.old place cycle words.now states.old }
    ensures states_after { states.new ≡ modes_start_states block.old place cycle words.now states.old }
    ensures block_after { block.new ≡ modes_start_block block.old place cycle words.now states.old }
{
    if block.len() != BLOCK {
        return 27;
    }
    if !is_held(block, place) {
        return 43;
    }
    let plan = plan_at(block, place);
    if !has_room(plan, words, states) {
        return 27;
    }
    start_all(words, plan.first, cycle, states);
    put_places(block, place, PLACES);
    0
}

// 44: does a plan run that is like that of a place?
fn runs_like(block: &[u8], place: u32) -> bool
    requires { (length block.now ≡ 172) × (place < places) }
    ensures { result ≡ held (plans_of block.now) (word_at block.now 0) && alike (plan (plans_of block.now) (word_at block.now 0)) (plan (plans_of block.now) place) }
{
    let running = word(block, 0);
    if !is_held(block, running) {
        return false;
    }
    alike(plan_at(block, running), plan_at(block, place))
}

// Requests the plan of a place: 43, then 44. Gives 0, or the number of a refusal, which leaves an earlier request standing.
pub fn request(place: u32, block: &mut [u8]) -> u32
    ensures { (result ≡ modes_request_number block.old place) × (block.new ≡ modes_request_block block.old place) }
{
    if block.len() != BLOCK {
        return 27;
    }
    if !is_held(block, place) {
        return 43;
    }
    if !runs_like(block, place) {
        return 44;
    }
    put_word(block, 4, place);
    0
}

// Does a plan run, and has the row one record for each of its lanes?
fn is_running(block: &[u8], states: &[u8]) -> bool
    requires { length block.now ≡ 172 }
    ensures { result ≡ runs block.now states.now }
{
    let running = word(block, 0);
    if !is_held(block, running) {
        return false;
    }
    states.len() == STATE * lane_count(plan_at(block, running))
}

// Is a plan requested, and tick 0 next?
fn is_due(wanted: u32, states: &[u8]) -> bool
    requires { 28 ≤ length states.now }
    ensures { result ≡ ltb wanted places && eqb (word_at states.now 8) 0 }
{
    let tick = word(states, 8);
    let requested = wanted < PLACES;
    let at_start = tick == 0;
    requested & at_start
}

// Steps all lanes; where a request is due, at the tables of the plan requested. Gives 0, or the number of a refusal, which changes no byte.
pub fn step(words: &[u8], states: &mut [u8], block: &mut [u8]) -> u32
    ensures value { result ≡ modes_step_number block.old words.now states.old }
    ensures states_after { states.new ≡ modes_step_states block.old words.now states.old }
    ensures block_after { block.new ≡ modes_step_block block.old words.now states.old }
{
    if block.len() != BLOCK {
        return 27;
    }
    if !is_running(block, states) {
        return 27;
    }
    let wanted = word(block, 4);
    if !is_due(wanted, states) {
        return step_all(words, states);
    }
    let first = plan_at(block, wanted).first;
    let number = turn_all(words, first, states);
    if number != 0 {
        return number;
    }
    put_places(block, wanted, PLACES);
    0
}
