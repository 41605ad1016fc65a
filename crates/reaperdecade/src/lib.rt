// The C boundary (paper 01, "What the product covers"): what the load tool calls, over numbers and bytes, and what a planner's tool calls, over
// words. Any bytes and words are taken; include/reaperdecade.h declares the functions for C.
#![tactic(auto)]

ghost use Rattle.std.specs.Prelude.{◌≡◌, ◌+◌, ◌*◌, ◌^◌};
ghost use Rattle.plan.specs.Boundary.{check_number, build_number, build_bytes, start_number, start_bytes, step_number, step_bytes, step_all_number, step_all_bytes};
ghost use Rattle.writing.specs.AllTables.{all_number, all_bytes};
ghost use Rattle.arrivals.specs.Arrivals.{arrival_number, arrival_bytes};
ghost use Rattle.gates.specs.Gates.{gate_number, gate_bytes};
ghost use Rattle.modeblock.specs.Blocks.{modes_fresh_number, modes_fresh_block, modes_hold_number, modes_hold_words, modes_hold_block, modes_start_number, modes_start_states, modes_start_block, modes_request_number, modes_request_block, modes_step_number, modes_step_states, modes_step_block};
ghost use Rattle.texts.specs.Wording.{line_length, line_bytes};
ghost use Rattle.timerblock.specs.Blocks.{block_number, started_bytes, reading_bytes, register_number, writing_number, written_bytes, interrupt_word};
ghost use Rattle.std.proofs.Math.ListN as ListN;
ghost use Rattle.joins.specs.Joins.{join_number, join_length, join_bytes};
ghost use Rattle.drafts.specs.Edits.{piece_of, make_number, make_words, add_number, add_words, remove_number, remove_words, move_number, move_words, job_number, job_value, core_number, core_value, place_number, place_leaves};

use joining::join;
use packing::packed;
use plan::{LaneState, Piece};
use readings::Total;
use records::{move_record, number_of, step_all};
use states::{STATE, put_state};

// Starts a lane: tick 0 of a cycle, with its table at a first word. Gives 0, or 27 for a state of another length than 28,
// which stays as it was.
#[unsafe(no_mangle)]
pub extern "C" fn rd_start(cycle: u64, first: u32, state: &mut [u8]) -> u32
    ensures { (result ≡ start_number state.old) × (state.new ≡ start_bytes cycle first state.old) }
{
    if state.len() == STATE {
        put_state(state, LaneState::start(cycle, first));
        return 0;
    }
    27
}

// Steps one lane. Gives 0, or the number of a refusal, 27 or 28, which changes no byte.
#[unsafe(no_mangle)]
pub extern "C" fn rd_step(words: &[u8], state: &mut [u8]) -> u32
    ensures { (result ≡ step_number words.now state.old) × (state.new ≡ step_bytes words.now state.old) }
{
    if state.len() != STATE {
        return 27;
    }
    let refusal = number_of(words, state);
    if refusal != 0 {
        return refusal;
    }
    move_record(words, state);
    0
}

// Steps all lanes: every record is tried, and then every record moves. Gives 0, also for no records, or the number of the
// lowest record that is refused, and then no byte changes.
#[unsafe(no_mangle)]
pub extern "C" fn rd_step_all(words: &[u8], states: &mut [u8]) -> u32
    ensures { (result ≡ step_all_number words.now states.old) × (states.new ≡ step_all_bytes words.now states.old) }
{
    step_all(words, states)
}

// Makes a block of modes fresh: no place holds a plan, nothing runs. Gives 0, or 27 for a block of another length than 172, which stays as it was.
#[unsafe(no_mangle)]
pub extern "C" fn rd_modes_fresh(modes: &mut [u8]) -> u32
    ensures { (result ≡ modes_fresh_number modes.old) × (modes.new ≡ modes_fresh_block modes.old) }
{
    modeblock::fresh(modes)
}

// Holds a plan at a place: asks the check's questions, then 43 and 26, and builds the tables of all its lanes behind those of the plans held so
// far; the run ends. A refusal changes no byte.
#[unsafe(no_mangle)]
pub extern "C" fn rd_modes_hold(image: &[u8], place: u32, words: &mut [u8], modes: &mut [u8]) -> u64
    ensures value { result ≡ modes_hold_number modes.old image.now place words.old }
    ensures words_after { words.new ≡ modes_hold_words modes.old image.now place words.old }
    ensures modes_after { modes.new ≡ modes_hold_block modes.old image.now place words.old }
{
    packed(modeblock::hold(image, place, words, modes))
}

// Starts the plan of a place on all its lanes: 43, then 27. Gives 0, or the number of a refusal, which changes no byte.
#[unsafe(no_mangle)]
pub extern "C" fn rd_modes_start(
    place: u32,
    cycle: u64,
    words: &[u8],
    states: &mut [u8],
    modes: &mut [u8],
) -> u32
    ensures value { result ≡ modes_start_number modes.old place cycle words.now states.old }
    ensures states_after { states.new ≡ modes_start_states modes.old place cycle words.now states.old }
    ensures modes_after { modes.new ≡ modes_start_block modes.old place cycle words.now states.old }
{
    modeblock::start(place, cycle, words, states, modes)
}

// Requests the plan of a place: 43, then 44. Gives 0, or the number of a refusal, which leaves an earlier request standing.
#[unsafe(no_mangle)]
pub extern "C" fn rd_modes_request(place: u32, modes: &mut [u8]) -> u32
    ensures { (result ≡ modes_request_number modes.old place) × (modes.new ≡ modes_request_block modes.old place) }
{
    modeblock::request(place, modes)
}

// Steps all lanes of the running plan; where tick 0 is next and a plan is requested, at that plan's tables. Gives 0, or the number of a refusal,
// 27 or 28, which changes no byte.
#[unsafe(no_mangle)]
pub extern "C" fn rd_modes_step(words: &[u8], states: &mut [u8], modes: &mut [u8]) -> u32
    ensures value { result ≡ modes_step_number modes.old words.now states.old }
    ensures states_after { states.new ≡ modes_step_states modes.old words.now states.old }
    ensures modes_after { modes.new ≡ modes_step_block modes.old words.now states.old }
{
    modeblock::step(words, states, modes)
}

// Makes a tick timer's block fresh: 0 everywhere. Gives 0, or 38 for a block of another length than 16, which stays as it was.
#[unsafe(no_mangle)]
pub extern "C" fn rd_timer_start(block: &mut [u8]) -> u32
    ensures { (result ≡ block_number block.old) × (block.new ≡ started_bytes block.old) }
{
    timerblock::start(block)
}

// A reading of the tick timer: brings in the counter's value. Gives 0, or 38 as a start does.
#[unsafe(no_mangle)]
pub extern "C" fn rd_timer_reading(block: &mut [u8], count: u32) -> u32
    ensures { (result ≡ block_number block.old) × (block.new ≡ reading_bytes block.old count) }
{
    timerblock::reading(block, count)
}

// Reads a register of the tick timer: 38. Gives number + 2^32 × value; the value is 0 in a refusal.
#[unsafe(no_mangle)]
pub extern "C" fn rd_timer_read(block: &[u8], address: u32) -> u64
    ensures { result ≡ register_number block.now address }
{
    timerblock::read(block, address)
}

// Writes a register of the tick timer: 38, then 39. Gives 0, or the number of a refusal, which changes no byte.
#[unsafe(no_mangle)]
pub extern "C" fn rd_timer_write(block: &mut [u8], address: u32, value: u32) -> u32
    ensures { (result ≡ writing_number block.old address) × (block.new ≡ written_bytes block.old address value) }
{
    timerblock::write(block, address, value)
}

// Gives 1 while the tick timer's interrupt is raised, else 0.
#[unsafe(no_mangle)]
pub extern "C" fn rd_timer_interrupt(block: &[u8]) -> u32
    ensures { result ≡ interrupt_word block.now }
{
    timerblock::interrupt(block)
}

// Checks an image.
#[unsafe(no_mangle)]
pub extern "C" fn rd_check(image: &[u8]) -> u64
    ensures { result ≡ check_number image.now }
{
    packed(questions::check(image))
}

// Builds a lane's table: asks the check's questions, then 25 and 26, and writes H, n and the entries as words. Later bytes, and all bytes
// after a refusal, stay as they are.
#[unsafe(no_mangle)]
pub extern "C" fn rd_build(image: &[u8], lane: u32, words: &mut [u8]) -> u64
    ensures { (result ≡ build_number image.now lane words.old) × (words.new ≡ build_bytes image.now lane words.old) }
{
    packed(storing::build(image, lane, words))
}

// Builds the tables of all lanes one after another, lanes rising: asks the check's questions once, then 26 of all words together. Later
// bytes, and all bytes after a refusal, stay as they are.
#[unsafe(no_mangle)]
pub extern "C" fn rd_build_all(image: &[u8], words: &mut [u8]) -> u64
    ensures { (result ≡ all_number image.now words.old) × (words.new ≡ all_bytes image.now words.old) }
{
    packed(storing::build_all(image, words))
}

// Gives a frame's arrivals by its sending node's clock: asks the check's questions, then 5 of the row and 26, and writes two words, the
// earliest and the latest tick. Later bytes, and all bytes after a refusal, stay as they are.
#[unsafe(no_mangle)]
pub extern "C" fn rd_arrivals(image: &[u8], frame: u32, ticks: &mut [u8]) -> u64
    ensures { (result ≡ arrival_number image.now frame ticks.old) × (ticks.new ≡ arrival_bytes image.now frame ticks.old) }
{
    packed(arriving::store(image, frame, ticks))
}

// Writes a link's gate list: asks the check's questions, then 25 of the link and 42, and writes how many gates there are, then octet and interval of
// each, as words. Later bytes, and all bytes after a refusal, stay as they are.
#[unsafe(no_mangle)]
pub extern "C" fn rd_gates(image: &[u8], link: u32, words: &mut [u8]) -> u64
    ensures { (result ≡ gate_number image.now link words.old) × (words.new ≡ gate_bytes image.now link words.old) }
{
    packed(gating::store(image, link, words))
}

// Writes an answer in words, without a newline. Gives its length, or 0 where the bytes are fewer, and then no byte changes. Later bytes stay
// as they are.
#[unsafe(no_mangle)]
pub extern "C" fn rd_line(number: u32, table: u32, row: u32, line: &mut [u8]) -> u32
    ensures { (result ≡ line_length (record { number = number; table = table; row = row }) line.old) × (line.new ≡ line_bytes (record { number = number; table = table; row = row }) line.old) }
{
    wording::write_line(number, table, row, line)
}

// Joins a second plan to a first, which share their first `shared` tasks: asks the first's questions, the second's, 35 to 37, and then writes the joined
// image and gives the check's answer about it, which may be a refusal. The length is that of the joined image, or 0 where none is written, and
// then no byte changes. Later bytes stay as they are.
#[unsafe(no_mangle)]
pub extern "C" fn rd_join(
    first: &[u8],
    second: &[u8],
    shared: u32,
    joined: &mut [u8],
    length: &mut u32,
) -> u64
    ensures value { result ≡ join_number first.now second.now shared (ListN.length joined.old) }
    ensures joined_after { joined.new ≡ join_bytes first.now second.now shared joined.old }
    ensures length_after { length.new ≡ join_length first.now second.now shared (ListN.length joined.old) }
{
    let result = join(first, second, shared, joined);
    *length = result.length;
    let answer = result.answer;
    packed(answer)
}

// Makes a draft of an image in lent words: 1 to 5, 32, 6 to 10, then 34. Gives 0, or the number of a refusal, which changes no word; no word
// past the first 32,768 changes.
#[unsafe(no_mangle)]
pub extern "C" fn rd_draft_make(image: &[u8], words: &mut [u32]) -> u32
    ensures { (result ≡ make_number image.now words.old) × (words.new ≡ make_words image.now words.old) }
{
    making::make(image, words)
}

// Adds a piece at a place: 33, 5, 10, then 34. A refusal changes no word.
#[unsafe(no_mangle)]
pub extern "C" fn rd_draft_add(
    words: &mut [u32],
    place: u32,
    task: u32,
    job: u32,
    start: u32,
    ticks: u32,
) -> u32
    ensures { (result ≡ add_number words.old place (piece_of task job start ticks)) × (words.new ≡ add_words words.old place (piece_of task job start ticks)) }
{
    let piece = Piece {
        task: task,
        job: job,
        start: start,
        length: ticks,
    };
    edits::add_piece(words, place, piece)
}

// Removes the piece at a place: 33. A refusal changes no word.
#[unsafe(no_mangle)]
pub extern "C" fn rd_draft_remove(words: &mut [u32], place: u32) -> u32
    ensures { (result ≡ remove_number words.old place) × (words.new ≡ remove_words words.old place) }
{
    edits::remove_piece(words, place)
}

// Moves the piece at a place to another start: 33, then 10. A refusal changes no word.
#[unsafe(no_mangle)]
pub extern "C" fn rd_draft_move(words: &mut [u32], place: u32, start: u32) -> u32
    ensures { (result ≡ move_number words.old place start) × (words.new ≡ move_words words.old place start) }
{
    edits::move_piece(words, place, start)
}

// The number of a reading and the total read, in one number.
fn total_in(total: Total) -> u64
    ensures { result ≡ total.number + 2 ^ 32 * total.value }
{
    total.number as u64 + 4294967296 * total.value as u64
}

// The piece total of a job: 33, 5, then 10; as number + 2^32 × total.
#[unsafe(no_mangle)]
pub extern "C" fn rd_draft_job(words: &[u32], task: u32, job: u32) -> u64
    ensures { result ≡ job_number words.now task job + 2 ^ 32 * job_value words.now task job }
{
    total_in(readings::read_job(words, task, job))
}

// The total of a core's piece ticks: 33, then 5; as number + 2^32 × total.
#[unsafe(no_mangle)]
pub extern "C" fn rd_draft_core(words: &[u32], core: u32) -> u64
    ensures { result ≡ core_number words.now core + 2 ^ 32 * core_value words.now core }
{
    total_in(readings::read_core(words, core))
}

// The four words of the piece at a place: 33, then 34. No other word changes.
#[unsafe(no_mangle)]
pub extern "C" fn rd_draft_place(words: &[u32], place: u32, piece: &mut [u32]) -> u32
    ensures { (result ≡ place_number words.now place piece.old) × (piece.new ≡ place_leaves words.now place piece.old) }
{
    readings::read_place(words, place, piece)
}
