// Table building into lent bytes (paper 01, "What the product covers" and "Dispatch"; questions 25 and 26): the check, then the lane, then its
// table as little-endian words; or the tables of all lanes.
#![tactic(auto)]

ghost use Rattle.writing.specs.Stored.{Built};
ghost use Rattle.writing.specs.AllTables.{BuiltAll};

use lanes::lane_count;
use plan::{Answer, refused};
use writing::{fill, fill_all};

// Builds a lane's table: asks the check's questions, then 25 and 26, and writes H, n and the entries from byte 0 on. Later bytes, and all bytes
// after a refusal, stay as they are.
pub fn build(image: &[u8], lane: u32, bytes: &mut [u8]) -> Answer
    ensures { Built image.now lane bytes.old result bytes.new }
{
    if let Err(no) = questions::ask(image) {
        return no;
    }
    if lane_count(image) <= lane {
        return refused(25);
    }
    let mut charges = [0u32; lanes::CHARGES];
    let mut index = [0u32; lanes::INDEX];
    lanes::gather(image, &mut charges, &mut index);
    fill(image, &charges, &index, lane, bytes)
}

// Builds the tables of all lanes, lanes rising: asks the check's questions once, then 26 of all words together. Later bytes, and all bytes
// after a refusal, stay as they are.
pub fn build_all(image: &[u8], bytes: &mut [u8]) -> Answer
    ensures { BuiltAll image.now bytes.old result bytes.new }
{
    if let Err(refusal) = questions::ask(image) {
        return refusal;
    }
    let mut charges = [0u32; lanes::CHARGES];
    let mut index = [0u32; lanes::INDEX];
    lanes::gather(image, &mut charges, &mut index);
    fill_all(image, &charges, &index, bytes)
}
