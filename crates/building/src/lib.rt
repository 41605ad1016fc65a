// Table building (paper 01, "Dispatch"; questions 25 and 26): the check, then the lane, then its table into lent words.
#![tactic(auto)]

ghost use Rattle.lanes.specs.Words.{Filled};

use lanes::lane_count;
use plan::{Answer, refused};

// Builds a lane's table: asks the check's questions, then 25 and 26, and writes H, n and the entries from word 0 on. Later words, and all words
// after a refusal, stay as they are.
pub fn build(image: &[u8], lane: u32, words: &mut [u32]) -> Answer
    ensures { Filled image.now lane words.old result words.new }
{
    if let Err(no) = questions::ask(image) {
        return no;
    }
    if lane_count(image) <= lane {
        return refused(25);
    }
    let mut charges = [0u32; lanes::CHARGES];
    let mut index = [0u32; lanes::INDEX];
    lanes::gather(image, &mut charges, &mut index);
    lanes::fill(image, &charges, &index, lane, words)
}
