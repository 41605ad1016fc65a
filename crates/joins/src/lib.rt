// One plan for two modes (paper 02, request 10): the definitions (specs/), the theorems over them (proofs/), and what the library gives.
#![tactic(auto)]

use plan::Answer;

// An answer, and the length of the joined image; 0 where none is written.
#[derive(Clone, Copy)]
pub struct Joined {
    pub answer: Answer,
    pub length: u32,
}
