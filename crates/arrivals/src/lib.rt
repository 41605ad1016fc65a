// When a frame arrives, by its sending node's clock (paper 02, request 7): the definitions (specs/), the theorems over them (proofs/), and what
// the library gives.
#![tactic(auto)]

use plan::Answer;

// An answer, and where it is an acceptance the earliest and the latest tick; 0 and 0 with a refusal.
#[derive(Clone, Copy)]
pub struct Arrival {
    pub answer: Answer,
    pub earliest: u32,
    pub latest: u32,
}
