// The cases of paper 01 ("Cases"), run: each changes words of case A or of case B, which has a queue too (paper 02, request 13), and prints the answer of
// a check; then the step cases. What is printed is compared with the paper's lines, and the queue's, in the file stdout.
#![tactic(auto)]

ghost use Rattle.std.specs.Prelude.{◌<◌, length};

use plan::LaneState;

// Standard output.
const STDOUT: i32 = 1;

// Case A, as words.
const CASE_A: [u32; 39] = [
    0, 1, 2, 0, 0, 1, 10, 3, 8, 0, 0, 10, 0, 0, 2, 4, 10, 0, 0, 1, 12, 1, 16, 1, 36, 1, 48, 1, 64,
    0, 64, 0, 64, 0, 64, 0, 64, 0, 64,
];

// Case B, as words.
const CASE_B: [u32; 71] = [
    0, 1, 2, 1, 1, 2, 0, 1, 0, 3, 20, 3, 20, 1, 3, 20, 3, 20, 0, 0, 20, 1, 0, 20, 0, 0, 2, 4, 1, 0,
    10, 4, 0, 1, 1, 352, 0, 0, 1, 13, 1, 46, 0, 0, 0, 0, 0, 6, 20, 1, 0, 2, 24, 2, 32, 2, 72, 2,
    96, 2, 128, 1, 148, 1, 172, 1, 192, 0, 192, 0, 192,
];

// Changes to A: a word's place and its new value, twice; place 99 changes nothing. In the paper's order.
const A_CHANGES: [[u32; 4]; 15] = [
    [99, 0, 99, 0], // A: 0 0 0
    [8, 6, 99, 0], // D = 6: 0 0 0
    [8, 5, 99, 0], // D = 5: 10 5 0
    [15, 3, 99, 0], // piece length 3: 13 3 0
    [14, 1, 99, 0], // piece start 1: 11 5 0
    [5, 3, 99, 0], // mask 3: 0 0 0
    [5, 2, 99, 0], // mask 2: 9 3 0
    [5, 2, 14, 1], // mask 2, piece start 1: 9 3 0
    [11, 2, 99, 0], // window length 2: 7 4 0
    [11, 3, 99, 0], // window length 3: 11 5 0
    [6, 3, 99, 0], // T = 3: 6 3 0
    [9, 1, 99, 0], // window of VCPU 1: 5 4 0
    [13, 1, 99, 0], // job 1: 10 5 0
    [16, 0, 99, 0], // H = 0: 4 0 0
    [38, 63, 99, 0], // last word 63: 2 0 0
];

// Changes to B.
const B_CHANGES: [[u32; 4]; 4] = [
    [99, 0, 99, 0], // B: 0 0 0
    [39, 12, 99, 0], // E = 12: 21 7 0
    [30, 9, 99, 0], // receiver's piece 9 to 13: 20 7 0
    [42, 8, 99, 0], // queue 8: 40 7 0
];

// The table of case A's lane 0.
const TABLE_A: [u32; 14] = [10, 4, 0, 1, 0, 2, 3, 0, 3, 4, 0, 6, 2, 0];

fn print_number(n: u64, end: u8) {
    io::print_decimal(STDOUT, n);
    let ends = [end];
    io::write_all(STDOUT, &ends);
}

// Checks an image and prints the answer.
fn print_answer(image: &[u8]) {
    let answer = questions::check(image);
    print_number(answer.number as u64, b' ');
    print_number(answer.table as u64, b' ');
    print_number(answer.row as u64, b'\n');
}

// Word i of a case, after two changes.
fn changed(word: u32, i: u32, place: u32, value: u32, second: u32, other: u32) -> u32 {
    if i == place {
        return value;
    }
    if i == second {
        return other;
    }
    word
}

// Writes word i of an image, lowest byte first.
fn put(image: &mut [u8], i: usize, word: u32)
    requires { i < 1000 }
{
    let at = i * 4;
    if at + 4 <= image.len() {
        image[at..at + 4].copy_from_slice(&word.to_le_bytes());
    }
}

// Writes a case with a change.
fn write_case(image: &mut [u8], words: &[u32], change: [u32; 4])
    requires { length words.now < 1000 }
{
    let [place, value, second, other] = change;
    for i in 0..words.len() {
        put(
            image,
            i,
            changed(words[i], i as u32, place, value, second, other),
        );
    }
}

fn run_a(change: [u32; 4]) {
    let mut image = [0u8; 156];
    write_case(&mut image, &CASE_A, change);
    print_answer(&image);
}

fn run_b(change: [u32; 4]) {
    let mut image = [0u8; 284];
    write_case(&mut image, &CASE_B, change);
    print_answer(&image);
}

// The step at tick 9, entry 3 of case A's lane 0: number, cycle, tick, entry, kind, row.
fn run_step(cycle: u64) {
    let state = LaneState {
        cycle,
        tick: 9,
        entry: 3,
        first: 0,
        kind: 4,
        row: 0,
    };
    let table = TABLE_A;
    let next = steps::step(&table, state);
    let after = next.state;
    print_number(next.number as u64, b' ');
    print_number(after.cycle, b' ');
    print_number(after.tick as u64, b' ');
    print_number(after.entry as u64, b' ');
    print_number(after.kind as u64, b' ');
    print_number(after.row as u64, b'\n');
}

fn main() {
    for change in A_CHANGES {
        run_a(change);
    }
    let empty = [0u8; 1];
    print_answer(&empty[..0]);
    for change in B_CHANGES {
        run_b(change);
    }
    run_step(7);
    run_step(18446744073709551615);
}
