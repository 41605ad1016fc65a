// Question 30 (paper 02, request 3): do messages lead from a chain's first task to its last? A walk of two functions that alternate.
#![tactic(auto)]

ghost use Rattle.std.specs.Prelude.{◌≡◌, ◌<◌};
ghost use Rattle.plan.specs.declared.Table.TheVariants.{Tasks, Chains};
ghost use Rattle.plan.specs.Image.{rows};
ghost use Rattle.plan.specs.Questions.{chain_path, chain_questions};
ghost use Rattle.plan.specs.Held.{Sound, Passed};
ghost use Rattle.paths.specs.Walks.{BeforeChains, messages, sender_of, reader_of, leads_to, sent_on, Marked};

use plan::{Table, Task};
use tables::{buffer_at, chain_at, rows_of, stream_at};

// How many messages there are: streams, then buffers.
fn message_count(image: &[u8]) -> u32
    requires { Sound image.now }
    ensures { result ≡ messages image.now }
{
    rows_of(image, Table::Streams) + rows_of(image, Table::Buffers)
}

// The task that sends a message.
fn sender_of(image: &[u8], message: u32) -> u32
    requires { Sound image.now × (message < messages image.now) }
    ensures { result ≡ sender_of image.now message }
{
    let streams = rows_of(image, Table::Streams);
    if message < streams {
        stream_at(image, message).sender
    } else {
        buffer_at(image, message - streams).writer
    }
}

// The task that reads a message.
fn reader_of(image: &[u8], message: u32) -> u32
    requires { Sound image.now × (message < messages image.now) }
    ensures { result ≡ reader_of image.now message }
{
    let streams = rows_of(image, Table::Streams);
    if message < streams {
        stream_at(image, message).receiver
    } else {
        buffer_at(image, message - streams).reader
    }
}

// From a message to the task that reads it: if the task before sends it, does its reader lead to the goal?
#[cycle(from_message_from_task)]
fn from_message(image: &[u8], marks: &mut [u32], task: u32, message: u32, goal: u32) -> bool
    requires { BeforeChains image.now × ((task < rows image.now Tasks) × ((message < messages image.now) × Marked image.now goal marks.old)) }
    ensures { (result ≡ sent_on image.now task goal message) × Marked image.now goal marks.new }
{
    if sender_of(image, message) != task {
        return false;
    }
    let reader = reader_of(image, message);
    from_task(image, marks, reader, goal)
}

// From a task to the messages it sends: does one lead to the goal? A task that does not is marked, and not searched again.
#[cycle(from_message_from_task)]
fn from_task(image: &[u8], marks: &mut [u32], task: u32, goal: u32) -> bool
    requires { BeforeChains image.now × ((task < rows image.now Tasks) × Marked image.now goal marks.old) }
    ensures { (result ≡ leads_to image.now task goal) × Marked image.now goal marks.new }
{
    if task == goal {
        return true;
    }
    if marks[task as usize] != 0 {
        return false;
    }
    let messages = message_count(image);
    for message in 0..messages {
        if from_message(image, marks, task, message, goal) {
            return true;
        }
    }
    marks[task as usize] = 1;
    false
}

// 30: do messages lead from the chain's first task to its last?
pub fn chain_path(image: &[u8], chain: u32) -> bool
    requires { BeforeChains image.now × ((chain < rows image.now Chains) × Passed (chain_questions image.now) 1) }
    ensures { result ≡ chain_path image.now chain }
{
    let c = chain_at(image, chain);
    let mut marks = [0u32; Task::MAX as usize];
    from_task(image, &mut marks, c.first, c.last)
}
