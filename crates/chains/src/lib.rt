// Questions 29 to 31 (paper 02, request 3): chains over several messages.
#![tactic(auto)]

ghost use Rattle.std.specs.Prelude.{◌≡◌, ◌<◌};
ghost use Rattle.plan.specs.declared.Table.TheVariants.{Chains};
ghost use Rattle.plan.specs.Image as Image;
ghost use Rattle.plan.specs.Image.{rows};
ghost use Rattle.plan.specs.Questions.{jobs, chain_tasks, chain_limit, chain_in_time, chain_questions};
ghost use Rattle.plan.specs.Held.{Sound, Passed};
ghost use Rattle.asking.specs.Asking.{verdict};
ghost use Rattle.jobs.specs.Times.{Timed};
ghost use Rattle.paths.specs.Walks.{BeforeChains, job_within};

use asking::each_row;
use jobs::{first_start, last_end};
use paths::chain_path;
use plan::{Answer, Asked, Table};
use tables::{chain_at, precision_ticks, rows_of};
use terms::{jobs_of, or_deadline};

// 29: do the chain's tasks exist, and differ?
fn chain_tasks(image: &[u8], chain: u32) -> bool
    requires { Sound image.now × (chain < rows image.now Chains) }
    ensures { result ≡ chain_tasks image.now chain }
{
    let c = chain_at(image, chain);
    let tasks = rows_of(image, Table::Tasks);
    (c.first < tasks) & (c.last < tasks) & !(c.first == c.last)
}

// A chain's limit; 0 stands for the last task's deadline.
fn chain_limit(image: &[u8], chain: u32) -> u32
    requires { Sound image.now × ((chain < rows image.now Chains) × Passed (chain_questions image.now) 1) }
    ensures { result ≡ chain_limit image.now chain }
{
    let c = chain_at(image, chain);
    or_deadline(image, c.limit, c.last)
}

// 31: does a job of the last task end within the limit, from the start of the first task's?
fn job_within(image: &[u8], times: &[u32], chain: u32, job: u32) -> bool
    requires before_chains { BeforeChains image.now × Timed image.now times.now }
    requires chain_bound { (chain < rows image.now Chains) × (Passed (chain_questions image.now) 2 × (job < jobs image.now (Image.chain image.now chain).first)) }
    ensures { result ≡ job_within image.now chain job }
{
    let c = chain_at(image, chain);
    let end = last_end(image, times, c.last, job) as u64 + precision_ticks(image) as u64;
    let start = first_start(image, times, c.first, job) as u64;
    end <= chain_limit(image, chain) as u64 + start
}

// 31: does every job?
#[tactic(auto, unfolding(plan::specs::Questions::chain_in_time, paths::specs::Walks::job_within))]
fn chain_in_time(image: &[u8], times: &[u32], chain: u32) -> bool
    requires before_chains { BeforeChains image.now × Timed image.now times.now }
    requires chain_bound { (chain < rows image.now Chains) × Passed (chain_questions image.now) 2 }
    ensures { result ≡ chain_in_time image.now chain }
{
    let jobs = jobs_of(image, chain_at(image, chain).first);
    searching::all(jobs, |job| job_within(image, times, chain, job))
}

// The questions.
const CHAIN_TASKS: Asked = Asked {
    number: 29,
    table: Table::Chains,
};

const CHAIN_PATH: Asked = Asked {
    number: 30,
    table: Table::Chains,
};

const CHAIN_IN_TIME: Asked = Asked {
    number: 31,
    table: Table::Chains,
};

// Questions 29 to 31, in this order.
pub fn ask(image: &[u8], times: &[u32]) -> Result<(), Answer>
    requires { BeforeChains image.now × Timed image.now times.now }
    ensures { result ≡ verdict (chain_questions image.now) }
{
    each_row(image, CHAIN_TASKS, |chain| chain_tasks(image, chain))?;
    each_row(image, CHAIN_PATH, |chain| chain_path(image, chain))?;
    each_row(
        image,
        CHAIN_IN_TIME,
        |chain| chain_in_time(image, times, chain),
    )
}
