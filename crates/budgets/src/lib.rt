// Question 13 (paper 01, "The questions"): does the work of every job sum to its task's budget? By the times that crate jobs gathers.
#![tactic(auto)]

ghost use Rattle.std.specs.Prelude.{◌≡◌, ◌<◌};
ghost use Rattle.plan.specs.declared.Table.TheVariants.{Tasks};
ghost use Rattle.plan.specs.Image.{rows};
ghost use Rattle.plan.specs.Search.{first_no};
ghost use Rattle.plan.specs.Questions.{jobs, job_budget, task_budget, piece_questions};
ghost use Rattle.plan.specs.Held.{Sound, Passed};
ghost use Rattle.jobs.specs.Times.{AllGathered, TasksBefore, JobsBefore};

use jobs::{JOBS, WORKS};
use plan::Table;
use tables::{rows_of, task_at};
use terms::jobs_of;

// 13: is the job's work its task's budget? All jobs before it have theirs, and so a piece each: a job past the places has none left.
fn job_budget(image: &[u8], times: &[u32], task: u32, job: u32) -> bool
    requires sound { Sound image.now × (Passed (piece_questions image.now) 6 × AllGathered image.now times.now) }
    requires task_bound { (task < rows image.now Tasks) × ((job < jobs image.now task) × JobsBefore image.now task job) }
    ensures { result ≡ job_budget image.now task job }
{
    let place = times[task as usize] as usize + job as usize;
    if JOBS <= place {
        return false;
    }
    times[WORKS + place] == task_at(image, task).budget
}

// 13: have all jobs of the task? The search ends at a job without its budget, so that it goes no further than there are pieces.
fn task_budget(image: &[u8], times: &[u32], task: u32) -> bool
    requires sound { Sound image.now × (Passed (piece_questions image.now) 6 × AllGathered image.now times.now) }
    requires task_bound { (task < rows image.now Tasks) × TasksBefore image.now task }
    ensures { result ≡ task_budget image.now task }
{
    let jobs = jobs_of(image, task);
    searching::all(jobs, |job| job_budget(image, times, task, job))
}

// 13: the lowest task with a job that has not its budget.
pub fn first_off_budget(image: &[u8], times: &[u32]) -> Option<u32>
    requires { Sound image.now × (Passed (piece_questions image.now) 6 × AllGathered image.now times.now) }
    ensures { result ≡ first_no (rows image.now Tasks) (task_budget image.now) }
{
    let tasks = rows_of(image, Table::Tasks);
    searching::first_no(tasks, |task| task_budget(image, times, task))
}
