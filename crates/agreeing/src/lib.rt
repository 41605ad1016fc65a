// Where two accepted plans agree (paper 02, request 10): questions 35 and 36.
#![tactic(auto)]

ghost use Rattle.std.specs.Prelude.{◌≡◌, ◌≤◌, ◌<◌};
ghost use Rattle.plan.specs.Image.{rows};
ghost use Rattle.joins.specs.Joins.{row_words, same_words, agree_to, agree, plans_agree, tasks_shared};
ghost use Rattle.pairs.specs.Pairs.{Ready};

use plan::Table;
use tables::{cycle_ticks, field_of, precision_ticks, rows_of, shape_of};

// Has a row equal words in both plans?
fn row_agrees(first: &[u8], second: &[u8], table: Table, row: u32) -> bool
    requires { Ready first.now second.now × ((row < rows first.now table) × (row < rows second.now table)) }
    ensures { result ≡ same_words (row_words first.now table row) (row_words second.now table row) }
{
    let width = shape_of(table).width;
    searching::all(
        width,
        |j| field_of(first, table, row, j) == field_of(second, table, row, j),
    )
}

// Have the first n rows of a table?
fn rows_agree(first: &[u8], second: &[u8], table: Table, n: u32) -> bool
    requires { Ready first.now second.now × ((n ≤ rows first.now table) × (n ≤ rows second.now table)) }
    ensures { result ≡ agree_to first.now second.now n table }
{
    searching::all(n, |row| row_agrees(first, second, table, row))
}

// Has a table as many rows in both, with equal words?
fn table_agrees(first: &[u8], second: &[u8], table: Table) -> bool
    requires { Ready first.now second.now }
    ensures { result ≡ agree first.now second.now table }
{
    let n = rows_of(first, table);
    if n == rows_of(second, table) {
        rows_agree(first, second, table, n)
    } else {
        false
    }
}

// 35: do H, P, cores, VCPUs, windows and links agree?
pub fn plans_agree(first: &[u8], second: &[u8]) -> bool
    requires { Ready first.now second.now }
    ensures { result ≡ plans_agree first.now second.now }
{
    let cycle = cycle_ticks(first) == cycle_ticks(second);
    let precision = precision_ticks(first) == precision_ticks(second);
    let cores = table_agrees(first, second, Table::Cores);
    let vcpus = table_agrees(first, second, Table::Vcpus);
    let windows = table_agrees(first, second, Table::Windows);
    let links = table_agrees(first, second, Table::Links);
    cycle & precision & cores & vcpus & windows & links
}

// 36: is the number of shared tasks in both counts, with equal rows?
pub fn tasks_shared(first: &[u8], second: &[u8], shared: u32) -> bool
    requires { Ready first.now second.now }
    ensures { result ≡ tasks_shared first.now second.now shared }
{
    if rows_of(first, Table::Tasks) < shared {
        return false;
    }
    if rows_of(second, Table::Tasks) < shared {
        return false;
    }
    rows_agree(first, second, Table::Tasks, shared)
}
