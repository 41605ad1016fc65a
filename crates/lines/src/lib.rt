// Numbers and lines of numbers (paper 01, "Cases") put into lent bytes, as far as these reach; the place after them is given either way.
#![tactic(auto)]

ghost use Rattle.std.specs.Prelude.{◌≡◌, ◌^◌, ◌≤◌, set};
ghost use Rattle.texts.specs.Characters.{decimal};
ghost use Rattle.texts.specs.Printed.{ended, answer_line, entry_line};
ghost use Rattle.lines.specs.Putting.{Put};

// Stores a byte where there is room for it.
pub fn put(out: &mut [u8], at: usize, x: u8)
    ensures { out.new ≡ set out.old at x }
{
    if at < out.len() {
        out[at] = x;
    }
}

// A number's digits from byte `at` on. Gives the place after them.
pub fn put_digits(out: &mut [u8], at: usize, n: u32) -> usize
    requires { at ≤ 2 ^ 40 }
    ensures { Put out.old at (decimal n) 10 result out.new }
{
    if n < 10 {
        put(out, at, 48 + n as u8);
        return at + 1;
    }
    let place = put_digits(out, at, n / 10);
    put(out, place, 48 + (n % 10) as u8);
    place + 1
}

// A number and the byte after it.
fn put_number(out: &mut [u8], at: usize, n: u32, end: u8) -> usize
    requires { at ≤ 2 ^ 40 }
    ensures { Put out.old at (ended n end) 11 result out.new }
{
    let place = put_digits(out, at, n);
    put(out, place, end);
    place + 1
}

// An answer's line, from byte 0 on: number, table, row.
pub fn put_answer(out: &mut [u8], number: u32, table: u32, row: u32) -> usize
    ensures { Put out.old 0 (answer_line (record { number = number; table = table; row = row })) 33 result out.new }
{
    let second = put_number(out, 0, number, b' ');
    let third = put_number(out, second, table, b' ');
    put_number(out, third, row, b'\n')
}

// An entry's line: lane, first tick, kind, row.
pub fn put_entry(out: &mut [u8], at: usize, lane: u32, first: u32, kind: u32, row: u32) -> usize
    requires { at ≤ 2 ^ 39 }
    ensures { Put out.old at (entry_line lane first kind row) 44 result out.new }
{
    let second = put_number(out, at, lane, b' ');
    let third = put_number(out, second, first, b' ');
    let fourth = put_number(out, third, kind, b' ');
    put_number(out, fourth, row, b'\n')
}
