// Tallies: a word for each place (a core, a link, a VCPU), brought up to date row by row.
#![tactic(auto)]

ghost use Rattle.std.specs.Prelude.{◌≡◌, ◌<◌, max, length, get_or, set};

// Raises the word of a place to a value.
pub fn raise(words: &mut [u64], place: u32, value: u64)
    requires { place < length words.old }
    ensures { words.new ≡ set words.old place (max (get_or words.old place 0) value) }
{
    words[place as usize] = words[place as usize].max(value);
}
