// Words as bytes, the lowest byte first: a word stored, and laws of words that stand in bytes (proofs/).
#![tactic(auto)]

ghost use Rattle.std.specs.Prelude.{◌≡◌, ◌+◌, ◌≤◌, length};
ghost use Rattle.std.proofs.lemmas.List.Edits.{sets};
ghost use Rattle.plan.specs.Boundary.{bytes_of};

// Writes a word from byte i on, the lowest byte first.
pub fn put_word(bytes: &mut [u8], i: usize, x: u32)
    requires { i + 4 ≤ length bytes.old }
    ensures { bytes.new ≡ sets bytes.old i (bytes_of 4 x) }
{
    bytes[i] = (x % 256) as u8;
    bytes[i + 1] = (x / 256 % 256) as u8;
    bytes[i + 2] = (x / 65536 % 256) as u8;
    bytes[i + 3] = (x / 16777216 % 256) as u8;
}
