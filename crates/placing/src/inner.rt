// No public calls: each function writes bytes into a buffer from the place `at` on, and returns the place after them.
// A lent buffer, since there is no heap here.
ghost use Rattle.std.specs.Prelude.{◌+◌, ◌-◌, ◌≤◌, length, replicate};
ghost use Rattle.placing.specs.Placed.{Placed};

// The bytes of a slice, by places and not by `copy_from_slice`: that would need memmove, which nothing else in the library for C needs.
pub fn put(out: &mut [u8], at: usize, bytes: &[u8]) -> usize
    requires { at + length bytes.now ≤ length out.old }
    ensures { Placed out.old at bytes.now out.new result }
{
    for i in 0..bytes.len() {
        out[at + i] = bytes[i];
    }
    at + bytes.len()
}

// The same byte up to the place `end`; nothing where that is not above `at`.
#[tactic(auto, using(crate::proofs::Placing::part_written))]
pub fn fill(out: &mut [u8], at: usize, end: usize, byte: u8) -> usize
    requires { end ≤ length out.old }
    ensures { Placed out.old at (replicate (end - at) byte) out.new result }
{
    if end <= at {
        return at;
    }
    out[at..end].fill(byte);
    end
}
