// A number written as bytes, the highest digit to base 256 first.
ghost use Rattle.std.specs.Prelude.{◌≡◌, ◌+◌, ◌≤◌, length};
ghost use Rattle.std.proofs.lemmas.List.Edits.{sets};
ghost use Rattle.coder.specs.BigEndian.{big_endian};

// Writes the lowest n digits of x into the n bytes from a place on.
#[tactic(auto, using(crate::proofs::BigEndian::store_last), unfolding(crate::specs::BigEndian::big_endian))]
pub fn put(bytes: &mut [u8], place: usize, n: usize, x: usize)
    requires { place + n ≤ length bytes.old }
    ensures { bytes.new ≡ sets bytes.old place (big_endian n x) }
{
    let mut rest = x;
    for k in (0..n).rev() {
        bytes[place + k] = (rest % 256) as u8;
        rest /= 256;
    }
}
