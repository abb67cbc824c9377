// No public calls: the fields of the result buffer, 8 bytes each, big-endian, field k at bytes 8 k to 8 k + 7.
ghost use Rattle.std.specs.Prelude.{◌&&◌, ◌≡◌, [], ◌∷◌, ◌+◌, ◌*◌, ◌≤◌, leb, length};
ghost use Rattle.std.proofs.lemmas.List.Edits.{sets};
ghost use Rattle.layout.specs.Layout.{result_bytes, field, with_fields};
ghost use Rattle.layout.specs.Host.{laid_count, LaidOut, HasRoom};

use coder::refusal::Refusal;

// The bytes of the result buffer that each call from C wants.
const RESULT: usize = 64;

// Whether a result buffer of so many bytes is long enough.
pub fn roomy(len: usize) -> bool
    ensures { result ≡ leb result_bytes len }
{
    RESULT <= len
}

// Whether n bytes fit into a lent buffer of `room` bytes, and the other lent buffers are long enough.
pub fn enough(n: usize, room: usize, others: bool) -> bool
    ensures { result ≡ (leb n room && others) }
{
    n <= room && others
}

// Writes x into field k.
fn put_field(res: &mut [u8], k: usize, x: usize)
    requires { 8 * k + 8 ≤ length res.old }
    ensures { res.new ≡ sets res.old (8 * k) (field x) }
{
    coder::inner::big_endian::put(res, 8 * k, 8, x);
}

// Writes a list of numbers into the first fields.
#[tactic(auto, using(crate::proofs::Placing::put_more), unfolding(crate::specs::Layout::fields_of))]
pub fn put_fields(res: &mut [u8], numbers: &[usize])
    requires { 8 * length numbers.now ≤ length res.old }
    ensures { res.new ≡ with_fields res.old numbers.now }
{
    for (k, x) in numbers.iter().enumerate() {
        put_field(res, k, *x);
    }
}

// A number of bytes, or a refusal: what is returned for it.
#[tactic(auto, unfolding(crate::specs::Layout::fields_of))]
pub fn put_count(own: Result<usize, Refusal>, res: &mut [u8]) -> usize
    requires { HasRoom (laid_count own) res.old }
    ensures { LaidOut (laid_count own) res.old result res.new }
{
    match own {
        Ok(count) => {
            put_fields(res, &[count]);
            0
        }
        Err(refusal) => refusal.number(),
    }
}
