// A string, place by place.
ghost use Rattle.decoder.specs.Places.{PlacesAsked, PlacesGiven};

use fitting::inner::answer::{UNCOUNTED, answer_byte, answer_of};
use fitting::inner::tables::Sets;

// Decodes the parts of n letters that start at the first m places of the received letters, each by itself.
pub fn decode_places(sets: &Sets, received: &[u8], b: usize, n: usize, m: usize, output: &mut [u8])
    requires { PlacesAsked sets.now.next sets.now.successors sets.now.predecessors sets.now.letters sets.now.starts
        received.now b n m output.old }
    ensures { PlacesGiven sets.now.next sets.now.successors sets.now.predecessors sets.now.letters sets.now.starts
        received.now b n m output.old output.new }
{
    for k in 0..m {
        let fit = sets.fitting(&received[k..k + n], b);
        output[k] = answer_byte(answer_of(fit, UNCOUNTED));
    }
}
