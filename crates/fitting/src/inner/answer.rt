// The answer that a set of letters stands for, and its byte.
ghost use Rattle.std.specs.Prelude.{◌≡◌};
ghost use Rattle.mealy.specs.Answer.{byte_of};
ghost use Rattle.fitting.specs.Answer.{meaning, answer_of};

use crate::Answer;

// The bytes of the answers that are no letter.
pub const NONE: u8 = 254;

pub const SEVERAL: u8 = 255;

// What stands for the count of none where it is not looked for: the bytes of strings and tables have none, and kinds have none.
pub const UNCOUNTED: usize = 0;

// With no letter, none with the count `far`; with more letters than its greatest one, several.
#[tactic(auto, using(crate::proofs::Answers::answering), unfolding(crate::specs::Answer::answer_of))]
pub fn answer_of(u: u16, far: usize) -> Answer
    ensures { result ≡ answer_of u far }
{
    if u == 0 {
        return Answer::None(far);
    }
    let greatest = 15 - u16::leading_zeros(u);
    if u != 1u16 << greatest {
        return Answer::Several;
    }
    let letter = greatest as u8;
    Answer::Letter(letter)
}

// The answer's byte, as strings and tables write it: 254 for none, whatever its count.
pub fn answer_byte(a: Answer) -> u8
    ensures { result ≡ byte_of (meaning a) }
{
    let Answer::Letter(x) = a else {
        let Answer::None(_) = a else {
            return SEVERAL;
        };
        return NONE;
    };
    x
}
