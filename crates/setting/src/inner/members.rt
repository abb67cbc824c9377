// The members of a set, a word of 16 bits, as an iterator: the least first.
ghost use Rattle.std.specs.Prelude.{◌≡◌};
ghost use Rattle.std.specs.Iterator.{at_most};
ghost use Rattle.setting.specs.Members.{TakesLeast};

// The members that are still to come.
#[derive(Clone, Copy)]
pub struct Members {
    rest: u16,
}

impl Members {
    // The members of a set.
    pub fn of(set: u16) -> Members
        ensures { result.rest ≡ set }
    {
        Members { rest: set }
    }
}

impl Iterator for Members {
    type Item = usize;

    ghost next_gives = { TakesLeast };

    ghost remaining = { λ m. at_most m.rest };

    #[inline(always)]
    fn next(&mut self) -> Option<usize> {
        if self.rest == 0 {
            return None;
        }
        let s = u16::trailing_zeros(self.rest) as usize;
        self.rest &= self.rest - 1;
        Some(s)
    }
}
