// A test of all letters of a slice.
ghost use Rattle.std.specs.Prelude.{◌≡◌};
ghost use Rattle.coder.specs.Refusal.{letters_below};

// Whether every letter is below n.
pub fn letters_below(n: usize, letters: &[u8]) -> bool
    ensures { result ≡ letters_below n letters.now }
{
    for x in letters {
        if n <= usize::from(*x) {
            return false;
        }
    }
    true
}
