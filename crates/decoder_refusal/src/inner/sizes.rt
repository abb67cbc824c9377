// The letters of a window, and the places of a string that have a full window.
ghost use Rattle.std.specs.Prelude.{◌≡◌};
ghost use Rattle.values.specs.Window.{size};
ghost use Rattle.window_limits.specs.Refusal.{SidesSmall};
ghost use Rattle.decoder_refusal.specs.Refusal.{places as places_of};

use values::Window;

// How many letters a window has.
pub fn letters(w: Window) -> usize
    requires { SidesSmall w.before w.after }
    ensures { result ≡ size w }
{
    w.before + 1 + w.after
}

// How many places of a string of len letters have a full window.
pub fn places(len: usize, w: Window) -> usize
    requires { SidesSmall w.before w.after }
    ensures { result ≡ places_of len w }
{
    len.saturating_sub(w.before + w.after)
}
