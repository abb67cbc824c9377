// No public calls: the comparison of two windows.
ghost use Rattle.std.specs.Prelude.{◌≡◌};
ghost use Rattle.values.specs.Order.{no_later, Compared};

use crate::{Order, Window};

// Whether the window w comes in the order no later than v.
pub fn no_later(order: Order, w: Window, v: Window) -> bool
    requires { Compared w v }
    ensures { result ≡ no_later order w v }
{
    match order {
        Order::LeastLookahead => (w.after, w.before) <= (v.after, v.before),
        Order::FewestLetters => (w.before + 1 + w.after, w.after)
            <= (v.before + 1 + v.after, v.after),
    }
}
