// "The lock record is updated in its place: holder and statistics, and no other record."
ghost use Rattle.std.specs.Prelude.{◌≡◌};
ghost use Rattle.rules.specs.Places.{taken, released};

use crate::lock::NOBODY;
use rules::state::Lock;

// Taking writes who holds the lock, and the statistics that its phase computed.
pub fn take(l: &mut Lock, me: u8, n: u32)
    ensures { l.new ≡ taken me n }
{
    l.holder = me;
    l.statistics = n;
}

// Releasing sets the holder to none.
pub fn release(l: &mut Lock)
    ensures { l.new ≡ released l.old }
{
    l.holder = NOBODY;
}
