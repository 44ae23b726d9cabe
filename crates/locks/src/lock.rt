// The two lock rules, on the lock record, which taking and releasing lend to `take` and `release`.
ghost use Rattle.std.specs.Prelude.{◌≡◌};
ghost use Rattle.rules.specs.Places.{taken, tried, taken3, taken4, released, zeroed};

use crate::lent;
use rules::state::{Lock, Settings};

// The holder of a lock that is free. No Option: the record holds a number, and `in_range` answers for any.
pub const NOBODY: u8 = 8;

// Statistics 0, held 2,000,000 up.
pub const ZERO_STATISTICS: u32 = 2_000_000;

// The upper stop of the statistics, held up too.
const TOP_STATISTICS: u32 = 4_000_000;

// A taking that leaves these statistics; the record is lent, so that it is updated in its place.
fn taken(mut l: Lock, me: u8, n: u32) -> Lock
    ensures { result ≡ taken me n }
{
    lent::take(&mut l, me, n);
    l
}

// A taking that changes no statistics: a try on a neighbour, and route locks.
pub fn try_lock(me: u8, l: Lock) -> Lock
    ensures { result ≡ tried me l }
{
    taken(l, me, l.statistics)
}

// The taking at phase 3: statistics less succ, down to the lower stop.
pub fn take_free(me: u8, c: Settings, l: Lock) -> Lock
    ensures { result ≡ taken3 me c l }
{
    taken(l, me, l.statistics.saturating_sub(c.succ))
}

// The taking at phase 4: statistics and fail, up to the upper stop.
pub fn take_contended(me: u8, c: Settings, l: Lock) -> Lock
    ensures { result ≡ taken4 me c l }
{
    let more = l.statistics.saturating_add(c.fail);
    taken(l, me, more.min(TOP_STATISTICS))
}

// Releasing sets the holder to none.
pub fn release_lock(l: Lock) -> Lock
    ensures { result ≡ released l }
{
    let mut free = l;
    lent::release(&mut free);
    free
}

// Statistics 0.
pub fn zero_lock(l: Lock) -> Lock
    ensures { result ≡ zeroed l }
{
    Lock {
        statistics: ZERO_STATISTICS,
        ..l
    }
}
