// The clocks of the runner's two shards.
ghost use Rattle.std.specs.Prelude.{◌<◌, ◌≤◌};
ghost use Rattle.rows.specs.Limits.{channels, greatest_rate};

use clocks::clock::Clock;
use clocks::hull::Hull;
use clocks::joined::Joined;
use clocks::reference::Reference;
use clocks::single::Single;
use fuses::fuse::Fuse;
use holdovers::holdover::Holdover;
use listing::listing;
use std::alloc::{AllocError, Global};

type Receivers = Joined<Single<Reference>, Joined<Single<Reference>, Single<Reference>>>;

type First = Hull<Holdover<Fuse<Receivers>>>;

type Second = Holdover<Reference>;

type Shards = Joined<Single<First>, Single<Second>>;

// Each literal is proved in range at its call; a `Channel` would be made of the same literal.
fn reference(channel: u8) -> Reference
    requires { channel < channels }
{
    Reference::new(channel).unwrap()
}

// Likewise: both literals are proved in range at the call.
fn holdover<C: Clock + Drop>(below: C, channel: u8, rate: u64) -> Holdover<C>
    requires { (channel < channels) × (rate ≤ greatest_rate) }
{
    Holdover::new(below, channel, rate).unwrap()
}

// A hull over a holdover over a fuse of three references, of which one may err.
fn first() -> First {
    let last = Joined::new(Single::new(reference(1)), Single::new(reference(2)));
    let receivers = Joined::new(Single::new(reference(0)), last);
    Hull::new(holdover(Fuse::tolerating(receivers, 1), 4, 200))
}

// A holdover over one reference.
fn second() -> Second {
    holdover(reference(3), 5, 50)
}

fn shards() -> Shards {
    Joined::new(Single::new(first()), Single::new(second()))
}

// The listing of a schedule over the two shards.
pub(crate) fn listing_over_shards(heap: Global, bytes: &[u8]) -> Result<String, AllocError> {
    listing(heap, shards(), bytes)
}
