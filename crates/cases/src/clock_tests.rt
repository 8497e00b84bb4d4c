// The worked cases of the clocks, run.
use crate::silent::Silent;
use clocks::clock::Clock;
use clocks::hull::Hull;
use clocks::joined::Joined;
use clocks::reference::Reference;
use clocks::single::Single;
use fuses::fuse::Fuse;
use holdovers::holdover::Holdover;
use rows::pair::Pair;
use rows::refusal::Refusal;
use rows::row::Row;
use std::test::Fail;

// Both ends of a reading, or the fault's cause, place and depth: plain numbers, as the cases have them.
type Seen = Result<(u64, u64), (u8, u8, u8)>;

fn seen<C: Clock>(clock: &C) -> Seen {
    clock
        .query()
        .map(|i| (i.earliest, i.latest))
        .map_err(|fault| (fault.cause.number(), fault.place, fault.depth))
}

// What the clock reads after an instant with these pairs, channel by channel.
fn after<C: Clock>(clock: &mut C, pairs: &[(u8, u64, u64)]) -> Seen {
    let mut row = Row::new();
    for (channel, first, second) in pairs {
        let pair = Pair {
            first: *first,
            second: *second,
        };
        let _ = row.set(*channel, pair);
    }
    clock.advance(&row);
    seen(clock)
}

fn two() -> Result<Joined<Single<Reference>, Single<Reference>>, Refusal> {
    let first = Single::new(Reference::new(0)?);
    Ok(Joined::new(first, Single::new(Reference::new(1)?)))
}

#[test]
fn fuses_of_two(rt: HostRuntime) -> Result<(), Fail> {
    let mut fuse = Fuse::tolerating(two()?, 0);
    assert_eq!(rt; seen(&fuse), Err((2, 0, 0)));
    assert_eq!(rt; after(&mut fuse, &[(0, 10, 20), (1, 20, 30)]), Ok((20, 20)));
    assert_eq!(rt;
        after(&mut fuse, &[(0, 10, 20), (1, 21, 30)]),
        Err((2, 1, 0))
    );
    assert_eq!(rt; after(&mut fuse, &[(0, 10, 20)]), Err((2, 1, 0)));
    Ok(())
}

#[test]
fn fuses_of_three(rt: HostRuntime) -> Result<(), Fail> {
    let bank = Joined::new(two()?, Single::new(Reference::new(2)?));
    let mut fuse = Fuse::new(bank);
    assert_eq!(rt;
        after(&mut fuse, &[(0, 100, 110), (1, 105, 115), (2, 300, 310)]),
        Ok((105, 110))
    );
    assert_eq!(rt;
        after(&mut fuse, &[(0, 0, 10), (1, 20, 30), (2, 5, 25)]),
        Ok((5, 25))
    );
    Ok(())
}

#[test]
fn holdover_drifts(rt: HostRuntime) -> Result<(), Fail> {
    let mut holdover = Holdover::new(Reference::new(0)?, 4, 200)?;
    assert_eq!(rt; seen(&holdover), Err((1, 0, 1)));
    assert_eq!(rt; after(&mut holdover, &[(0, 7, 9), (4, 0, 0)]), Ok((7, 9)));
    assert_eq!(rt; after(&mut holdover, &[(4, 4999, 4999)]), Ok((5006, 5008)));
    assert_eq!(rt; after(&mut holdover, &[(4, 5000, 5000)]), Ok((5006, 5010)));
    assert_eq!(rt; after(&mut holdover, &[(4, 4999, 4999)]), Err((1, 0, 1)));
    Ok(())
}

#[test]
fn hull_keeps_its_time(rt: HostRuntime) -> Result<(), Fail> {
    let mut hull = Hull::new(Reference::new(0)?);
    assert_eq!(rt; after(&mut hull, &[(0, 50, 90)]), Ok((50, 90)));
    assert_eq!(rt; after(&mut hull, &[(0, 40, 80)]), Ok((50, 80)));
    assert_eq!(rt; after(&mut hull, &[(0, 10, 49)]), Err((3, 0, 0)));
    assert_eq!(rt; after(&mut hull, &[]), Err((1, 0, 1)));
    Ok(())
}

// No layer knows this clock.
#[test]
fn fuse_over_a_clock_of_ones_own(rt: HostRuntime) -> Result<(), Fail> {
    let bank = Joined::new(Single::new(Silent), Single::new(Reference::new(0)?));
    let mut fuse = Fuse::new(bank);
    assert_eq!(rt; after(&mut fuse, &[(0, 10, 20)]), Ok((10, 20)));
    Ok(())
}

#[test]
fn makers_refuse(rt: HostRuntime) {
    assert_eq!(rt; Reference::new(15).err(), None);
    assert_eq!(rt; Reference::new(16).err(), Some(Refusal::NoChannel));
    assert_eq!(rt; Holdover::new(Silent, 15, 1000).err(), None);
    assert_eq!(rt;
        Holdover::new(Silent, 16, 1001).err(),
        Some(Refusal::NoChannel)
    );
    assert_eq!(rt;
        Holdover::new(Silent, 15, 1001).err(),
        Some(Refusal::BadRate)
    );
}
