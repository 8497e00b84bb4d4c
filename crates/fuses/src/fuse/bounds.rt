// What readings share, by where they begin and where they end.
ghost use Rattle.std.specs.Prelude.{◌≡◌, ℕ, ◌-◌, ◌<◌, ◌≤◌, List, length, drop, nat_le, MatchOption};
ghost use Rattle.clocks.specs.declared.interval.Interval.{Interval};
ghost use Rattle.fuses.specs.Sharing.{too_few, sharing, Smallest, Most, Fuses};
ghost use Rattle.fuses.specs.Bounds.{HasBounds, without_ended, stretched};

use super::rising::Rising;
use clocks::interval::Interval;
use rows::fault::{Cause, Fault};

#[derive(Clone, Copy)]
pub(super) struct Bounds<'a> {
    pub(super) begins: Rising<'a>,
    pub(super) ends: Rising<'a>,
}

fn too_few(most: u8) -> Fault
    ensures { result ≡ too_few most }
{
    Fault::new(Cause::TooFew, most)
}

// The ends without the first, if it is before the time.
fn without_ended(ends: &[u64], time: u64) -> &[u64]
    ensures left { result.now ≡ without_ended ends.now time }
    ensures fewer { length result.now ≤ length ends.now }
{
    match ends.split_first() {
        Some((end, later)) if *end < time => later,
        _ => ends,
    }
}

// Whether a beginning leaves a time to share with the end that it goes with: at the end itself it does.
fn meets(begin: u64, end: u64) -> bool
    ensures { result ≡ nat_le begin end }
{
    begin <= end
}

// From the first beginning to the last end, with one beginning and one end more.
fn stretched(span: Option<(u64, u64)>, begin: u64, end: u64) -> (u64, u64)
    ensures { result ≡ stretched span begin end }
{
    (span.map_or(begin, |(lowest, _)| lowest), end)
}

impl<'a> Bounds<'a> {
    // The most that share one time: the ends left when each beginning has left out one before it.
    fn most_shared(&self) -> u8
        ensures { (is : List Interval) → HasBounds is self.now → Most (sharing is) result }
    {
        let mut left = self.ends.times;
        for begin in self.begins.times {
            left = without_ended(left, *begin);
        }
        left.len() as u8
    }

    // The beginnings from the number `need` on: before them fewer have begun.
    fn begun(&self, need: u8) -> Option<&'a [u64]>
        requires { 1 ≤ need }
        ensures { MatchOption result (length self.now.begins.times.now < need - 1) (λ begins. begins.now ≡ drop (need - 1) self.now.begins.times.now) }
    {
        self.begins.times.get(usize::from(need - 1)..)
    }

    // From the lowest to the highest time that enough share. The first end goes with the beginning number `need`,
    // the next with the next: where a beginning is no later than its end, enough share both.
    fn span_shared(&self, need: u8) -> Option<Interval>
        requires { 1 ≤ need }
        ensures { (is : List Interval) → HasBounds is self.now → MatchOption result ((time : ℕ) → sharing is time < need) (Smallest need (sharing is)) }
    {
        let mut span = None;
        for (begin, end) in self.begun(need)?.iter().zip(self.ends.times) {
            if meets(*begin, *end) {
                span = Some(stretched(span, *begin, *end));
            }
        }
        let (lowest, highest) = span?;
        Interval::new(lowest, highest)
    }

    // What the readings fuse to.
    pub(super) fn fused(&self, need: u8) -> Result<Interval, Fault>
        requires { 1 ≤ need }
        ensures { (is : List Interval) → HasBounds is self.now → Fuses need (sharing is) result }
    {
        let Some(span) = self.span_shared(need) else {
            return Err(too_few(self.most_shared()));
        };
        Ok(span)
    }
}
