// A number from 0 to a greatest one.
ghost use Rattle.std.specs.Prelude.{◌≡◌, ◌<◌, ◌≤◌, MatchOption};

use std::marker::Model;

#[derive(Clone, Copy)]
pub struct AtMost<const MOST: u64> {
    value: u64,
}

// A contract sees the number.
impl<const MOST: u64> Model for AtMost<MOST> {
    ghost use Rattle.std.specs.Prelude.{ℕ, ◌≤◌};

    ghost Value = { ℕ };

    ghost view = { λ n. n.value };

    ghost invariant = { λ n. n.value ≤ MOST };

    ghost inverse = { λ value. record { value = value } };
}

impl<const MOST: u64> AtMost<MOST> {
    pub fn new(value: u64) -> Option<AtMost<MOST>>
        ensures { MatchOption result (MOST < value) (λ made. made ≡ value) }
    {
        if value <= MOST {
            Some(AtMost { value })
        } else {
            None
        }
    }

    pub fn value(self) -> u64
        ensures value { result ≡ self.entry }
        ensures within { result ≤ MOST }
    {
        self.value
    }
}
