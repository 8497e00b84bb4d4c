// The numbers behind a command's number on its line.
ghost use Rattle.std.specs.Prelude.{Some};
ghost use Rattle.rows.specs.Details.{values, spaced};

use std::fmt;

// Three at most: a list of them would not be `Copy`, which callers may rest on.
#[derive(Clone, Copy, PartialEq, Eq, Debug)]
pub enum Details {
    Empty,
    One(u64),
    Two(u64, u64),
    Three(u64, u64, u64),
}

impl fmt::Display for Details {
    ghost output = { λ d. Some (spaced (values d)) };

    fn fmt<W: fmt::Write>(&self, f: &mut fmt::Formatter<W>) -> fmt::Result {
        match self {
            Details::Empty => Ok(()),
            Details::One(n) => write!(f, " {n}"),
            Details::Two(m, n) => write!(f, " {m} {n}"),
            Details::Three(l, m, n) => write!(f, " {l} {m} {n}"),
        }
    }
}
