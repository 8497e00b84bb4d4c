// Times that rise.
ghost use Rattle.std.specs.Prelude.{◌≤◌, length};
ghost use Rattle.std.specs.List.Sorted.{IsNonDecreasing, IsPermutation};
ghost use Rattle.rows.specs.Limits.{most_members};

// No `Model`: what is found among them rests on that they rise, which a value would not show.
#[derive(Clone, Copy)]
pub(super) struct Rising<'a> {
    pub(super) times: &'a [u64],
    ghost few: { length times.now ≤ most_members },
    ghost rising: { IsNonDecreasing times.now },
}

impl<'a> Rising<'a> {
    // Sorted where they lie, so that no time is moved but to its place.
    pub(super) fn sorted(times: &'a mut [u64]) -> Rising<'a>
        requires { length times.old ≤ most_members }
        ensures { IsPermutation times.old result.times.now }
    {
        times.sort_unstable();
        Rising { times }
    }
}
