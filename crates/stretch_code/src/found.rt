// What is told of the stretch for a day.
ghost use Rattle.std.specs.Prelude.{◌≤◌};
ghost use Rattle.days.specs.Range.{last_day};

#[derive(Clone, Copy)]
pub struct NextStretch {
    pub first: u64,
    pub length: u64,
    pub days_left: i64,
    pub ghost begins: { first ≤ last_day },
    pub ghost short: { length ≤ 3 },
}
