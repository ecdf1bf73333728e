// A record that is moved, the day that it comes to, and its wing. There are two types, as a move on and a move back keep
// different things.
ghost use Rattle.std.specs.Prelude.{◌≡◌, ◌+◌, ◌-◌};
ghost use Rattle.days.specs.Range.{InRange};
ghost use Rattle.rest_table.specs.Wing.{number_of};

use record::DayRecord;
use rest_table::Wing;

// Moved on a day.
#[derive(Drop)]
pub struct Onward {
    pub record: DayRecord,
    pub wing: Wing,
    pub day: u64,
    pub ghost moved: { day ≡ record.day + 1 },
    pub ghost in_range: { InRange day },
    pub ghost its_wing: { number_of wing ≡ record.wing },
}

// Moved back a day.
#[derive(Drop)]
pub struct Backward {
    pub record: DayRecord,
    pub wing: Wing,
    pub day: u64,
    pub ghost moved: { day ≡ record.day - 1 },
    pub ghost in_range: { InRange day },
    pub ghost its_wing: { number_of wing ≡ record.wing },
}
