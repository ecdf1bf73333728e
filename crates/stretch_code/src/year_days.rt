// The days of one year, counted from 0 at New Year, and the wing whose rest days are asked.
ghost use Rattle.std.specs.Prelude.{◌≤◌};
ghost use Rattle.newyear.specs.Kinds.{IsLength};

use rest_table::Wing;

#[derive(Clone, Copy)]
pub struct YearDays {
    pub wing: Wing,
    // New Year's, which may also be counted on past 7.
    pub weekday: u64,
    pub length: u64,
    pub ghost small: { weekday ≤ 400 },
    pub ghost measured: { IsLength length },
}
