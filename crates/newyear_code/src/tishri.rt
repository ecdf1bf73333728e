// New Year and the molad that it comes from.
ghost use Rattle.molad.specs.Years.{InNewYears};
ghost use Rattle.newyear_code.specs.Steps.{Begins};

use delays::Delayed;
use molad_code::Molad;

#[derive(Drop)]
pub struct Tishri {
    pub new_year: u64,
    pub weekday: u64,
    pub molad: Molad,
    pub late: Delayed,
}

// A step, for the years 1 to 10,000.
pub fn begins(year: u64) -> Tishri
    requires { InNewYears year }
    ensures { Begins year result }
{
    let before = molad_code::months_before(year);
    let molad = molad_code::molad_after(before.months);
    let weekday = days::weekday_of(molad.day);
    let late = delays_code::delay(weekday, molad.time, before.leap, before.after_leap);
    // The day after Saturday, 8, is Sunday again.
    let moved = weekday + late.delay;
    Tishri {
        new_year: molad.day + late.delay,
        weekday: laws::pick(7 < moved, moved, moved + 7) - 7,
        molad,
        late,
    }
}
