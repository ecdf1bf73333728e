// The years of a sheet, where any number may be asked.
ghost use Rattle.sheet_years.specs.Asked.{YearsAsked};

use crate::years::Years;
use molad_code::LAST_YEAR;
use refusals::Refusal;

// The most years that a sheet holds.
pub const MOST_YEARS: u64 = 100;

impl Years {
    // So many years from the first on. Refusal 11 for years that are not 1 to 100; 1 if the first or the last of them lies
    // outside 1..9999. The last is first + count - 1, a sum that the largest first years would not bear.
    pub fn new(first: u64, count: u64) -> Result<Years, Refusal>
        ensures { YearsAsked first count result }
    {
        if !(1..=MOST_YEARS).contains(&count) {
            return Err(Refusal::BadYearCount);
        }
        if !(1..=LAST_YEAR + 1 - count).contains(&first) {
            return Err(Refusal::BadYear);
        }
        Ok(Years { first, count })
    }
}
