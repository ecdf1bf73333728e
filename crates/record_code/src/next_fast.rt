// The fast that a record tells.
ghost use Rattle.std.specs.Prelude.{◌≡◌};
ghost use Rattle.record.specs.Steps.{fast_onward, fast_backward};

use crate::moves::{Backward, Onward};
use crate::small_date::SmallDate;
use fasts::Ahead;

impl Onward {
    pub fn fast(&self) -> Ahead
        ensures { result ≡ fast_onward self.now.record }
    {
        let r = &self.record;
        if (0 < r.fast_month) & (0 < r.fast_left) {
            return Ahead {
                month: r.fast_month,
                left: r.fast_left - 1,
                none: 0,
            };
        }
        fasts_code::ahead(self.day)
    }
}

impl Backward {
    // The date is that of the day before.
    pub fn fast(&self, x: SmallDate) -> Ahead
        ensures { result ≡ fast_backward self.now.record x.date }
    {
        let r = &self.record;
        let may = fasts_code::may_fast(x.date.month, x.date.date);
        if (0 < r.fast_month) & ((r.fast_left < 400) & !may) {
            return Ahead {
                month: r.fast_month,
                left: r.fast_left + 1,
                none: 0,
            };
        }
        fasts_code::ahead(self.day)
    }
}
