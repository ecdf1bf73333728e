// A date whose numbers are small enough to be counted with. Those of a record that none of the calls made may be any.
ghost use Rattle.std.specs.Prelude.{◌≤◌};

use record::Dated;

#[derive(Clone, Copy)]
pub struct SmallDate {
    pub date: Dated,
    pub ghost small: { (date.month ≤ 13) × (date.date ≤ 400) },
}
