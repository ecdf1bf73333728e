// The years of a sheet.
ghost use Rattle.sheet_years.specs.Years.{AreYears};

// So many years in a row, from the first on: at most 100, and all of them covered.
#[derive(Clone, Copy)]
pub struct Years {
    pub first: u64,
    pub count: u64,
    pub ghost covered: { AreYears first count },
}
