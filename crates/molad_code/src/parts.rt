// The molad that a number of months come before.
ghost use Rattle.std.specs.Prelude.{◌≡◌, ◌/◌, ◌%◌, ◌≤◌};
ghost use Rattle.molad.specs.Units.{parts_in_hour};
ghost use Rattle.molad_code.specs.Steps.{IsMolad};

#[derive(Drop)]
pub struct Molad {
    pub day: u64,
    // In parts, 0 to 25,919.
    pub time: u64,
}

impl Molad {
    // The hour, 0 to 23.
    pub fn hour(&self) -> u64
        ensures { result ≡ self.now.time / parts_in_hour }
    {
        self.time / 1080
    }

    // The part of the hour, 0 to 1079.
    pub fn part(&self) -> u64
        ensures { result ≡ self.now.time % parts_in_hour }
    {
        self.time % 1080
    }
}

// A step, for the months of the years 1 to 10,001. Only what a month has beyond 29 days is divided.
pub fn molad_after(months: u64) -> Molad
    requires { months ≤ 123713 }
    ensures { IsMolad months result }
{
    let parts = 5604 + 13753 * months;
    Molad {
        day: 347_998 + 29 * months + parts / 25920,
        time: parts % 25920,
    }
}
