// What the notice program prints for a notice.
ghost use Rattle.std.specs.Prelude.{◌≡◌, Some};
ghost use Rattle.wording.specs.Printed.{weekday_name, parts_name, notice};

use notice::NoticeAnswer;
use show::Date;
use std::fmt;

fn weekday_name(weekday: u64) -> &'static str
    ensures { result.now ≡ weekday_name weekday }
{
    match weekday {
        1 => "Sunday",
        2 => "Monday",
        3 => "Tuesday",
        4 => "Wednesday",
        5 => "Thursday",
        6 => "Friday",
        _ => "Saturday",
    }
}

fn parts_name(part: u64) -> &'static str
    ensures { result.now ≡ parts_name part }
{
    if part == 1 { "part" } else { "parts" }
}

// The weekday's name, the date, the clock as HH:MM, and the parts in words.
#[derive(Drop)]
pub struct Notice {
    pub told: NoticeAnswer,
    pub shown: Date,
}

impl fmt::Display for Notice {
    ghost output = { λ n. Some (notice n.told n.shown.0) };

    fn fmt<W: fmt::Write>(&self, f: &mut fmt::Formatter<W>) -> fmt::Result {
        let NoticeAnswer {
            hour,
            minute,
            part,
            ..
        } = self.told;
        write!(
            f,
            "{} {} {hour:02}:{minute:02} and {part} {}",
            weekday_name(self.told.weekday),
            self.shown,
            parts_name(part)
        )
    }
}
