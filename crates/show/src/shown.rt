// What several programs print.
ghost use Rattle.std.specs.Prelude.{Some};
ghost use Rattle.show.specs.Printed.{refused, date};

use civil::CivilDate;
use std::fmt;

// What is printed in place of an answer.
#[derive(Clone, Copy)]
pub struct Refused(pub u64);

impl fmt::Display for Refused {
    ghost output = { λ r. Some (refused r.0) };

    fn fmt<W: fmt::Write>(&self, f: &mut fmt::Formatter<W>) -> fmt::Result {
        write!(f, "refused {}", self.0)
    }
}

// A civil date: the year without padding, with a minus sign below zero; month and day of two figures.
#[derive(Drop)]
pub struct Date(pub CivilDate);

impl fmt::Display for Date {
    ghost output = { λ d. Some (date d.0) };

    fn fmt<W: fmt::Write>(&self, f: &mut fmt::Formatter<W>) -> fmt::Result {
        write!(f, "{}-{:02}-{:02}", self.0.year, self.0.month, self.0.day)
    }
}
