// The code that tells when charging must begin. Of the calendar it asks which stretch is next: once or, on a day of a stretch,
// twice.
#![tactic(auto)]

ghost use Rattle.std.specs.Prelude.{◌≡◌, ◌≤◌};
ghost use Rattle.laws.specs.Runs.{outside};
ghost use Rattle.stretch_code.specs.Found.{told};
ghost use Rattle.charger.specs.Charging.{bad_figures, hours_needed};
ghost use Rattle.charger.specs.Promises.{GoodFigures};
ghost use Rattle.charger.specs.Answers.{planned as planned_for, charge_answer};
ghost use Rattle.charger_code.specs.Charged.{charged};

use charger::{ChargeAnswer, Figures};
use refusals::Refusal;
use rest_table::Wing;
use stretch_code::NextStretch;

// The most watt-hours that a figure may be.
const MOST_WATT_HOURS: u64 = 1_000_000;

const HOURS_OF_DAY: u64 = 24;

// When charging for a stretch begins, and for how many hours.
#[derive(Clone, Copy)]
pub struct Charging {
    pub start: u64,
    pub hours: u64,
    pub stretch: NextStretch,
}

fn outside(figure: u64) -> bool
    ensures { result ≡ outside 1 1000000 figure }
{
    (figure < 1) | (MOST_WATT_HOURS < figure)
}

fn bad_figures(figures: Figures) -> bool
    ensures { result ≡ bad_figures figures }
{
    outside(figures.draw)
        | (outside(figures.capacity)
            | (outside(figures.rate) | (figures.capacity < figures.charge)))
}

// For good figures, and a need of no more than three days' draw: the hours that charging takes.
fn hours_needed(figures: Figures, need: u64) -> u64
    requires { (GoodFigures figures) × (need ≤ 3000000) }
    ensures { result ≡ hours_needed figures need }
{
    if need <= figures.charge {
        return 0;
    }
    (need - figures.charge + (figures.rate - 1)) / figures.rate
}

// For good figures and a day near the range: the charging for a stretch, where it may begin with day `from`. Refusal 13 where
// need exceeds capacity; 14 where the hours do not fit.
fn planned(from: u64, stretch: NextStretch, figures: Figures) -> Result<Charging, Refusal>
    requires { (GoodFigures figures) × (from ≤ 5000000) }
    ensures { charged result ≡ planned_for from (told stretch) figures }
{
    let need = figures.draw * stretch.length;
    if figures.capacity < need {
        return Err(Refusal::NeedExceedsCapacity);
    }
    let hours = hours_needed(figures, need);
    let begins = HOURS_OF_DAY * stretch.first;
    if begins < HOURS_OF_DAY * from + hours {
        return Err(Refusal::HoursDoNotFit);
    }
    Ok(Charging {
        start: begins - hours,
        hours,
        stretch,
    })
}

fn asked(wing: u64, day: u64, figures: Figures) -> Result<Charging, Refusal>
    ensures { charged result ≡ charge_answer wing day figures }
{
    let wing = Wing::try_from(wing)?;
    if days::out_of_range(day) {
        return Err(Refusal::DayOutOfRange);
    }
    if bad_figures(figures) {
        return Err(Refusal::BadFigure);
    }
    let ahead = stretch_code::stretch_from(wing, day).ok_or(Refusal::NoStretch)?;
    if ahead.first <= day {
        let from = ahead.first + ahead.length;
        let next = stretch_code::stretch_from(wing, from).ok_or(Refusal::NoStretch)?;
        return planned(from, next, figures);
    }
    planned(day, ahead, figures)
}

// When to begin charging for a wing's next stretch that begins after the day. Refusal 15 for a wing that is neither 1 nor 2;
// 4 for a day outside the range; 12 for a figure outside its range; 9 where no stretch begins after the day; 13 where need
// exceeds capacity; 14 where the hours do not fit.
pub fn charge_start(
    wing: u64,
    day: u64,
    draw: u64,
    capacity: u64,
    rate: u64,
    charge: u64,
) -> ChargeAnswer
    ensures { result ≡ charge_answer wing day (record { draw = draw; capacity = capacity; rate = rate; charge = charge }) }
{
    let figures = Figures {
        draw,
        capacity,
        rate,
        charge,
    };
    match asked(wing, day, figures) {
        Ok(c) => ChargeAnswer {
            refusal: 0,
            start: c.start,
            hours: c.hours,
            first: c.stretch.first,
            length: c.stretch.length,
        },
        Err(why) => ChargeAnswer {
            refusal: why.number(),
            ..ChargeAnswer::default()
        },
    }
}
