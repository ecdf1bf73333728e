// The code that answers what the molad notice shows.
#![tactic(auto)]

ghost use Rattle.std.specs.Prelude.{◌≡◌};
ghost use Rattle.notice.specs.Answers.{notice_answer};

use notice::NoticeAnswer;

// Refusal 1 for a year outside 1..9999; 2 for a code that is no month of the year.
pub fn notice(year: u64, month: u64) -> NoticeAnswer
    ensures { result ≡ notice_answer year month }
{
    match molad_code::molad_of(year, month) {
        Ok(molad) => {
            let hour = molad.hour();
            let part = molad.part();
            let back = u64::from(hour <= 5);
            let day = molad.day - back;
            NoticeAnswer {
                refusal: 0,
                day,
                weekday: days::weekday_of(day),
                hour: hour + 24 * back - 6,
                minute: part / 18,
                part: part % 18,
            }
        }
        Err(why) => NoticeAnswer {
            refusal: why.number(),
            ..NoticeAnswer::default()
        },
    }
}
