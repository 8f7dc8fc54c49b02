// Dates, times and numbers as they are written in the table.
ghost use Rattle.std.specs.Prelude.{Some};
ghost use Rattle.timetable.specs.Text.{date_text, time_text, kind_text};

use market::clock::DayKind;
use market::clock_time::{ClockTime, Zone};
use market::date::Date;
use std::fmt;

// A date, as 2025-03-30.
#[derive(Clone, Copy)]
pub(crate) struct DateText(pub Date);

impl fmt::Display for DateText {
    ghost output = { λ d. Some (date_text d.0) };

    #[tactic(auto, using(crate::proofs::Padded::zero_filled))]
    fn fmt<W: fmt::Write>(&self, f: &mut fmt::Formatter<W>) -> fmt::Result {
        let year = self.0.year();
        let month = self.0.month();
        let day = self.0.day();
        write!(f, "{year}-{month:02}-{day:02}")
    }
}

// A clock time, as 00:30 BST.
#[derive(Clone, Copy)]
pub(crate) struct TimeText(pub ClockTime);

impl fmt::Display for TimeText {
    ghost output = { λ t. Some (time_text t.0) };

    #[tactic(auto, using(crate::proofs::Padded::zero_filled))]
    fn fmt<W: fmt::Write>(&self, f: &mut fmt::Formatter<W>) -> fmt::Result {
        let ClockTime { hour, minute, zone } = self.0;
        let zone = match zone {
            Zone::Gmt => "GMT",
            Zone::Bst => "BST",
        };
        write!(f, "{hour:02}:{minute:02} {zone}")
    }
}

// The kind of a day in words.
#[derive(Clone, Copy)]
pub(crate) struct KindText(pub DayKind);

impl fmt::Display for KindText {
    ghost output = { λ k. Some (kind_text k.0) };

    fn fmt<W: fmt::Write>(&self, f: &mut fmt::Formatter<W>) -> fmt::Result {
        f.write_str(match self.0 {
            DayKind::Winter => "winter day",
            DayKind::Summer => "summer day",
            DayKind::SpringChange => "spring clock change",
            DayKind::AutumnChange => "autumn clock change",
        })
    }
}
