// dayclock: for each date among its arguments, the kind of Settlement Day it is and its periods by both clocks.
#![tactic(auto)]

use market::date::Date;
use std::alloc::{AllocError, Global};
use std::env::{Env, FillError};
use std::io;
use std::process::ExitCode;
use std::str::from_utf8;
use timetable::table::table;
use timetable::word::read_date;

// A longer argument is no date, and is not shown.
const LONGEST: usize = 64;

fn print_usage(rt: &HostRuntime) -> io::Result<()> {
    println!(rt; "usage: dayclock YYYY-MM-DD ..")?;
    println!(rt;
        "For each date from 2024-01-01 to 2055-12-31: its kind of Settlement Day, its number of periods,"
    )?;
    println!(rt;
        "and for each Settlement Period the clock time at which it ends and the UTC date and period it is."
    )
}

// What an argument is called: its text, with quotes and escapes, or its place where it is no text.
fn called(heap: Global, place: usize, word: &[u8]) -> Result<String, AllocError> {
    match from_utf8(word) {
        Ok(text) => format!(in heap; "{text:?}"),
        Err(_) => format!(in heap; "argument {place}"),
    }
}

// Two flags and no enum: each may hold without the other, and neither has a value beside it.
// The talk with whoever called the program: whether something that was asked for has been said, and that a word is no date.
#[derive(Drop)]
struct Talk<'a> {
    rt: &'a HostRuntime,
    answers: bool,
    complaints: bool,
}

impl Talk<'_> {
    // Says that an argument is no date, and what one looks like.
    fn complain(&mut self, argument: &str) -> io::Result<()> {
        self.complaints = true;
        eprintln!(self.rt;
            "dayclock: {argument} is no date: expected YYYY-MM-DD, from 2024-01-01 to 2055-12-31"
        )
    }

    // Prints the table of a date, with an empty line before it unless it is the first answer.
    fn show(&mut self, day: Date) -> io::Result<()> {
        if self.answers {
            println!(self.rt; "")?;
        }
        self.answers = true;
        self.rt.print(table(self.rt.alloc(), day)?)
    }

    // Shows how the program is used.
    fn help(&mut self) -> io::Result<()> {
        self.answers = true;
        print_usage(self.rt)
    }

    // Answers a word: a date by its table, a call for help by the usage, and any other by a complaint.
    fn answer(&mut self, place: usize, word: &[u8]) -> io::Result<()> {
        if let Some(day) = read_date(word) {
            self.show(day)
        } else if word == b"--help".as_slice() {
            self.help()
        } else {
            self.complain(called(self.rt.alloc(), place, word)?.as_str())
        }
    }

    // Answers every argument, one after the other.
    // `env::args` refuses all arguments where one of them is no text; here each is told by its place, as one that is too long is.
    fn answer_all(&mut self) -> io::Result<()> {
        let mut buffer = [0u8; LONGEST];
        for place in 1..usize::MAX {
            match self.rt.arg(place, &mut buffer) {
                Ok(length) => self.answer(place, &buffer[..length])?,
                Err(FillError::TooLong) => {
                    self.complain(format!(in self.rt.alloc(); "argument {place}")?.as_str())?;
                }
                Err(FillError::NotPresent) => break,
            }
        }
        Ok(())
    }
}

fn main(rt: HostRuntime) -> io::Result<ExitCode> {
    let mut talk = Talk {
        rt: &rt,
        answers: false,
        complaints: false,
    };
    talk.answer_all()?;
    if talk.complaints {
        return Ok(ExitCode::FAILURE);
    }
    if !talk.answers {
        talk.help()?;
    }
    Ok(ExitCode::SUCCESS)
}
