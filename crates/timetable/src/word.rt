// A date as it is typed.
ghost use Rattle.timetable.specs.Word.{TwoRead, PartsRead, ReadsDate};

use market::date::Date;

// The number of two digits, or none where one of them is no digit.
fn two_digits(tens: u8, ones: u8) -> Option<u8>
    ensures { TwoRead tens ones result }
{
    let tens = char::from(tens).to_digit(10)?;
    let ones = char::from(ones).to_digit(10)?;
    Some((10 * tens + ones) as u8)
}

// The year, month and day that the word has, or none where it is not in the form 2025-03-30.
fn parts(word: &[u8]) -> Option<(u16, u8, u8)>
    ensures { PartsRead word.now result }
{
    let &[y0, y1, y2, y3, b'-', m0, m1, b'-', d0, d1] = word else {
        return None;
    };
    let century = two_digits(y0, y1)?;
    let year = two_digits(y2, y3)?;
    let month = two_digits(m0, m1)?;
    let day = two_digits(d0, d1)?;
    Some((100 * u16::from(century) + u16::from(year), month, day))
}

// The date that the word is, as 2025-03-30, or none where it is no date of the years 2024 to 2055.
#[tactic(auto, using(crate::proofs::Spelled::date_spelled, crate::proofs::Spelled::read_parts))]
pub fn read_date(word: &[u8]) -> Option<Date>
    ensures { ReadsDate word.now result }
{
    let (year, month, day) = parts(word)?;
    Date::new(year, month, day).ok()
}
