// A fill ratio, as it is typed: digits, of which up to seven may stand behind a point: 0.75, 1, .5.
use crate::words;
use std::str;

// What the digits as a whole number are divided by, by how many stand behind the point.
const POWERS: [f32; 8] = [
    1.0, 10.0, 100.0, 1000.0, 10000.0, 100000.0, 1000000.0, 10000000.0,
];

// A whole number below this is an f32 exactly.
const EXACT: u64 = 16777216;

#[derive(Clone, Copy)]
pub struct Ratio<'a> {
    pub typed: &'a str,
    pub value: f32,
}

// Why a word gives none, and what of it staff read then.
#[derive(Clone, Copy)]
pub enum RatioError<'a> {
    Missing,
    NoDecimal(&'a [u8]),
    OutOfRange(&'a str),
}

// Number and power are exact, so the quotient is the nearest f32.
fn decimal(typed: &str) -> Option<f32> {
    let (before, behind) = typed.split_once('.').unwrap_or((typed, ""));
    if before.is_empty() && behind.is_empty() {
        return None;
    }
    let power = POWERS.get(behind.len())?;
    let n = before
        .bytes()
        .chain(behind.bytes())
        .try_fold(0, words::with_digit)?;
    if n < EXACT {
        Some((n as f32) / *power)
    } else {
        None
    }
}

impl<'a> Ratio<'a> {
    // What a word such as ratio=0.75 says.
    pub fn of(word: &'a [u8]) -> Result<Ratio<'a>, RatioError<'a>> {
        let Some(typed) = word.strip_prefix(words::RATIO) else {
            return Err(RatioError::Missing);
        };
        let Ok(typed) = str::from_utf8(typed) else {
            return Err(RatioError::NoDecimal(word));
        };
        let Some(value) = decimal(typed) else {
            return Err(RatioError::NoDecimal(word));
        };
        if fragmentation::bad_ratio(value) {
            return Err(RatioError::OutOfRange(typed));
        }
        Ok(Ratio { typed, value })
    }
}
