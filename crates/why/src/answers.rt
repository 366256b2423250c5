// What is said of a group's ids.
use crate::ratio::{Ratio, RatioError};
use crate::rows::Rows;
use crate::sentences::Sentence;
use crate::store::Store;
use crate::{store, words};
use refusal::{Kind, Refusal};
use staff_files::{PATH_MAX, Unread};
use std::alloc::AllocError;
use std::env::Env;
use std::io;
use std::ops::Range;
use std::rt::Files;

// Why there is no answer. Where the file cannot be opened, standard error has said why.
#[derive(Drop)]
pub enum NoAnswer<'a> {
    Ratio(RatioError<'a>),
    Unopened,
    Block(Refusal),
    Row(Refusal),
    Failed(io::Error),
}

impl<'a> From<RatioError<'a>> for NoAnswer<'a> {
    fn from(error: RatioError<'a>) -> NoAnswer<'a> {
        NoAnswer::Ratio(error)
    }
}

impl<'a> From<io::Error> for NoAnswer<'a> {
    fn from(error: io::Error) -> NoAnswer<'a> {
        NoAnswer::Failed(error)
    }
}

impl<'a> From<AllocError> for NoAnswer<'a> {
    fn from(error: AllocError) -> NoAnswer<'a> {
        NoAnswer::Failed(io::Error::from(error))
    }
}

// A file that is too long is no whole number of blocks, and what is left of one that is cut short is none.
impl<'a> From<Unread> for NoAnswer<'a> {
    fn from(error: Unread) -> NoAnswer<'a> {
        match error {
            Unread::Unopened => NoAnswer::Unopened,
            Unread::TooLong | Unread::CutShort => NoAnswer::Block(Refusal::of(Kind::WrongShape)),
            Unread::Failed(error) => NoAnswer::Failed(error),
        }
    }
}

fn say_word(
    rt: &(impl Env + Print),
    store: &Store,
    ratio: Ratio<'_>,
    place: usize,
) -> io::Result<()> {
    let mut space = [0; PATH_MAX];
    let word = staff_files::word(rt, place, &mut space);
    match words::id_of(word) {
        Some(id) => say_id(rt, store, ratio, id),
        None => {
            rt.write_all(word)?;
            println!(rt; ": no id such as id=8")
        }
    }
}

fn say_id(rt: &impl Print, store: &Store, ratio: Ratio<'_>, id: u64) -> io::Result<()> {
    let reason = store.reason(id, ratio.value);
    let typed = ratio.typed;
    println!(rt; "{}", Sentence { id, typed, reason })
}

// Of each id that is asked at these places, or of each row's where there are none.
pub fn answer<'a, R: Files + Env + Print + Eprint + AllocGlobal>(
    rt: &R,
    name: &[u8],
    typed: &'a [u8],
    asked: Range<usize>,
) -> Result<(), NoAnswer<'a>> {
    let ratio = Ratio::of(typed)?;
    let file = staff_files::load(rt, name, store::longest())?;
    let rows = Rows::of_file(rt.alloc(), &file)?;
    let store = Store::of_rows(rt.alloc(), &rows)?;
    if asked.is_empty() {
        for id in &rows.ids {
            say_id(rt, &store, ratio, *id)?;
        }
    }
    for place in asked {
        say_word(rt, &store, ratio, place)?;
    }
    Ok(())
}
