// How many calls and differences a file has, and how many of the answers are the Rust's.
ghost use Rattle.std.specs.Prelude.{◌≡◌, IfOk};
ghost use Rattle.replay_words.specs.Tallies.{more, nothing, tally_with};

use crate::line::{Line, Source};
use std::{fmt, io};

#[derive(Clone, Copy)]
pub struct Tally {
    calls: u64,
    rusts: u64,
    differences: u64,
}

// So many differences are named.
const NAMED: u64 = 8;

fn more(n: u64, is_more: bool) -> u64
    ensures { result ≡ more n is_more }
{
    n.saturating_add(u64::from(is_more))
}

impl Tally {
    pub fn new() -> Tally
        ensures { result ≡ nothing }
    {
        Tally {
            calls: 0,
            rusts: 0,
            differences: 0,
        }
    }

    // One more line of the file of this name.
    pub fn with_line(
        self,
        rt: &impl Print,
        name: &[u8],
        line: Line,
        agrees: bool,
    ) -> io::Result<Tally>
        ensures { IfOk result (λ tally. tally ≡ tally_with self line.entry.bytes.now agrees) }
    {
        if !agrees && self.differences < NAMED {
            let number = line.number();
            rt.write_all(name)?;
            println!(rt; ": line {number} of its list differs")?;
        }
        let source = line.source();
        Ok(Tally {
            calls: more(self.calls, source != Source::NoCall),
            rusts: more(self.rusts, source == Source::Rust),
            differences: more(self.differences, !agrees),
        })
    }

    // Says them, and answers how many differences there are.
    pub fn say(self, rt: &impl Print, name: &[u8]) -> io::Result<u64>
        ensures { IfOk result (λ n. n ≡ self.differences) }
    {
        rt.write_all(name)?;
        println!(rt; ": {self}")?;
        Ok(self.differences)
    }
}

impl fmt::Display for Tally {
    fn fmt<W: fmt::Write>(&self, f: &mut fmt::Formatter<W>) -> fmt::Result {
        let Tally {
            calls,
            rusts,
            differences,
        } = *self;
        write!(
            f,
            "{calls} calls compared, {rusts} of the answers the Rust's, {differences} differences"
        )
    }
}
