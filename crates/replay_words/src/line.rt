// A line: how many bytes it has, its kind, its place in the readable list with who gave the answer, and its numbers. Of a call these are the
// status that the exported function answers, the values that it puts into the lent slice, and what it is asked with.
ghost use Rattle.std.specs.Prelude.{◌≡◌, ◌-◌, ◌≤◌, ◌/◌, ◌%◌, length, nat_le, if◌then◌else◌};
ghost use Rattle.replay_words.specs.Lines.{line_word, line_bytes, source};
ghost use Rattle.replay_words.specs.Sources.{source_of};
ghost use Rattle.replay_words.specs.Rows.{column_of, column_is, says};

// Who gave the answer that a line says.
#[derive(Clone, Copy, PartialEq, Eq, Debug)]
pub enum Source {
    // The line is no call.
    NoCall,
    Model,
    Rust,
    // No line of the oracle's lists says so.
    Nobody,
}

impl From<u64> for Source {
    ghost from_gives = { λ number source. source ≡ source_of number };

    fn from(number: u64) -> Source {
        match number {
            0 => Source::NoCall,
            1 => Source::Model,
            2 => Source::Rust,
            _ => Source::Nobody,
        }
    }
}

#[derive(Clone, Copy)]
pub struct Line<'a> {
    pub bytes: &'a [u8],
}

impl<'a> Line<'a> {
    // Word k; 0 where there is none.
    #[tactic(auto, unfolding(crate::specs::Lines::line_word, little_endian::specs::LittleEndian::get_at))]
    pub fn word(self, k: usize) -> u64
        ensures { result ≡ line_word self.entry.bytes.now k }
    {
        if self.bytes.len() / 8 <= k {
            return 0;
        }
        let at = k * 8;
        little_endian::get_at(self.bytes, at, at + 8)
    }

    // Word k as a count; 0 where it is more than there can be.
    pub fn count(self, k: usize, most: usize) -> usize
        ensures value { result ≡ (if nat_le (line_word self.entry.bytes.now k) most then line_word self.entry.bytes.now k else 0) }
        ensures at_most { result ≤ most }
    {
        let n = self.word(k) as usize;
        if n <= most { n } else { 0 }
    }

    // What the line is; each program has its own kinds.
    pub fn kind(self) -> u64
        ensures { result ≡ line_word self.entry.bytes.now 1 }
    {
        self.word(1)
    }

    // Its place in the readable list.
    pub fn number(self) -> u64
        ensures { result ≡ line_word self.entry.bytes.now 2 / 4 }
    {
        self.word(2) / 4
    }

    // Who gave the answer.
    pub fn source(self) -> Source
        ensures { result ≡ source_of (source self.entry.bytes.now) }
    {
        Source::from(self.word(2) % 4)
    }

    // Fills a column of rows: as many words, from word `from` on, as the column has rows.
    pub fn fill(self, from: u32, column: &mut [u64])
        ensures { column.new ≡ column_of self.entry.bytes.now from (length column.old) }
    {
        for (i, row) in column.iter_mut().enumerate() {
            *row = self.word(from as usize + i);
        }
    }

    // Whether the column holds them.
    pub fn holds(self, from: u32, column: &[u64]) -> bool
        ensures { result ≡ column_is self.entry.bytes.now from column.now }
    {
        column
            .iter()
            .enumerate()
            .all(|(i, row)| *row == self.word(from as usize + i))
    }

    // Whether the line says this status, and then these values.
    pub fn says(self, status: u64, values: &[u64]) -> bool
        ensures { result ≡ says self.entry.bytes.now status values.now }
    {
        status == self.word(3) && self.holds(4, values)
    }
}

// How many bytes the first line of what is left has; all, where it does not say how many. So it has some where any are left.
#[tactic(auto, unfolding(crate::specs::Lines::line_bytes))]
pub fn bytes(left: &[u8]) -> usize
    ensures value { result ≡ line_bytes left.now }
    ensures upper_bound { (result ≤ length left.now) × (length left.now - result ≤ length left.now - 1) }
{
    let n = Line { bytes: left }.word(0) as usize;
    if n <= left.len() && 0 < n {
        n
    } else {
        left.len()
    }
}

// The lines of a text, one after the other.
#[derive(Clone, Copy)]
pub struct Lines<'a> {
    pub left: &'a [u8],
}

impl<'a> Iterator for Lines<'a> {
    ghost use Rattle.std.specs.Prelude.{MatchOption, [], take, drop};
    ghost use Rattle.std.specs.Iterator.{at_most};

    type Item = Line<'a>;

    ghost next_gives = { λ s r t. MatchOption r ((s.left.now ≡ []) × (t.left.now ≡ [])) (λ line. (line.bytes.now ≡ take (line_bytes s.left.now) s.left.now) × (t.left.now ≡ drop (line_bytes s.left.now) s.left.now)) };

    ghost remaining = { λ s. at_most (length s.left.now) };

    fn next(&mut self) -> Option<Line<'a>> {
        if self.left.is_empty() {
            return None;
        }
        let (line, left) = self.left.split_at(bytes(self.left));
        self.left = left;
        Some(Line { bytes: line })
    }
}
