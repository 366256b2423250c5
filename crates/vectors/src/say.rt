// What the lines are made of.
use refusal::Refusal;
use std::fmt;

// Bytes, two digits each.
#[derive(Clone, Copy)]
pub struct Hex<'a>(pub &'a [u8]);

// The number and the index.
#[derive(Clone, Copy)]
pub struct Refused(pub Refusal);

impl fmt::Display for Hex<'_> {
    fn fmt<W: fmt::Write>(&self, f: &mut fmt::Formatter<W>) -> fmt::Result {
        for byte in self.0 {
            write!(f, "{byte:02x}")?;
        }
        Ok(())
    }
}

impl fmt::Display for Refused {
    fn fmt<W: fmt::Write>(&self, f: &mut fmt::Formatter<W>) -> fmt::Result {
        write!(f, "refused {} {}", self.0.kind.number(), self.0.index)
    }
}
