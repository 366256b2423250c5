// What a line is, and which table a peek or a poke is of.

// The number is no kind's, or no table's.
#[derive(Clone, Copy)]
pub struct NoKind;

#[derive(Clone, Copy)]
pub enum Table {
    IdMarks,
    Locations,
    SlotMarks,
    Owners,
    Batch,
    Tallies,
    // Words of the tallies that are read as 0 or 1.
    Used,
    // A row of what rows carry.
    Carried,
}

impl TryFrom<u64> for Table {
    type Error = NoKind;

    fn try_from(number: u64) -> Result<Table, NoKind> {
        match number {
            0 => Ok(Table::IdMarks),
            1 => Ok(Table::Locations),
            2 => Ok(Table::SlotMarks),
            3 => Ok(Table::Owners),
            4 => Ok(Table::Batch),
            5 => Ok(Table::Tallies),
            6 => Ok(Table::Used),
            7 => Ok(Table::Carried),
            _ => Err(NoKind),
        }
    }
}

#[derive(Clone, Copy)]
pub enum Kind {
    // The capacities from this line on.
    Store,
    Counted,
    Peek,
    Fresh,
    NewId,
    Lookup,
    Offer,
    Commit,
    Abandon,
    Release,
    Rebuild,
    Defrag,
    Counters,
    Truncation,
    Report,
    Poke(Table),
    SnapshotLength,
    SnapshotWrite,
    Page,
    Reason,
}

impl TryFrom<u64> for Kind {
    type Error = NoKind;

    fn try_from(number: u64) -> Result<Kind, NoKind> {
        match number {
            1 => Ok(Kind::Store),
            2 => Ok(Kind::Counted),
            3 => Ok(Kind::Peek),
            4 => Ok(Kind::Fresh),
            5 => Ok(Kind::NewId),
            6 => Ok(Kind::Lookup),
            7 => Ok(Kind::Offer),
            8 => Ok(Kind::Commit),
            9 => Ok(Kind::Abandon),
            10 => Ok(Kind::Release),
            11 => Ok(Kind::Rebuild),
            12 => Ok(Kind::Defrag),
            13 => Ok(Kind::Counters),
            14 => Ok(Kind::Truncation),
            15 => Ok(Kind::Report),
            16..=21 | 23 => Ok(Kind::Poke(Table::try_from(number - 16)?)),
            24 => Ok(Kind::SnapshotLength),
            25 => Ok(Kind::SnapshotWrite),
            26 => Ok(Kind::Page),
            27 => Ok(Kind::Reason),
            _ => Err(NoKind),
        }
    }
}
