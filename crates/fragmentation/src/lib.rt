// Where a slab is too empty: the first slot whose object may be moved (id_allocator.rs, fragmentation_cutoff; document 01,
// "Defrag and truncation").
//
//     match fragmentation::fragmentation_cutoff(3, 8, 0.75) {
//         Ok(Some(slot)) => ..,        // slot 4
//         Ok(None) => ..,           // full enough, or no slot below the tip
//         Err(refusal) => ..,  // 1, these are no counts of a slab; 14, this is no fill ratio
//     }
#![tactic(auto)]

ghost use Rattle.std.specs.Prelude.{◌≡◌, not, min};
ghost use Rattle.std.specs.Float.Ieee as Ieee;
ghost use Rattle.address.specs.Address.{most_slots};
ghost use Rattle.fragmentation.specs.Cutoff.{is_ratio};
ghost use Rattle.fragmentation.specs.Answer.{cutoff_of};

use address::SlabAddress;
use refusal::{Kind, Refusal};

// The weight of the exponent's field in the bits of an f32, and of the leading digit, which the bits leave out.
const LEADING: u32 = 0x80_0000;

// The field of an exponent at which the digits count ones.
const ONES: u32 = 150;

// Whether r is no fill ratio: finite, above 0 and at most 1 are.
pub fn bad_ratio(r: f32) -> bool
    ensures { result ≡ not (is_ratio r) }
{
    !(0.0 < r && r <= 1.0)
}

// x cut to a whole number, from its bits: the digits, shifted by the exponent. Past the largest tip, that.
fn cut(x: f32) -> usize
    ensures { result ≡ min most_slots (Ieee.to_unsigned 64 x) }
{
    if x >= 65536.0 {
        return SlabAddress::MOST_SLOTS;
    }
    if x >= 1.0 {
        let bits = f32::to_bits(x);
        let exponent = bits / LEADING;
        let digits = bits % LEADING + LEADING;
        return (digits >> (ONES - exponent)) as usize;
    }
    0
}

// Where a slab with `live` numbers taken below `tip` is filled less than r: the first slot to look at.
pub fn fragmentation_cutoff(live: usize, tip: usize, r: f32) -> Result<Option<usize>, Refusal>
    ensures { result ≡ cutoff_of live tip r }
{
    if tip > SlabAddress::MOST_SLOTS || live > tip {
        return Err(Refusal {
            kind: Kind::WrongShape,
            index: 0,
        });
    }
    if bad_ratio(r) {
        return Err(Refusal {
            kind: Kind::RatioOutOfRange,
            index: 0,
        });
    }
    let taken = live as f32;
    if r <= taken / (tip as f32) {
        return Ok(None);
    }
    let from = cut(taken / r);
    if from < tip {
        return Ok(Some(from));
    }
    Ok(None)
}
