// The 78 slab sizes, what a frame takes of a slot, and the class of an object (document 01, "Sizes and frames").
//
//     match sizes::slab_for_size(60) {
//         Ok(slab) => ..,        // slab 1: 60 bytes and their frame need 65 of its 80
//         Err(refusal) => ..,  // 2, beyond the largest class
//     }
#![tactic(auto)]

ghost use Rattle.std.specs.Prelude.{◌≡◌, cond, ◌&&◌, ◌≤◌, ◌<◌, eqb, leb, length};
ghost use Rattle.sizes.specs.Sizes.{slabs, slab_sizes, size_of, is_slab_size, field_width, longest_object, slab_for, class_of};
ghost use Rattle.sizes.specs.Table.{Ascends, ClassRule};
ghost use Rattle.sizes.specs.OddPart.{goes};
ghost use Rattle.sizes.specs.Edges.{longest_in_first, longest_with2, longest_with8};

use refusal::{Kind, Refusal};

pub const SLABS: usize = 78;

pub const CHECK_WIDTH: u64 = 4;

// The longest object of the smallest slab, and with a length field of 1, 2, 4 and 8 bytes.
const LONGEST_IN_FIRST: u64 = 59;

const LONGEST_WITH_1: u64 = 219;

const LONGEST_WITH_2: u64 = 57338;

const LONGEST_WITH_4: u64 = 3221225464;

const LONGEST_WITH_8: u64 = 17179869172;

// The one size above 65,536 that is neither a power of two nor half as much again, and its slab.
const EXTRA_SIZE: u64 = 163840;

const EXTRA_SLAB: usize = 43;

pub const SLAB_SIZES: [u64; SLABS] = [
    64,
    80,
    96,
    112,
    128,
    160,
    192,
    224,
    256,
    320,
    384,
    448,
    512,
    640,
    768,
    896,
    1024,
    1280,
    1536,
    1792,
    2048,
    2560,
    3072,
    3584,
    4096,
    5120,
    6144,
    7168,
    8192,
    10240,
    12288,
    14336,
    16384,
    20480,
    24576,
    28672,
    32768,
    40960,
    49152,
    57344,
    65536,
    98304,
    131072,
    163840,
    196608,
    262144,
    393216,
    524288,
    786432,
    1048576,
    1572864,
    2097152,
    3145728,
    4194304,
    6291456,
    8388608,
    12582912,
    16777216,
    25165824,
    33554432,
    50331648,
    67108864,
    100663296,
    134217728,
    201326592,
    268435456,
    402653184,
    536870912,
    805306368,
    1073741824,
    1610612736,
    2147483648,
    3221225472,
    4294967296,
    6442450944,
    8589934592,
    12884901888,
    17179869184,
];

// The constant table, whole. Its order and the class rule are promised of what is returned.
pub fn slab_sizes() -> [u64; SLABS]
    ensures table { result ≡ slab_sizes }
    ensures order { Ascends result }
    ensures classes { ClassRule result }
{
    SLAB_SIZES
}

// The constant table in a lent list of as many entries; a list of another length is left as it was.
pub fn put_slab_sizes(list: &mut [u64])
    ensures { list.new ≡ cond (eqb (length list.old) slabs) slab_sizes list.old }
{
    if list.len() == SLABS {
        list.copy_from_slice(&slab_sizes());
    }
}

// SLAB_SIZES[slab], and 0 past its end. A constant array is laid on the stack wherever it is read, so that here, where it is hot,
// the entry is worked out: four sizes to each doubling up to 65,536, then two, and one more.
pub fn slab_size(slab: usize) -> u64
    ensures { result ≡ size_of slab }
{
    if slab < 41 {
        return ((4 + slab % 4) << (4 + slab / 4)) as u64;
    }
    if slab == EXTRA_SLAB {
        return EXTRA_SIZE;
    }
    if slab < EXTRA_SLAB {
        return ((3 + (slab - 41) % 2) << (15 + (slab - 41) / 2)) as u64;
    }
    if slab < SLABS {
        return ((3 + (slab - 42) % 2) << (15 + (slab - 42) / 2)) as u64;
    }
    0
}

// The bytes of the length field in a slot of size s.
pub fn field_width(s: u64) -> u64
    ensures { result ≡ field_width s }
{
    if s <= 255 {
        1
    } else if s <= 65535 {
        2
    } else if s <= 4294967295 {
        4
    } else {
        8
    }
}

// The longest object that a slot of size s takes; 0 where a frame does not fit.
pub fn longest_object(s: u64) -> u64
    ensures { result ≡ longest_object s }
{
    let frame = field_width(s) + CHECK_WIDTH;
    if frame < s { s - frame } else { 0 }
}

fn within(low: u32, x: u32, high: u32) -> bool
    ensures { result ≡ (leb low x && leb x high) }
{
    low <= x && x <= high
}

// Whether a power of two goes with an odd part.
fn goes_with(odd: u64, power: u32) -> bool
    ensures { result ≡ goes odd power }
{
    if odd == 1 {
        return within(6, power, 34);
    }
    if odd == 3 {
        return within(5, power, 32);
    }
    if odd == 5 {
        return within(4, power, 13) || power == 15;
    }
    if odd == 7 {
        return within(4, power, 13);
    }
    false
}

// Whether a slot can have this length: by its odd part and its power of two, without the table.
pub fn is_slab_size(s: u64) -> bool
    ensures { result ≡ is_slab_size s }
{
    let power = u64::trailing_zeros(s);
    if 34 < power {
        return false;
    }
    goes_with(s >> power, power)
}

// The slab of n bytes where sizes come four to each doubling. `last` is one less than what they, their length field and their check take: a slot of
// so many bytes or fewer is too short, and the slab is the number of such sizes. The three leading bits of `last` and the zeros above them tell it:
// at 64 they are 4 and 57, and 4 + 225 - 4 * 57 is 1.
fn by_quarters(n: u64) -> usize
    requires { (longest_in_first < n) × (n ≤ longest_with2) }
    ensures { result ≡ slab_for n }
{
    let last = if n <= LONGEST_WITH_1 { n + 4 } else { n + 5 };
    let zeros = u64::leading_zeros(last);
    (last >> (61 - zeros)) as usize + 225 - (4 * zeros) as usize
}

// The same by two leading bits, where sizes come two to each doubling: at 65,536 they are 2 and 47, and 2 + 133 - 2 * 47 is 41; one more from the extra
// size on.
fn by_halves(n: u64) -> usize
    requires { (longest_with2 < n) × (n ≤ longest_with8) }
    ensures { result ≡ slab_for n }
{
    let last = if n <= LONGEST_WITH_4 { n + 7 } else { n + 11 };
    let zeros = u64::leading_zeros(last);
    let base: usize = if last < EXTRA_SIZE { 133 } else { 134 };
    (last >> (62 - zeros)) as usize + base - (2 * zeros) as usize
}

// The first slab that n bytes and their frame fit.
pub fn slab_for_size(n: u64) -> Result<usize, Refusal>
    ensures { result ≡ class_of n }
{
    if n <= LONGEST_IN_FIRST {
        return Ok(0);
    }
    if n <= LONGEST_WITH_2 {
        return Ok(by_quarters(n));
    }
    if n <= LONGEST_WITH_8 {
        return Ok(by_halves(n));
    }
    Err(Refusal {
        kind: Kind::TooLarge,
        index: 0,
    })
}
