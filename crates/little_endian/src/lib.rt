// Numbers as bytes, the lowest byte first.
//
//     little_endian::put_at(bytes, 2, 10, fanout);
//     let fanout = little_endian::get_at(bytes, 2, 10);
//
// The part's length is the number's width, so that one function serves the widths 1, 2, 4 and 8.
#![tactic(auto)]

ghost use Rattle.std.specs.Prelude.{◌≡◌, ◌+◌, ◌*◌, ◌<◌, ◌≤◌, ◌^◌, length, take, drop};
ghost use Rattle.little_endian.specs.LittleEndian.{word, bytes_of, get_at, put_at};

// As many bytes as make a u64.
const WIDEST: usize = 8;

// The number in fewer bytes, from the highest down. A copy over zeros takes a third longer, since LLVM calls `memcpy` for it.
fn gather(bytes: &[u8]) -> u64
    requires { length bytes.now < 8 }
    ensures { result ≡ word (take 8 bytes.now) }
{
    bytes
        .iter()
        .rev()
        .fold(0, |number, byte| (number << 8) | u64::from(*byte))
}

// The number in `bytes`; where there are more than eight, in the first eight. LLVM makes one load of each width that has a branch.
pub fn get(bytes: &[u8]) -> u64
    ensures { result ≡ word (take 8 bytes.now) }
{
    if let Some(eight) = bytes.first_chunk::<WIDEST>() {
        return u64::from_le_bytes(*eight);
    }
    if let Some(four) = bytes.as_array::<4>() {
        return u64::from(u32::from_le_bytes(*four));
    }
    if let Some(two) = bytes.as_array::<2>() {
        return u64::from(u16::from_le_bytes(*two));
    }
    if let [one] = bytes {
        return u64::from(*one);
    }
    gather(bytes)
}

// Writes the lowest bytes of `number` over all of `bytes`. Byte by byte: `to_le_bytes` has eight, and here are fewer or more.
pub fn put(bytes: &mut [u8], number: u64)
    ensures { bytes.new ≡ bytes_of (length bytes.old) number }
{
    let mut rest = number;
    for byte in bytes.iter_mut() {
        *byte = (rest % 256) as u8;
        rest /= 256;
    }
}

// The number in the bytes from `start` up to `end`; 0 where there is no such part.
pub fn get_at(bytes: &[u8], start: usize, end: usize) -> u64
    ensures { result ≡ get_at start end bytes.now }
{
    match bytes.get(start..end) {
        Some(part) => get(part),
        None => 0,
    }
}

// Writes the lowest bytes of `number` from `start` up to `end`; nothing where there is no such part.
pub fn put_at(bytes: &mut [u8], start: usize, end: usize, number: u64)
    ensures { bytes.new ≡ put_at start end number bytes.old }
{
    // By a test, since of what `get_mut` lends a proof knows nothing afterwards.
    if start <= end && end <= bytes.len() {
        put(&mut bytes[start..end], number);
    }
}
