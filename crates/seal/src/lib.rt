// Bytes that end in their own check: the CRC-32 of all before it, XOR AF hex, in four bytes, little-endian.
//
//     seal::write(slot);          // over the last four bytes
//     if seal::agrees(slot) { .. }
#![tactic(auto)]

ghost use Rattle.std.specs.Prelude.{◌≡◌, ◌-◌};
ghost use Rattle.seal.specs.Seal.{check_of, is_signed, resigned};

pub const CHECK_WIDTH: usize = 4;
// What the check is XORed with.
const MASK: u32 = 0xAF;

fn wide(check: u32) -> u64
    ensures { result ≡ check }
{
    check as u64
}

// Where the check starts in so many bytes.
fn body_length(len: usize) -> usize
    ensures { result ≡ len - 4 }
{
    if len < CHECK_WIDTH {
        0
    } else {
        len - CHECK_WIDTH
    }
}

// The check of a body.
pub fn check(body: &[u8]) -> u32
    ensures { result ≡ check_of body.now }
{
    crc32::hash(body) ^ MASK
}

// Writes the check over the last four bytes.
pub fn write(bytes: &mut [u8])
    ensures { bytes.new ≡ resigned bytes.old }
{
    let end = body_length(bytes.len());
    let sum = wide(check(&bytes[..end]));
    little_endian::put(&mut bytes[end..], sum);
}

// Whether the last four bytes are the check of those before.
pub fn agrees(bytes: &[u8]) -> bool
    ensures { result ≡ is_signed bytes.now }
{
    let end = body_length(bytes.len());
    wide(check(&bytes[..end])) == little_endian::get(&bytes[end..])
}
