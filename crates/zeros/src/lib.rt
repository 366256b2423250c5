// Whether bytes are all zero, as those between an object and its frame have to be (request 2026-02).
//
//     if !zeros::all_zero(&slot[n..start]) { .. }
//
// Eight bytes are a number, which is 0 exactly if they are. The bits of several are joined, and LLVM makes vector code of that. From eight bytes on
// the last ones are looked at with others before them, so that no single ones are left over.
#![tactic(auto)]

ghost use Rattle.std.specs.Prelude.{◌≡◌, ◌+◌, ◌%◌, ◌≤◌, eqb, length};
ghost use Rattle.zeros.specs.Zeros.{all_zero};

// The bytes of a number, of two and of four.
const WORD: usize = 8;

const TWO_WORDS: usize = 2 * WORD;

const FOUR_WORDS: usize = 4 * WORD;

// The bytes of a block where there are many.
const BLOCK: usize = 8 * WORD;

// All bits of the words in the bytes together.
fn joined(bytes: &[u8]) -> u64
    requires { length bytes.now % 8 ≡ 0 }
    ensures { eqb result 0 ≡ all_zero bytes.now }
{
    let (words, _) = bytes.as_chunks::<WORD>();
    words
        .iter()
        .fold(0, |any, word| any | u64::from_le_bytes(*word))
}

// The first bytes and the last ones, which are all of them.
fn by_ends(bytes: &[u8], width: usize) -> bool
    requires { (width % 8 ≡ 0) × (width ≤ length bytes.now) × (length bytes.now ≤ width + width) }
    ensures { result ≡ all_zero bytes.now }
{
    let any = joined(&bytes[..width]) | joined(&bytes[bytes.len() - width..]);
    any == 0
}

// Block after block, and the last one.
fn by_blocks(bytes: &[u8]) -> bool
    requires { 64 ≤ length bytes.now }
    ensures { result ≡ all_zero bytes.now }
{
    let (blocks, _) = bytes.as_chunks::<BLOCK>();
    let mut any = 0;
    for block in blocks {
        any |= joined(block);
    }
    any |= joined(&bytes[bytes.len() - BLOCK..]);
    any == 0
}

// Whether every byte is 0.
pub fn all_zero(bytes: &[u8]) -> bool
    ensures { result ≡ all_zero bytes.now }
{
    if bytes.len() < WORD {
        return bytes.iter().fold(0, |any, byte| any | *byte) == 0;
    }
    if bytes.len() < TWO_WORDS {
        return by_ends(bytes, WORD);
    }
    if bytes.len() < FOUR_WORDS {
        return by_ends(bytes, TWO_WORDS);
    }
    if bytes.len() < BLOCK {
        return by_ends(bytes, FOUR_WORDS);
    }
    by_blocks(bytes)
}
