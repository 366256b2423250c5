// The register of CRC-32 after many bytes, sixteen a turn: LLVM makes vector code of each loop here.
//
//     let register = crc_blocks::over(0xFFFF_FFFF, bytes);  // quicker than crc_words from some 1,500 bytes on
//
// x^515 + x^234 + x^230 + x^171 + 1 is a multiple of the polynomial, and so is the same with each power eight times as high. So a byte may
// be taken away at a place and put back 281, 285, 344 and 515 bytes on; what is put back stands in the last 515 bytes that were made.
#![tactic(auto)]

ghost use Rattle.std.specs.Prelude.{◌≡◌, ℕ, ◌+◌, ◌<◌, ◌≤◌, ◌^◌, List, ◌++◌, replicate, length, get_or, take, drop};
ghost use Rattle.crc_steps.specs.Crc32.{crc_over};
ghost use Rattle.crc_blocks.specs.Sparse.{pend, taken_in, left, Off};

// As many bytes as are pending.
const PENDING: usize = 515;

// As many as are put off in a turn.
const BLOCK: usize = 2048;

// The bytes made, with room for a block after those pending.
const MADE: usize = PENDING + BLOCK;

// At the start only the register is pending.
fn seed(register: u32) -> [u8; MADE]
    ensures { pend (take 515 result) ≡ register }
{
    let mut made = [0u8; MADE];
    made[..4].copy_from_slice(&register.to_le_bytes());
    made
}

// The bytes are put off.
fn put_off(made: &mut [u8], bytes: &[u8])
    requires { (length made.old ≡ 2563) × (length bytes.now ≤ 2048) }
    ensures { Off bytes.now (pend (take 515 made.old)) (pend (take 515 (drop (length bytes.now) made.new))) }
{
    for (j, byte) in bytes.iter().enumerate() {
        made[j + PENDING] = byte ^ (made[j + 234] ^ made[j + 230] ^ made[j + 171] ^ made[j]);
    }
}

// The bytes put off are done with, and those pending come to the front.
fn slide(made: &mut [u8; MADE])
    ensures { take 515 made.new ≡ take 515 (drop 2048 made.old) }
{
    made.copy_within(BLOCK.., 0);
}

// The bytes pending, before as many zeros.
fn padded(pending: &[u8]) -> [u8; 2 * PENDING]
    requires { length pending.now ≡ 515 }
    ensures { result ≡ pending.now ++ replicate 515 0 }
{
    let mut window = [0u8; 2 * PENDING];
    window[..PENDING].copy_from_slice(pending);
    window
}

// What is pending goes into the last bytes, and nothing is pending after them.
fn take_in(window: &mut [u8; 2 * PENDING], last: &[u8])
    requires { length last.now ≡ 515 }
    ensures { (k : ℕ) → k < 515 → get_or window.new k 0 ≡ taken_in window.old k (get_or last.now k 0) }
{
    for (j, byte) in last.iter().enumerate() {
        window[j] = byte ^ (window[j + 234] ^ window[j + 230] ^ window[j + 171] ^ window[j]);
    }
}

// The register after the last bytes.
fn settle(pending: &[u8], last: &[u8]) -> u32
    requires { (length pending.now ≡ 515) × (length last.now ≡ 515) }
    ensures { result ≡ left last.now (pend pending.now) }
{
    let mut window = padded(pending);
    take_in(&mut window, last);
    crc_words::over(0, &window[..PENDING])
}

// The register after as many bytes as are pending, or more.
fn many(register: u32, bytes: &[u8]) -> u32
    requires { 515 ≤ length bytes.now }
    ensures { result ≡ crc_over register bytes.now }
{
    let (early, last) = bytes.split_at(bytes.len() - PENDING);
    let (blocks, rest) = early.as_chunks::<BLOCK>();
    let mut made = seed(register);
    for block in blocks {
        put_off(&mut made, block);
        slide(&mut made);
    }
    put_off(&mut made, rest);
    let n = rest.len();
    settle(&made[n..n + PENDING], last)
}

// The register after `bytes`.
pub fn over(register: u32, bytes: &[u8]) -> u32
    ensures { result ≡ crc_over register bytes.now }
{
    if bytes.len() < PENDING {
        return crc_words::over(register, bytes);
    }
    many(register, bytes)
}
