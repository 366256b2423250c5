// The CRC-32 of ISO 3309 and ITU-T V.42, as crc32fast computes it.
//
//     let check = crc32::hash(bytes);
//
// or piece by piece, the register carried from piece to piece:
//
//     let register = crc32::update(crc32::update(crc32::START, first), second);
//     let check = crc32::finish(register);
//
// Fast, because a sparse multiple of the polynomial says how a bit may be taken away at one place and put back at a few later ones. So bytes
// are read whole words at a time, and put off until one word is left; only this is divided (crc_words).
//   crc_words   up to LONG bytes: eight a turn, in registers; the odd bytes come first, as a word of their own.
//   crc_blocks  from there on: a multiple whose places are whole bytes, so that LLVM moves sixteen at once.
// What the standard says, a bit at a time, is in crc_steps, and every function is proved equal to it.
#![tactic(auto)]

ghost use Rattle.std.specs.Prelude.{◌≡◌};
ghost use Rattle.std.specs.Int.Bits.{bit_xor};
ghost use Rattle.crc_steps.specs.Crc32.{crc_over, crc32};

// The register before the first byte.
pub const START: u32 = 0xFFFF_FFFF;

// From so many bytes on the code for many bytes is the faster.
const LONG: usize = 1536;

// The register after `bytes`, from the register before them.
pub fn update(register: u32, bytes: &[u8]) -> u32
    ensures { result ≡ crc_over register bytes.now }
{
    if bytes.len() < LONG {
        return crc_words::over(register, bytes);
    }
    crc_blocks::over(register, bytes)
}

// The check value of what went through `register`.
pub fn finish(register: u32) -> u32
    ensures { result ≡ bit_xor register 0xFFFF_FFFF }
{
    register ^ 0xFFFF_FFFF
}

// The check value of `bytes`. It chooses by the length itself: as `finish(update(START, bytes))` a call took 1 ns more, since the slice is handed on twice.
pub fn hash(bytes: &[u8]) -> u32
    ensures { result ≡ crc32 bytes.now }
{
    if bytes.len() < LONG {
        return finish(crc_words::over(START, bytes));
    }
    finish(crc_blocks::over(START, bytes))
}
