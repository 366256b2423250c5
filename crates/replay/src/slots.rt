// Calls on bytes. What a slot or a cookie holds is some bytes, zeros, some bytes: four words of the line, a COUNT and a WHERE for each end.
ghost use Rattle.std.specs.Prelude.{◌≤◌};

use crate::said;
use frame::Slab;
use replay_words::line::Line;

// What a lent buffer holds before a call, so that what the call leaves of it can be told: a ramp.
const BEFORE: u64 = 1 + 256 * 7;

// Puts what the four words from word k on say into zeros.
fn put_ends(line: Line, k: usize, zeros: &mut [u8])
    requires { k ≤ 8 }
{
    said::bytes(line, k, zeros);
    let tail = said::last(zeros, line.word(k + 2) as usize);
    said::put(line, line.word(k + 3), tail);
}

// Whether the buffer holds what the four words say.
fn holds(line: Line, k: usize, s: &[u8]) -> bool
    requires { k ≤ 8 }
{
    let mut space = said::space();
    let expected = said::first(&mut space, s.len());
    put_ends(line, k, expected);
    s == &*expected
}

pub fn crc(line: Line) -> bool {
    let mut space = said::space();
    let s = said::bytes(line, 5, &mut space);
    line.says(0, &[exports::wentuhoro_crc32(s) as u64])
}

pub fn frame(line: Line) -> bool {
    let mut lent = said::space();
    let mut space = said::space();
    let slot = said::first(&mut lent, line.word(4) as usize);
    said::put(line, BEFORE, slot);
    let object = said::bytes(line, 5, &mut space);
    let status = exports::wentuhoro_frame_write(slot, object);
    line.says(status, &[]) && holds(line, 7, slot)
}

// Whether a read hands back the slot's own first n bytes. No exported call reads: a caller of C has the slot and n.
fn hands_back(slot: &[u8], n: usize) -> bool {
    n <= slot.len() && Slab::read(slot) == &slot[..n]
}

pub fn unframe(line: Line) -> bool {
    let mut space = said::space();
    let mut v = [0; 1];
    let slot = said::first(&mut space, line.word(5) as usize);
    put_ends(line, 6, slot);
    let status = exports::wentuhoro_frame_read(slot, &mut v);
    line.says(status, &v) && hands_back(slot, v[0] as usize)
}

pub fn cookie(line: Line) -> bool {
    let mut space = said::space();
    let cookie = said::first(&mut space, line.word(4) as usize);
    said::put(line, BEFORE, cookie);
    let status = exports::wentuhoro_cookie_write(line.word(5), cookie);
    line.says(status, &[]) && holds(line, 6, cookie)
}

pub fn uncookie(line: Line) -> bool {
    let mut space = said::space();
    let cookie = said::bytes(line, 5, &mut space);
    line.says(exports::wentuhoro_cookie_verify(cookie, line.word(4)), &[])
}
