// An object in its slot: the object, zeros, its length, and the check of all before it (document 01, "Sizes and frames"). A slot is accepted
// exactly if it is what a write of some object gives (request 2026-02).
//
//     match Slab::write(slot, object) {
//         Ok(()) => ..,
//         Err(refusal) => ..,  // 1, no slot has this length; 5, the object is too long; the slot is as it was
//     }
//     match Slab::verdict(slot) {
//         Ok(n) => .. &slot[..n] ..,
//         Err(refusal) => ..,  // 1; 4, the check differs; 5, the stored length is too long; 18, the gap is not zero
//     }
//
// `Slab::read(slot)` hands back that part of the slot at once, and the empty part where the verdict refuses. The slot's
// length says its slab, and with it the width of the length field: one body serves the widths 1, 2, 4 and 8.
#![tactic(auto)]

ghost use Rattle.std.specs.Prelude.{true, ◌≡◌, ◌≤◌, length};
ghost use Rattle.sizes.specs.Sizes.{is_slab_size, longest_object};
ghost use Rattle.frame.specs.Frame.{Writing, writing, framed, verdict_of, object_part};

use refusal::{Kind, Refusal};

// The bytes of the smallest slot.
const SMALLEST: usize = 64;

#[derive(Clone, Copy)]
pub struct Slab {}

// Whether a slot has this length. The smallest is asked for first: the compiler then drops its own tests whether a frame fits.
fn is_slot(len: usize) -> bool
    ensures { result ≡ is_slab_size len }
{
    len >= SMALLEST && sizes::is_slab_size(len as u64)
}

// Where the length field starts in a slot.
fn longest_in(slot: &[u8]) -> usize
    ensures { result ≡ longest_object (length slot.now) }
{
    sizes::longest_object(slot.len() as u64) as usize
}

// The slot is laid out anew for an object that fits it.
fn lay(slot: &mut [u8], object: &[u8])
    requires { (is_slab_size (length slot.old) ≡ true) × (length object.now ≤ longest_object (length slot.old)) }
    ensures { slot.new ≡ framed (length slot.old) object.now }
{
    let start = longest_in(slot);
    let end = slot.len() - seal::CHECK_WIDTH;
    let n = list_parts::copy(object, slot);
    little_endian::put_at(slot, n, start, 0);
    little_endian::put_at(slot, start, end, n as u64);
    seal::write(slot);
}

impl Slab {
    // Writes the object into the slot.
    pub fn write(slot: &mut [u8], object: &[u8]) -> Result<(), Refusal>
        ensures { ◌≡◌ {A = Writing} (record { answer = result; slot = slot.new })
            (writing slot.old object.now) }
    {
        if !is_slot(slot.len()) {
            return Err(Refusal::of(Kind::WrongShape));
        }
        if longest_in(slot) < object.len() {
            return Err(Refusal::of(Kind::TooLong));
        }
        lay(slot, object);
        Ok(())
    }

    // Whether the slot holds an object, and of which length.
    pub fn verdict(slot: &[u8]) -> Result<usize, Refusal>
        ensures { result ≡ verdict_of slot.now }
    {
        if !is_slot(slot.len()) {
            return Err(Refusal::of(Kind::WrongShape));
        }
        if !seal::agrees(slot) {
            return Err(Refusal::of(Kind::CheckDiffers));
        }
        let start = longest_in(slot);
        let end = slot.len() - seal::CHECK_WIDTH;
        let n = little_endian::get_at(slot, start, end) as usize;
        if start < n {
            return Err(Refusal::of(Kind::TooLong));
        }
        if !zeros::all_zero(&slot[n..start]) {
            return Err(Refusal::of(Kind::GapNotZero));
        }
        Ok(n)
    }

    // The object in the slot: the slot's own first bytes.
    pub fn read(slot: &[u8]) -> &[u8]
        ensures { result.now ≡ object_part (verdict_of slot.now) slot.now }
    {
        let Ok(n) = Slab::verdict(slot) else {
            return &slot[..0];
        };
        &slot[..n]
    }
}
