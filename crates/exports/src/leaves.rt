// Classes, checks, frames, cookies, addresses and cutoffs.
ghost use Rattle.std.specs.Prelude.{◌≡◌};
ghost use Rattle.refusal.specs.Outcomes.{granted, finished_outcome};
ghost use Rattle.crc_steps.specs.Crc32.{crc_over, crc32};
ghost use Rattle.sizes.specs.Sizes.{slabs, slab_sizes, class_of};
ghost use Rattle.sizes.specs.Outcomes.{class_outcome};
ghost use Rattle.frame.specs.Frame.{writing, verdict_of};
ghost use Rattle.frame.specs.Outcomes.{verdict_outcome};
ghost use Rattle.settings.specs.Settings.{storing, settings_of, agreement};
ghost use Rattle.settings.specs.Outcomes.{persistent_settings_outcome};
ghost use Rattle.address.specs.Address.{packed, unpacked};
ghost use Rattle.address.specs.Outcomes.{packed_outcome, unpacked_outcome};
ghost use Rattle.fragmentation.specs.Answer.{cutoff_of};
ghost use Rattle.fragmentation.specs.Outcomes.{cutoff_outcome};
ghost use Rattle.exports_status.specs.Status.{status_of, or_zeros, Exported, exported};

use crate::values;
use address::SlabAddress;
use exports_status::{WRONG_LENGTH, finished, status};
use frame::Slab;
use settings::PersistentSettings;

// The constant table of slab sizes: 78 values.
pub fn wentuhoro_slab_sizes(sizes: &mut [u64]) -> u64
    ensures { ◌≡◌ {A = Exported} (record { status = result; lent = sizes.new })
        (exported slabs (granted slab_sizes) sizes.old) }
{
    if sizes.len() != SlabAddress::SLABS {
        return WRONG_LENGTH;
    }
    sizes::put_slab_sizes(sizes);
    0
}

// The slab for an object of n bytes. One value.
pub fn wentuhoro_class(n: u64, slab: &mut [u64]) -> u64
    ensures { ◌≡◌ {A = Exported} (record { status = result; lent = slab.new })
        (exported 1 (class_outcome (class_of n)) slab.old) }
{
    if slab.len() != 1 {
        return WRONG_LENGTH;
    }
    match sizes::slab_for_size(n) {
        Ok(k) => {
            slab[0] = k as u64;
            0
        }
        Err(r) => status(r),
    }
}

// The CRC-32 of ISO 3309.
pub fn wentuhoro_crc32(bytes: &[u8]) -> u32
    ensures { result ≡ crc32 bytes.now }
{
    crc32::hash(bytes)
}

// The register after more bytes; it starts at FFFFFFFF and is complemented at the end.
pub fn wentuhoro_crc32_update(register: u32, bytes: &[u8]) -> u32
    ensures { result ≡ crc_over register bytes.now }
{
    crc32::update(register, bytes)
}

// Writes an object into a slot.
pub fn wentuhoro_frame_write(slot: &mut [u8], object: &[u8]) -> u64
    ensures { (result ≡ status_of (finished_outcome (writing slot.old object.now).answer))
        × (slot.new ≡ (writing slot.old object.now).slot) }
{
    finished(Slab::write(slot, object))
}

// The length of the object in a slot: the slot's own first bytes. One value.
pub fn wentuhoro_frame_read(slot: &[u8], length: &mut [u64]) -> u64
    ensures { ◌≡◌ {A = Exported} (record { status = result; lent = length.new })
        (exported 1 (verdict_outcome (verdict_of slot.now)) length.old) }
{
    if length.len() != 1 {
        return WRONG_LENGTH;
    }
    match Slab::verdict(slot) {
        Ok(n) => {
            length[0] = n as u64;
            0
        }
        Err(r) => status(r),
    }
}

// Writes a settings cookie of 64 bytes.
pub fn wentuhoro_cookie_write(leaf_fanout: u64, cookie: &mut [u8]) -> u64
    ensures { (result ≡ status_of (finished_outcome (storing leaf_fanout cookie.old).answer))
        × (cookie.new ≡ (storing leaf_fanout cookie.old).cookie) }
{
    finished(PersistentSettings::serialize(leaf_fanout, cookie))
}

// The fanout in a settings cookie. One value.
pub fn wentuhoro_cookie_read(cookie: &[u8], leaf_fanout: &mut [u64]) -> u64
    ensures { ◌≡◌ {A = Exported} (record { status = result; lent = leaf_fanout.new })
        (exported 1 (persistent_settings_outcome (settings_of cookie.now)) leaf_fanout.old) }
{
    if leaf_fanout.len() != 1 {
        return WRONG_LENGTH;
    }
    match PersistentSettings::deserialize(cookie) {
        Ok(found) => {
            leaf_fanout[0] = found.leaf_fanout();
            0
        }
        Err(r) => status(r),
    }
}

// Whether a settings cookie was written with this fanout.
pub fn wentuhoro_cookie_verify(cookie: &[u8], leaf_fanout: u64) -> u64
    ensures { result ≡ status_of (finished_outcome (agreement leaf_fanout (settings_of cookie.now))) }
{
    finished(PersistentSettings::verify(cookie, leaf_fanout))
}

// The packed location of a slot. One value.
pub fn wentuhoro_pack(slots: usize, slab: usize, slot: usize, location: &mut [u64]) -> u64
    ensures { ◌≡◌ {A = Exported} (record { status = result; lent = location.new })
        (exported 1 (packed_outcome (packed slots (record { slab = slab; slot = slot }))) location.old) }
{
    if location.len() != 1 {
        return WRONG_LENGTH;
    }
    let address = SlabAddress { slab, slot };
    match address.pack(slots) {
        Ok(l) => {
            location[0] = l;
            0
        }
        Err(r) => status(r),
    }
}

// The slot of a packed location. Three values: 1, slab, slot; or three zeros for no object.
pub fn wentuhoro_unpack(slots: usize, location: u64, address: &mut [u64]) -> u64
    ensures { ◌≡◌ {A = Exported} (record { status = result; lent = address.new })
        (exported 3 (or_zeros 3 (unpacked_outcome (unpacked slots location))) address.old) }
{
    if address.len() != 3 {
        return WRONG_LENGTH;
    }
    match SlabAddress::unpack(slots, location) {
        Ok(Some(a)) => {
            values::three(address, 1, a.slab as u64, a.slot as u64);
            0
        }
        Ok(None) => {
            values::three(address, 0, 0, 0);
            0
        }
        Err(r) => status(r),
    }
}

// The first slot to look at in a slab with so many live slots below its tip. Two values: 1, slot; or two zeros for nothing.
pub fn wentuhoro_fragmentation_cutoff(
    live: usize,
    tip: usize,
    ratio: f32,
    cutoff: &mut [u64],
) -> u64
    ensures { ◌≡◌ {A = Exported} (record { status = result; lent = cutoff.new })
        (exported 2 (or_zeros 2 (cutoff_outcome (cutoff_of live tip ratio))) cutoff.old) }
{
    if cutoff.len() != 2 {
        return WRONG_LENGTH;
    }
    match fragmentation::fragmentation_cutoff(live, tip, ratio) {
        Ok(Some(slot)) => {
            values::two(cutoff, 1, slot as u64);
            0
        }
        Ok(None) => {
            values::two(cutoff, 0, 0);
            0
        }
        Err(r) => status(r),
    }
}
