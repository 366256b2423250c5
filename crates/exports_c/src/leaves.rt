// Classes, checks, frames, cookies, addresses and cutoffs.
ghost use Rattle.std.specs.Prelude.{◌≡◌};
ghost use Rattle.refusal.specs.Outcomes.{granted, finished_outcome};
ghost use Rattle.crc_steps.specs.Crc32.{crc_over, crc32};
ghost use Rattle.sizes.specs.Sizes.{slabs, slab_sizes, class_of};
ghost use Rattle.sizes.specs.Outcomes.{class_outcome};
ghost use Rattle.frame.specs.Frame.{writing, verdict_of};
ghost use Rattle.frame.specs.Outcomes.{verdict_outcome};
ghost use Rattle.settings.specs.Settings.{storing, settings_of, agreement};
ghost use Rattle.settings.specs.Outcomes.{persistent_settings_outcome};
ghost use Rattle.address.specs.Address.{packed, unpacked};
ghost use Rattle.address.specs.Outcomes.{packed_outcome, unpacked_outcome};
ghost use Rattle.fragmentation.specs.Answer.{cutoff_of};
ghost use Rattle.fragmentation.specs.Outcomes.{cutoff_outcome};
ghost use Rattle.exports_status.specs.Status.{status_of, or_zeros, Exported, exported};

// The constant table of slab sizes: 78 values.
#[unsafe(no_mangle)]
pub extern "C" fn wentuhoro_slab_sizes(sizes: &mut [u64]) -> u64
    ensures { ◌≡◌ {A = Exported} (record { status = result; lent = sizes.new })
        (exported slabs (granted slab_sizes) sizes.old) }
{
    exports::wentuhoro_slab_sizes(sizes)
}

// The slab for an object of n bytes. One value.
#[unsafe(no_mangle)]
pub extern "C" fn wentuhoro_class(n: u64, slab: &mut [u64]) -> u64
    ensures { ◌≡◌ {A = Exported} (record { status = result; lent = slab.new })
        (exported 1 (class_outcome (class_of n)) slab.old) }
{
    exports::wentuhoro_class(n, slab)
}

// The CRC-32 of ISO 3309.
#[unsafe(no_mangle)]
pub extern "C" fn wentuhoro_crc32(bytes: &[u8]) -> u32
    ensures { result ≡ crc32 bytes.now }
{
    exports::wentuhoro_crc32(bytes)
}

// The register after more bytes; it starts at FFFFFFFF and is complemented at the end.
#[unsafe(no_mangle)]
pub extern "C" fn wentuhoro_crc32_update(register: u32, bytes: &[u8]) -> u32
    ensures { result ≡ crc_over register bytes.now }
{
    exports::wentuhoro_crc32_update(register, bytes)
}

// Writes an object into a slot.
#[unsafe(no_mangle)]
pub extern "C" fn wentuhoro_frame_write(slot: &mut [u8], object: &[u8]) -> u64
    ensures { (result ≡ status_of (finished_outcome (writing slot.old object.now).answer))
        × (slot.new ≡ (writing slot.old object.now).slot) }
{
    exports::wentuhoro_frame_write(slot, object)
}

// The length of the object in a slot: the slot's own first bytes. One value.
#[unsafe(no_mangle)]
pub extern "C" fn wentuhoro_frame_read(slot: &[u8], length: &mut [u64]) -> u64
    ensures { ◌≡◌ {A = Exported} (record { status = result; lent = length.new })
        (exported 1 (verdict_outcome (verdict_of slot.now)) length.old) }
{
    exports::wentuhoro_frame_read(slot, length)
}

// Writes a settings cookie of 64 bytes.
#[unsafe(no_mangle)]
pub extern "C" fn wentuhoro_cookie_write(leaf_fanout: u64, cookie: &mut [u8]) -> u64
    ensures { (result ≡ status_of (finished_outcome (storing leaf_fanout cookie.old).answer))
        × (cookie.new ≡ (storing leaf_fanout cookie.old).cookie) }
{
    exports::wentuhoro_cookie_write(leaf_fanout, cookie)
}

// The fanout in a settings cookie. One value.
#[unsafe(no_mangle)]
pub extern "C" fn wentuhoro_cookie_read(cookie: &[u8], leaf_fanout: &mut [u64]) -> u64
    ensures { ◌≡◌ {A = Exported} (record { status = result; lent = leaf_fanout.new })
        (exported 1 (persistent_settings_outcome (settings_of cookie.now)) leaf_fanout.old) }
{
    exports::wentuhoro_cookie_read(cookie, leaf_fanout)
}

// Whether a settings cookie was written with this fanout.
#[unsafe(no_mangle)]
pub extern "C" fn wentuhoro_cookie_verify(cookie: &[u8], leaf_fanout: u64) -> u64
    ensures { result ≡ status_of (finished_outcome (agreement leaf_fanout (settings_of cookie.now))) }
{
    exports::wentuhoro_cookie_verify(cookie, leaf_fanout)
}

// The packed location of a slot. One value.
#[unsafe(no_mangle)]
pub extern "C" fn wentuhoro_pack(
    slots: usize,
    slab: usize,
    slot: usize,
    location: &mut [u64],
) -> u64
    ensures { ◌≡◌ {A = Exported} (record { status = result; lent = location.new })
        (exported 1 (packed_outcome (packed slots (record { slab = slab; slot = slot }))) location.old) }
{
    exports::wentuhoro_pack(slots, slab, slot, location)
}

// The slot of a packed location. Three values: 1, slab, slot; or three zeros for no object.
#[unsafe(no_mangle)]
pub extern "C" fn wentuhoro_unpack(slots: usize, location: u64, address: &mut [u64]) -> u64
    ensures { ◌≡◌ {A = Exported} (record { status = result; lent = address.new })
        (exported 3 (or_zeros 3 (unpacked_outcome (unpacked slots location))) address.old) }
{
    exports::wentuhoro_unpack(slots, location, address)
}

// The first slot to look at in a slab with so many live slots below its tip. Two values: 1, slot; or two zeros for nothing.
#[unsafe(no_mangle)]
pub extern "C" fn wentuhoro_fragmentation_cutoff(
    live: usize,
    tip: usize,
    ratio: f32,
    cutoff: &mut [u64],
) -> u64
    ensures { ◌≡◌ {A = Exported} (record { status = result; lent = cutoff.new })
        (exported 2 (or_zeros 2 (cutoff_outcome (cutoff_of live tip ratio))) cutoff.old) }
{
    exports::wentuhoro_fragmentation_cutoff(live, tip, ratio, cutoff)
}
