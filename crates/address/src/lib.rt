// Where an object stands: a slab and a slot, and the one number that both are packed into (document 01, "Addresses").
//
//     let Ok(address) = SlabAddress::from_slab_slot(77, 5) else { .. };  // 3, no such slab or slot
//     let Ok(location) = address.pack(slots) else { .. };        // 1, a capacity out of range; 3, a slot past it
//     match SlabAddress::unpack(slots, location) {
//         Ok(Some(address)) => ..,
//         Ok(None) => ..,          // a location of zero
//         Err(refusal) => ..,  // 1, a capacity out of range; 3, no such slab or slot
//     }
#![tactic(auto)]

ghost use Rattle.std.specs.Prelude.{◌≡◌};
ghost use Rattle.address.specs.Address.{bad_slots, made_of, packed, unpacked};

use refusal::{Kind, Refusal};

#[derive(Clone, Copy)]
pub struct SlabAddress {
    pub slab: usize,
    pub slot: usize,
}

// Whether `slots` is no slot capacity: 1 to 65,536 are.
pub fn bad_slots(slots: usize) -> bool
    ensures { result ≡ bad_slots slots }
{
    slots < 1 || slots > SlabAddress::MOST_SLOTS
}

impl SlabAddress {
    pub const SLABS: usize = sizes::SLABS;

    pub const LARGEST_SLOT: usize = 65535;

    pub const MOST_SLOTS: usize = 65536;
    // A packed location is (slab + 1) of these, and the slot.
    pub const UNIT: u64 = 0x100_0000_0000_0000;

    // The address of a slot that some capacity has.
    pub fn from_slab_slot(slab: usize, slot: usize) -> Result<SlabAddress, Refusal>
        ensures { result ≡ made_of slab slot }
    {
        if slab >= Self::SLABS || slot > Self::LARGEST_SLOT {
            return Err(Refusal {
                kind: Kind::OutOfRange,
                index: 0,
            });
        }
        Ok(SlabAddress { slab, slot })
    }

    // The packed location of an address, in slabs of `slots` slots.
    pub fn pack(self, slots: usize) -> Result<u64, Refusal>
        ensures { result ≡ packed slots self }
    {
        let slab = self.slab;
        let slot = self.slot;
        if bad_slots(slots) {
            return Err(Refusal {
                kind: Kind::WrongShape,
                index: 0,
            });
        }
        if slab >= Self::SLABS || slot >= slots {
            return Err(Refusal {
                kind: Kind::OutOfRange,
                index: 0,
            });
        }
        Ok((slab as u64 + 1) * Self::UNIT + slot as u64)
    }

    // The address that a packed location stands for, in slabs of `slots` slots.
    pub fn unpack(slots: usize, location: u64) -> Result<Option<SlabAddress>, Refusal>
        ensures { result ≡ unpacked slots location }
    {
        if bad_slots(slots) {
            return Err(Refusal {
                kind: Kind::WrongShape,
                index: 0,
            });
        }
        if location == 0 {
            return Ok(None);
        }
        let slot = (location % Self::UNIT) as usize;
        if location < Self::UNIT || slot >= slots {
            return Err(Refusal {
                kind: Kind::OutOfRange,
                index: 0,
            });
        }
        let slab = (location / Self::UNIT - 1) as usize;
        Ok(Some(Self::from_slab_slot(slab, slot)?))
    }
}
