// The length that a slab's file is cut to, asked for each slab, and the report that a cut was made (document 01, "Defrag and truncation";
// request 2026-05).
//
//     match truncation::truncation(caps, &slot_marks, &batch, &mut tallies, slab, 80) {
//         Ok(Some(Cut { length, given_back })) => ..,  // cut the file to this length, which gives so many bytes back; then
//         //     truncation::cut_done(caps, &slot_marks, &batch, &mut tallies, slab, 80);
//         Ok(None) => ..,                              // keep it
//         Err(refusal) => ..,                          // 1, 11, 3, 14
//     }
//
// The high mark is the Rust's `max_live_slot_since_last_truncation`: asking raises it to the slab's top slot, a report sets it there.
#![tactic(auto)]

ghost use Rattle.std.specs.Prelude.{◌≡◌, ◌*◌, ◌<◌, ◌≤◌, suc, ltb, length};
ghost use Rattle.list_parts.specs.Parts.{part};
ghost use Rattle.marks.specs.Marks.{tip};
ghost use Rattle.id_allocator.specs.Counted.{hinted};
ghost use Rattle.address.specs.Address.{slabs, most_slots};
ghost use Rattle.model.specs.Store.{truncation, report, gave, finished_answer};
ghost use Rattle.model.specs.Tables.{slab_tip};
ghost use Rattle.model.specs.Truncation.{is_target, bytes_to, fill, target_length, new_length, cut_at};
ghost use Rattle.model.specs.Step.{refusal, answer_by};
ghost use Rattle.model.specs.Memory.{read, get_word, used_words, hint_words};
ghost use Rattle.model.specs.Lent.{lent_to, answered, leaves};
ghost use Rattle.model.specs.MemoryAfter.{raise_word};
ghost use Rattle.truncation.specs.Truncations.{cut_as, asked_answer, truncated_answer};

use address::SlabAddress;
use refusal::{Kind, Refusal};
use tables::Capacities;

// The tip of a slab that may be asked for.
const LEAST_TARGET: u64 = 1;

const MOST_TARGET: u64 = 86;
// Below this top, so up to 16 slots, a file is cut to what is in use; from it on to 15 percent more.
const SMALL: u64 = 16;

fn is_target(t: u64) -> bool
    ensures { result ≡ is_target t }
{
    tables::both(LEAST_TARGET <= t, t <= MOST_TARGET)
}

// What a slab's file is cut to, and how many bytes that gives back.
#[derive(Clone, Copy)]
pub struct Cut {
    pub length: u64,
    pub given_back: u64,
}

// ---- the lengths

// The bytes of a file up to and with a slot: at most 2^50, so that 115 times as many fit a word.
fn bytes_to(size: u64, slot: u64) -> u64
    requires { (size ≤ 17179869184) × (slot < most_slots) }
    ensures { (result ≡ bytes_to size slot) × (result ≤ 1125899906842624) }
{
    (slot + 1) * size
}

// Whether less than t percent of the file is in use, by the slab's size, its top slot and its high mark.
fn sparse(size: u64, top: u64, high: u64, t: u64) -> bool
    requires { (1 ≤ size) × (size ≤ 17179869184) × (top < most_slots) × (high < most_slots) }
    ensures { result ≡ ltb (fill size top high) t }
{
    bytes_to(size, top) * 100 / bytes_to(size, high) < t
}

// What is in use, and some more where the top is not small: at most 2^51 bytes, so that a slot more fits a word.
fn target_length(size: u64, top: u64) -> u64
    requires { (size ≤ 17179869184) × (top < most_slots) }
    ensures { (result ≡ target_length size top) × (result ≤ 2251799813685248) }
{
    let used = bytes_to(size, top);
    if top < SMALL {
        return used;
    }
    used * 115 / 100
}

// The length to cut to: whole slots.
fn new_length(size: u64, top: u64) -> u64
    requires { (1 ≤ size) × (size ≤ 17179869184) × (top < most_slots) }
    ensures { result ≡ new_length size top }
{
    (target_length(size, top) + size - 1) / size * size
}

// What becomes of the slab's file, by its tip and its stored high mark. At tip 0 it is kept.
fn cut_at(slab: usize, high: u64, t: u64, tip: usize) -> Option<Cut>
    requires { (slab < slabs) × (high < most_slots) × (tip ≤ most_slots) }
    ensures { cut_as result ≡ cut_at slab high t tip }
{
    if tip == 0 {
        return None;
    }
    let size = sizes::slab_size(slab);
    let top = tip as u64 - 1;
    let high = high.max(top);
    if !sparse(size, top, high, t) {
        return None;
    }
    let before = bytes_to(size, high);
    let length = new_length(size, top);
    if before <= length {
        return None;
    }
    Some(Cut {
        length,
        given_back: before - length,
    })
}

// ---- what is asked

// The tip of a slab.
fn slab_tip(slots: usize, slot_marks: &[u8], tallies: &[u64], slab: usize) -> usize
    requires { (slab < slabs) × (slots ≤ most_slots) × (length slot_marks.now ≡ slabs * slots) }
    ensures { result
        ≡ tip (hinted (get_word tallies.now hint_words (suc slab)) (part slots slot_marks.now slab))
        (get_word tallies.now used_words (suc slab)) }
{
    let start = slab * slots;
    let end = start + slots;
    let hint = tables::get(tallies, tables::HINT, slab + 1) as usize;
    let used = tables::get(tallies, tables::USED, slab + 1);
    id_allocator::tip(&slot_marks[start..end], hint, used)
}

// The slab's tip, or why it may not be asked for.
fn ask(
    caps: Capacities,
    slot_marks: &[u8],
    batch: &[u64],
    tallies: &[u64],
    slab: u64,
    t: u64,
) -> Result<usize, Refusal>
    ensures { asked_answer result
        ≡ answer_by (refusal (read (lent_to (truncation slab t) caps.ids caps.slots
        slot_marks.now
        batch.now
        tallies.now)) (truncation slab t))
        (gave (slab_tip (read (lent_to (truncation slab t) caps.ids caps.slots
        slot_marks.now
        batch.now
        tallies.now)) slab)) }
{
    if !tables::slab_fits(caps, slot_marks.len(), batch.len(), tallies.len()) {
        return Err(Refusal::of(Kind::WrongShape));
    }
    if tables::get(batch, 0, 0) != 0 {
        return Err(Refusal::of(Kind::BatchOpen));
    }
    if slab >= SlabAddress::SLABS as u64 {
        return Err(Refusal::of(Kind::OutOfRange));
    }
    if tables::get(tallies, tables::HIGH, slab as usize) >= caps.slots as u64 {
        return Err(Refusal::of(Kind::OutOfRange));
    }
    if !is_target(t) {
        return Err(Refusal::of(Kind::RatioOutOfRange));
    }
    Ok(slab_tip(caps.slots, slot_marks, tallies, slab as usize))
}

// Asking raises the high mark to the top.
fn raise(tallies: &mut [u64], slab: usize, tip: usize)
    ensures { tallies.new ≡ raise_word tallies.old slab tip }
{
    if tip == 0 {
        return;
    }
    let high = tables::get(tallies, tables::HIGH, slab);
    tables::put(tallies, tables::HIGH, slab, high.max(tip as u64 - 1));
}

// ---- the calls

// Whether the slab's file is cut, and to which length, where `t` is the percentage of it that must be in use.
pub fn truncation(
    caps: Capacities,
    slot_marks: &[u8],
    batch: &[u64],
    tallies: &mut [u64],
    slab: u64,
    t: u64,
) -> Result<Option<Cut>, Refusal>
    ensures result_value { truncated_answer result
        ≡ answered (truncation slab t) caps.ids caps.slots
        slot_marks.now
        batch.now
        tallies.old }
    ensures tallies_after { (lent_to (truncation slab t) caps.ids caps.slots
        slot_marks.now
        batch.now
        tallies.new)
        ≡ leaves (truncation slab t) caps.ids caps.slots
        slot_marks.now
        batch.now
        tallies.old }
{
    let tip = ask(caps, slot_marks, batch, tallies, slab, t)?;
    let slab = slab as usize;
    let high = tables::get(tallies, tables::HIGH, slab);
    raise(tallies, slab, tip);
    Ok(cut_at(slab, high, t, tip))
}

// A cut was made: the high mark is the top.
pub fn cut_done(
    caps: Capacities,
    slot_marks: &[u8],
    batch: &[u64],
    tallies: &mut [u64],
    slab: u64,
    t: u64,
) -> Result<(), Refusal>
    ensures result_value { finished_answer result
        ≡ answered (report slab t) caps.ids caps.slots
        slot_marks.now
        batch.now
        tallies.old }
    ensures tallies_after { (lent_to (report slab t) caps.ids caps.slots
        slot_marks.now
        batch.now
        tallies.new)
        ≡ leaves (report slab t) caps.ids caps.slots
        slot_marks.now
        batch.now
        tallies.old }
{
    let tip = ask(caps, slot_marks, batch, tallies, slab, t)?;
    let slab = slab as usize;
    let high = tables::get(tallies, tables::HIGH, slab);
    if cut_at(slab, high, t, tip).is_none() {
        return Err(Refusal::of(Kind::NothingToCut));
    }
    tables::put(tallies, tables::HIGH, slab, tip as u64 - 1);
    Ok(())
}
