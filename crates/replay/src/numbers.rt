// Calls on numbers alone. The arguments stand after the values.
use replay_words::line::Line;
use replay_words::ratios;

pub fn class(line: Line) -> bool {
    let mut v = [0; 1];
    let status = exports::wentuhoro_class(line.word(5), &mut v);
    line.says(status, &v)
}

pub fn pack(line: Line) -> bool {
    let mut v = [0; 1];
    let slots = line.word(5) as usize;
    let slab = line.word(6) as usize;
    let slot = line.word(7) as usize;
    let status = exports::wentuhoro_pack(slots, slab, slot, &mut v);
    line.says(status, &v)
}

pub fn unpack(line: Line) -> bool {
    let mut v = [0; 3];
    let slots = line.word(7) as usize;
    let status = exports::wentuhoro_unpack(slots, line.word(8), &mut v);
    line.says(status, &v)
}

pub fn cutoff(line: Line) -> bool {
    let mut v = [0; 2];
    let live = line.word(6) as usize;
    let tip = line.word(7) as usize;
    let ratio = ratios::ratio(line.word(8));
    let status = exports::wentuhoro_fragmentation_cutoff(live, tip, ratio, &mut v);
    line.says(status, &v)
}
