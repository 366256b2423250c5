// One word of the batch or of the tallies: the word `at` of those that start at `base`. A word past the end reads 0 and is not written.
ghost use Rattle.std.specs.Prelude.{◌≡◌, ◌+◌, slice_index, slice_set};
ghost use Rattle.model.specs.Tables.{bump};

pub fn get(words: &[u64], base: usize, at: usize) -> u64
    ensures { result ≡ slice_index words.now (base + at) }
{
    if words.len() <= base {
        return 0;
    }
    if words.len() - base <= at {
        return 0;
    }
    words[base + at]
}

pub fn put(words: &mut [u64], base: usize, at: usize, value: u64)
    ensures { words.new ≡ slice_set words.old (base + at) value }
{
    if words.len() <= base {
        return;
    }
    if words.len() - base <= at {
        return;
    }
    words[base + at] = value;
}

// So many more, modulo 2^64.
pub fn add(words: &mut [u64], base: usize, at: usize, more: u64)
    ensures { words.new ≡ bump words.old (base + at) more }
{
    if more == 0 {
        return;
    }
    let old = get(words, base, at);
    put(words, base, at, std::num::wrapping_add_u64(old, more));
}
