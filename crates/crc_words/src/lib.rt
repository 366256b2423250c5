// The register of CRC-32 after bytes, eight a turn, in registers.
//
//     let register = crc_words::over(0xFFFF_FFFF, bytes);
//
// A word that was read is not divided: it is put off, to words that are still to come. Five words are pending at most. Where many words come
// they are put off far, by few shifts; near the end by more, and less far; the last is divided.
#![tactic(auto)]

ghost use Rattle.std.specs.Prelude.{◌≡◌, ℕ, ◌+◌, ◌-◌, ◌*◌, ◌/◌, ◌%◌, ◌<◌, ◌≤◌, ◌^◌, List, [], ◌∷◌, ◌++◌, length, drop};
ghost use Rattle.std.specs.List.{flat_map};
ghost use Rattle.std.specs.Int.Bits.{bit_xor};
ghost use Rattle.little_endian.specs.LittleEndian.{word};
ghost use Rattle.crc_steps.specs.Crc32.{steps, crc_over};
ghost use Rattle.std.specs.Simd.{first_chunks};
ghost use Rattle.crc_words.specs.Fold.{up, num, held, past, pulled, over, register_after, Turn, Far, fifth};

// As many bytes as make a word.
const WORD: usize = 8;

// As many words as are pending, and as are taken in a turn where many come.
const FIVE: usize = 5;

// The first byte is the lowest.
type Word = [u8; WORD];

fn load(bytes: &Word) -> u64
    ensures { result ≡ word bytes.now }
{
    little_endian::get(bytes)
}

// What is still to be taken into the words to come, the next first.
#[derive(Clone, Copy, Default)]
struct Pend {
    a: u64,
    b: u64,
    c: u64,
    d: u64,
    e: u64,
}

// x^300 + x^155 + x^117 + x^89 + 1 is a multiple of the polynomial: a word is put off 145, 183, 211 and 300 bits, where 268 bits come after.
#[tactic(auto, using(crate::proofs::Turns::far_turn))]
fn far(z: Pend, w: u64) -> Pend
    ensures { Turn 268 w (held z) (held result) }
{
    let y = w ^ z.a;
    Pend {
        a: z.b,
        b: z.c ^ ((y << 17) ^ (y << 55)),
        c: z.d ^ (((y >> 47) ^ (y >> 9)) ^ (y << 19)),
        d: z.e ^ ((y >> 45) ^ (y << 44)),
        e: y >> 20,
    }
}

// What is left of x^96.
#[tactic(auto, unfolding(crate::specs::Fold::fifth))]
fn times_fifth(w: u64) -> u64
    ensures { result ≡ fifth w }
{
    let u = w ^ (w << 1);
    let v = u ^ (u << 4);
    ((u << 1) ^ (u << 3) ^ (w << 7)) ^ ((v << 17) ^ (v << 18) ^ (v << 26))
}

// At least one word comes after.
#[tactic(auto, using(crate::proofs::Turns::with_one_turn))]
fn with_one(z: Pend, w: u64) -> Pend
    ensures { Turn 64 w (held z) (held result) }
{
    let y = w ^ z.a;
    let f = times_fifth(y);
    let g = times_fifth(y >> 32) >> 32;
    Pend {
        a: z.b ^ f,
        b: z.c ^ g,
        c: z.d,
        d: z.e,
        e: 0,
    }
}

// Another: 181, 199, 255, 263 and 274 bits, where four words come after.
#[tactic(auto, using(crate::proofs::Turns::with_four_turn))]
fn with_four(z: Pend, w: u64) -> Pend
    ensures { Turn 256 w (held z) (held result) }
{
    let y = w ^ z.a;
    Pend {
        a: z.b,
        b: z.c ^ (y << 53),
        c: z.d ^ (((y >> 11) ^ (y << 7)) ^ (y << 63)),
        d: z.e ^ (((y >> 57) ^ (y >> 1)) ^ ((y << 7) ^ (y << 18))),
        e: (y >> 57) ^ (y >> 46),
    }
}

// Another: 129, 138, 150, 169, 183 and 212 bits, where three words come after.
#[tactic(auto, using(crate::proofs::Turns::with_three_turn))]
fn with_three(z: Pend, w: u64) -> Pend
    ensures { Turn 192 w (held z) (held result) }
{
    let y = w ^ z.a;
    Pend {
        a: z.b,
        b: z.c ^ (((y << 1) ^ (y << 10) ^ (y << 22)) ^ ((y << 41) ^ (y << 55))),
        c: z.d ^ (((y >> 63) ^ (y >> 54) ^ (y >> 42)) ^ ((y >> 23) ^ (y >> 9)) ^ (y << 20)),
        d: z.e ^ (y >> 44),
        e: 0,
    }
}

// Another: 71, 80, 103, 119, 121, 123 and 135 bits, where two words come after.
#[tactic(auto, using(crate::proofs::Turns::with_two_turn))]
fn with_two(z: Pend, w: u64) -> Pend
    ensures { Turn 128 w (held z) (held result) }
{
    let y = w ^ z.a;
    Pend {
        a: z.b ^ (((y << 7) ^ (y << 16) ^ (y << 39)) ^ ((y << 55) ^ (y << 57) ^ (y << 59))),
        b: z.c
            ^ (((y >> 57) ^ (y >> 48) ^ (y >> 25)) ^ ((y >> 9) ^ (y >> 7) ^ (y >> 5)) ^ (y << 7)),
        c: z.d ^ (y >> 57),
        d: z.e,
        e: 0,
    }
}

// The register after a word, with no table: how often the polynomial goes into it, of which the high half counts, and what is left then. Each
// is a product without carries, by a number of 28 bits and one of 15; shifts that bits have in common are made once.
#[tactic(auto, using(crate::proofs::Turns::divided))]
fn fold(w: u64) -> u64
    ensures { result ≡ steps 64 w }
{
    let u = w ^ (w << 1);
    let a = w ^ (w << 16);
    let b = a ^ (a << 3);
    let low = ((a ^ (w << 6)) ^ ((b << 9) ^ (a << 10))) ^ ((w << 24) ^ (u << 30));
    let high = ((b << 29) ^ (b << 34)) ^ ((b << 44) ^ (u << 54)) ^ (b << 58);
    let q = (low ^ high) >> 32;
    let c = q ^ (q << 6);
    let d = c ^ (c << 4);
    ((c ^ (q << 9) ^ (c << 10)) ^ ((d << 20) ^ (d << 21) ^ (d << 22))) >> 32
}

// No word comes after: what is pending then is the register.
fn with_none(z: Pend, w: u64) -> u32
    requires { steps 64 (bit_xor w (held z)) < 2 ^ 32 }
    ensures { result ≡ steps 64 (bit_xor w (held z)) }
{
    (z.b ^ fold(w ^ z.a)) as u32
}

// The register as it is pending on the last h bytes of a word: zeros before them, and before the register, change nothing.
fn on_last(register: u32, h: usize) -> Pend
    requires { (0 < h) × (h < 8) }
    ensures { held result ≡ num (up (64 - 8 * h) register) (register / 2 ^ (8 * h)) 0 0 0 }
{
    let c = register as u64;
    Pend {
        a: c << (64 - 8 * h),
        b: c >> (8 * h),
        ..Pend::default()
    }
}

// The register after fewer bytes than a word has.
fn few(register: u32, bytes: &[u8]) -> u32
    requires { length bytes.now < 8 }
    ensures { result ≡ crc_over register bytes.now }
{
    let h = bytes.len();
    if h == 0 {
        return register;
    }
    with_none(
        on_last(register, h),
        little_endian::get(bytes) << (64 - 8 * h),
    )
}

// What is pending where whole words follow: the first odd bytes are put off as a word of their own.
fn start(register: u32, bytes: &[u8]) -> Pend
    requires { 8 ≤ length bytes.now }
    ensures { register_after (first_chunks 8 (length bytes.now / 8) (drop (length bytes.now % 8) bytes.now)) (held result)
        ≡ crc_over register bytes.now }
{
    let h = bytes.len() % WORD;
    if h == 0 {
        return Pend {
            a: register as u64,
            ..Pend::default()
        };
    }
    with_one(
        on_last(register, h),
        little_endian::get(&bytes[..WORD]) << (64 - 8 * h),
    )
}

// Where many words come, the last five as they were put off are kept instead, the newest first: then what is pending on a word is made
// when it is read, and two words' bits move in one instruction.
#[derive(Clone, Copy, Default)]
struct Past {
    p: u64,
    q: u64,
    r: u64,
    s: u64,
    t: u64,
}

#[tactic(auto, unfolding(crate::specs::Fold::pulled))]
fn pull(a: u64, b: u64, c: u64, d: u64) -> u64
    ensures { result ≡ pulled a b c d }
{
    (((a << 17) ^ (b >> 47)) ^ (c << 44))
        ^ (((a << 55) ^ (b >> 9)) ^ (b << 19))
        ^ ((c >> 45) ^ (d >> 20))
}

// A word, with x besides.
fn turn(h: Past, x: u64, word: &Word) -> Past
    ensures { (t : ℕ) → Far (word.now ∷ []) (bit_xor (past h) (over x t)) (bit_xor (past result) t) }
{
    Past {
        p: (load(word) ^ x) ^ pull(h.q, h.r, h.s, h.t),
        q: h.p,
        r: h.q,
        s: h.r,
        t: h.s,
    }
}

// Five words, with x besides.
fn five(h: Past, x: Pend, words: &[Word; FIVE]) -> Past
    ensures { Far words.now (bit_xor (past h) (held x)) (past result) }
{
    let two = turn(turn(h, x.a, &words[0]), x.b, &words[1]);
    let four = turn(turn(two, x.c, &words[2]), x.d, &words[3]);
    turn(four, x.e, &words[4])
}

impl From<Past> for Pend {
    #[tactic(auto, unfolding(crate::specs::Fold::past_of))]
    fn from(h: Past) -> Pend
        ensures { held result ≡ past h }
    {
        Pend {
            a: pull(h.q, h.r, h.s, h.t),
            b: pull(h.p, h.q, h.r, h.s),
            c: pull(0, h.p, h.q, h.r),
            d: pull(0, 0, h.p, h.q),
            e: pull(0, 0, 0, h.p),
        }
    }
}

// Five words a turn.
fn fives(from: Pend, first: &[Word; FIVE], blocks: &[[Word; FIVE]]) -> Pend
    ensures { Far (first.now ++ flat_map (λ words. words) blocks.now) (held from) (held result) }
{
    let mut h = five(Past::default(), from, first);
    for words in blocks {
        h = five(h, Pend::default(), words);
    }
    Pend::from(h)
}

// A word a turn.
fn singles(from: Pend, words: &[Word]) -> Pend
    ensures { Far words.now (held from) (held result) }
{
    let mut z = from;
    for word in words {
        z = far(z, load(word));
    }
    z
}

// Three words with no loop: over so few its tests cost as much as the turns.
fn three(z: Pend, first: &Word, second: &Word, third: &Word) -> Pend
    ensures { Far (first.now ∷ second.now ∷ third.now ∷ []) (held z) (held result) }
{
    let two = turn(turn(Past::default(), z.a, first), z.b, second);
    let later = Pend::from(turn(two, z.c, third));
    Pend {
        a: later.a ^ z.d,
        b: later.b ^ z.e,
        ..later
    }
}

// Below so many words it is not worth while to take five a turn.
const MANY: usize = 10;

// The words before the last five.
fn put_far(z: Pend, words: &[Word]) -> Pend
    ensures { Far words.now (held z) (held result) }
{
    if let [first, second, third] = words {
        return three(z, first, second, third);
    }
    if words.len() < MANY {
        return singles(z, words);
    }
    let (blocks, rest) = words.as_chunks::<FIVE>();
    match blocks.split_first() {
        Some((first, others)) => singles(fives(z, first, others), rest),
        None => singles(z, words),
    }
}

// What is pending where five words are left.
fn to_five(z: Pend, words: &[Word]) -> Pend
    ensures { register_after words.now (held z) ≡ register_after (drop (length words.now - 5) words.now) (held result) }
{
    if words.len() <= FIVE {
        return z;
    }
    put_far(z, &words[..words.len() - FIVE])
}

// What is pending on the last `after` words. Where there are more, `earlier` says what is pending on the word before them, and `turn` puts it off.
fn put_off<E: FnOnce() -> Pend, F: Fn(Pend, u64) -> Pend>(
    z: Pend,
    words: &[Word],
    after: usize,
    earlier: E,
    turn: F,
) -> Pend
    requires earlier_callable { E.IsAlwaysCallable earlier }
    requires turn_callable { F.IsAlwaysCallable turn }
    requires reaches { (r : Pend) → E.post earlier r
        → register_after (drop (length words.now - (after + 1)) words.now) (held r) ≡ register_after words.now (held z) }
    requires turns { (y r : Pend) (w : ℕ) → F.post turn y w r → Turn (64 * after) w (held y) (held r) }
    ensures { register_after (drop (length words.now - after) words.now) (held result) ≡ register_after words.now (held z) }
{
    if words.len() <= after {
        return z;
    }
    turn(earlier(), load(&words[words.len() - after - 1]))
}

// The register after the words. Each turn asks for the one before it only where there is a word for it, so that few words take few tests.
fn over_words(z: Pend, words: &[Word]) -> u32
    requires words { 0 < length words.now }
    requires register { register_after words.now (held z) < 2 ^ 32 }
    ensures { result ≡ register_after words.now (held z) }
{
    let five = || to_five(z, words);
    let four = || put_off(z, words, 4, five, with_four);
    let three = || put_off(z, words, 3, four, with_three);
    let two = || put_off(z, words, 2, three, with_two);
    let one = put_off(z, words, 1, two, with_one);
    with_none(one, load(&words[words.len() - 1]))
}

// The register after `bytes`.
pub fn over(register: u32, bytes: &[u8]) -> u32
    ensures { result ≡ crc_over register bytes.now }
{
    if bytes.len() < WORD {
        return few(register, bytes);
    }
    let (_, words) = bytes.as_rchunks::<WORD>();
    over_words(start(register, bytes), words)
}
