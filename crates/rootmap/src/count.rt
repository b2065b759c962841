// Counting the ones of a map, a word of 64 bits at a time.
ghost use Rattle.std.specs.Prelude.{◌≡◌, ◌+◌, ◌*◌, ◌%◌, ◌^◌, ◌≤◌, ◌<◌, length};
ghost use Rattle.theory.specs.RootMap.{bit, bits_from};
ghost use Rattle.rootmap.specs.inner.Bits.{ones_below};
ghost use Rattle.rootmap.specs.inner.Word.{ones_of};

// The k bytes from index i on as one word, the first byte lowest.
fn word(map: &[u8], i: usize, k: usize) -> u64
    requires { (k ≤ 8) × (i + k ≤ length map.now) }
    ensures { result ≡ bits_from (bit map.now) (8 * k) (8 * i) }
{
    let mut x: u64 = 0;
    for (j, &byte) in map[i..i + k].iter().enumerate() {
        x |= (byte as u64) << (8 * j);
    }
    x
}

// The k lowest bits of a word.
fn low_bits(x: u64, k: usize) -> u64
    requires { k < 64 }
    ensures { result ≡ x % 2 ^ k }
{
    x & ((1u64 << k) - 1)
}

// The number of ones of a word.
fn word_ones(x: u64) -> u64
    ensures { result ≡ ones_of 64 x }
{
    x.count_ones() as u64
}

// The number of ones of the first k words.
fn ones_of_words(map: &[u8], k: usize) -> u64
    requires { (64 * k ≤ 524288) × (8 * k ≤ length map.now) }
    ensures { result ≡ ones_below (64 * k) map.now }
{
    let mut ones: u64 = 0;
    for i in 0..k {
        ones += word_ones(word(map, 8 * i, 8));
    }
    ones
}

// The number of ones among the first m bits: those of the full words, then those of the bytes that are left, as one word without its
// spare bits.
pub(crate) fn count_ones(map: &[u8], m: usize) -> u64
    requires { (m ≤ 524288) × (m ≤ 8 * length map.now) }
    ensures { result ≡ ones_below m map.now }
{
    let full = m / 64;
    let rest = m % 64;
    let last = low_bits(word(map, 8 * full, (rest + 7) / 8), rest);
    ones_of_words(map, full) + word_ones(last)
}
