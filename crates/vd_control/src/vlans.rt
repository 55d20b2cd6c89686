//! A set of VLANs as 64 words: VLAN `v` is bit `v % 64` of word `v / 64`.
ghost use Rattle.std.specs.Prelude.{◌≡◌, ◌/◌, ◌%◌, ◌*◌, ◌^◌, ◌<◌, ◌≤◌, ◌==◌, ◌||◌, ◌&&◌, not, length, slice_get, Some, count_ones};
ghost use Rattle.vd_control.specs.Settings.{has_bit, has_vlan, passing, words_of};

/// Puts a VLAN into the set.
pub fn add(words: &mut [u64; 64], vlan: u16)
    requires { vlan ≤ 4095 }
    ensures { words.new ≡ words_of (λ v. (v == vlan) || has_vlan words.old v) }
{
    words[word_of(vlan)] |= mask_of(vlan);
}

/// Takes a VLAN out of the set.
pub fn remove(words: &mut [u64; 64], vlan: u16)
    requires { vlan ≤ 4095 }
    ensures { words.new ≡ words_of (λ v. not (v == vlan) && has_vlan words.old v) }
{
    words[word_of(vlan)] &= !mask_of(vlan);
}

/// How many VLANs are in the set.
pub fn count(words: &[u64; 64]) -> u32
    ensures value { result ≡ length (passing (has_vlan words.now) 4096) }
    ensures most { result ≤ 4096 }
{
    let mut count = 0;
    for word in words {
        count += word.count_ones();
    }
    count
}

/// The VLAN before which, in ascending order, `nth` others are in the set.
pub fn nth(words: &[u64; 64], nth: u32) -> u16
    requires { nth < length (passing (has_vlan words.now) 4096) }
    ensures value { slice_get (passing (has_vlan words.now) 4096) nth ≡ Some result }
    ensures small { result ≤ 4095 }
{
    let mut left = nth;
    for (i, word) in words.iter().enumerate() {
        let ones = word.count_ones();
        if left < ones {
            return 64 * i as u16 + nth_bit(*word, left);
        }
        left -= ones;
    }
    unreachable!()
}

/// The place of the bit below which `nth` others are set.
fn nth_bit(mut word: u64, nth: u32) -> u16
    requires { nth < count_ones word }
    ensures value { slice_get (passing (has_bit word) 64) nth ≡ Some result }
    ensures small { result < 64 }
{
    for _ in 0..nth {
        word &= !(1 << word.trailing_zeros());
    }
    word.trailing_zeros() as u16
}

/// The words are those of their set. It does nothing when it runs.
pub fn words_come_back(words: &[u64; 64])
    ensures { words_of (has_vlan words.now) ≡ words.now }
{
    let _words = words.iter();
}

/// The word of a VLAN.
fn word_of(vlan: u16) -> usize
    ensures { result ≡ vlan / 64 }
{
    vlan as usize / 64
}

/// The VLAN's bit in its word.
fn mask_of(vlan: u16) -> u64
    ensures { result ≡ 1 * 2 ^ (vlan % 64) % 2 ^ 64 }
{
    1 << (vlan % 64)
}
