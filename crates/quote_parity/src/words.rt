//! The bits of a word of 64.
ghost use Rattle.std.specs.Prelude.{◌≡◌, ℕ, ◌+◌, ◌*◌, ◌%◌, ◌^◌, ◌<◌, ◌≤◌, bit_xor, MatchOption};
ghost use Rattle.std.specs.Int.{bit_at};
ghost use Rattle.std.specs.Int.RustNames.{count_ones};
ghost use Rattle.quote_parity.specs.Words.{ones_below};

/// Returns a word whose bit i is the parity of the bits 0 to i.
#[inline(always)]
pub fn prefix_xor(word: u64) -> u64
    ensures { (i : ℕ) → i < 64 → bit_at result i ≡ ones_below word (i + 1) % 2 }
{
    let two = with_shifted(word, 1);
    let four = with_shifted(two, 2);
    let eight = with_shifted(four, 4);
    let sixteen = with_shifted(eight, 8);
    let half = with_shifted(sixteen, 16);
    with_shifted(half, 32)
}

/// Returns the word, with each bit added without a carry to the one `by` places above it.
#[inline(always)]
fn with_shifted(word: u64, by: u32) -> u64
    requires { by < 64 }
    ensures { result ≡ bit_xor word (word * 2 ^ by % 2 ^ 64) }
{
    word ^ (word << by)
}

/// Returns the place of the set bit that has `n` set bits below it if there is one.
pub fn select(word: u64, n: u32) -> Option<u32>
    ensures { MatchOption result (count_ones word ≤ n)
        (λ place. (place < 64) × (bit_at word place ≡ 1) × (ones_below word place ≡ n)) }
{
    if word.count_ones() <= n {
        return None;
    }
    let mut place = 0;
    let mut rest = n;
    let mut level = 6u32;
    while level > 0 {
        level -= 1;
        let half = 1u32 << level;
        let low = ((word >> place) & ((1 << half) - 1)).count_ones();
        if low <= rest {
            rest -= low;
            place += half;
        }
    }
    Some(place)
}
