// Numbers of words and growths, which stop at the largest number that can be told.
ghost use Rattle.std.specs.Prelude.{◌≡◌, ℕ, ◌+◌, ◌*◌, ◌<◌, ◌&&◌, length, ◌==◌, nat_lt};
ghost use Rattle.kinds.specs.Bounded.{saturated, largest};

// `count` equal parts and `more` besides: the one function that adds up words and growths.
// Of parts that are themselves told as the largest number it tells the right sum.
pub fn total(count: u32, each: u32, more: u32) -> u32
    ensures value { result ≡ saturated (count * each + more) }
    ensures lawful { (m n : ℕ) → 0 < count → each ≡ saturated m → more ≡ saturated n → result ≡ saturated (count * m + n) }
{
    count.saturating_mul(each).saturating_add(more)
}

// Whether a run can hold a document of so many words. A test and no refusal, so that each caller says what it refuses.
pub fn roomy(run: &[u32], words: u32) -> bool
    ensures { result ≡ (length run.now == words) && nat_lt words largest }
{
    run.len() == words as usize && words < u32::MAX
}
