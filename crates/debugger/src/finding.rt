//! The next of some rising numbers, and the one before.
ghost use Rattle.std.specs.Prelude.{◌≡◌, ◌≤◌, ℕ, Bool, slice_get, length, filter};
ghost use Rattle.std.specs.List.{range_with_len};
ghost use Rattle.debugger.specs.Finding.{IsLatest, IsNext};

// How many of these rising numbers are at most `n`.
fn count_until(numbers: &[u32], n: u32) -> usize
    ensures { (p : ℕ → Bool) (last : ℕ) → numbers.now ≡ filter p (range_with_len 1 last) → n ≤ last →
        result ≡ length (filter p (range_with_len 1 n)) }
{
    numbers.partition_point(|number| *number <= n)
}

// The number at an index.
fn number_at(numbers: &[u32], index: usize) -> Option<u32>
    ensures { result ≡ slice_get numbers.now index }
{
    numbers.get(index).copied()
}

/// The first of these rising numbers above `from`.
pub fn next_after(numbers: &[u32], from: u32) -> Option<u32>
    ensures { (p : ℕ → Bool) (last : ℕ) → numbers.now ≡ filter p (range_with_len 1 last) → from ≤ last →
        IsNext p from last result }
{
    number_at(numbers, count_until(numbers, from))
}

/// The last of these rising numbers up to `from`.
pub fn latest_until(numbers: &[u32], from: u32) -> Option<u32>
    ensures { (p : ℕ → Bool) (last : ℕ) → numbers.now ≡ filter p (range_with_len 1 last) → from ≤ last →
        IsLatest p from result }
{
    let count = count_until(numbers, from);
    if count == 0 {
        return None;
    }
    number_at(numbers, count - 1)
}
