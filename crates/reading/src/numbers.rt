// The numbers of an answer, read from the front.
ghost use Rattle.std.specs.Prelude.{◌≡◌, pos, get_or, drop};

// The k-th number, 0 past the end.
pub fn number_at(numbers: &[i64], k: usize) -> i64
    ensures { result ≡ get_or numbers.now k (pos 0) }
{
    numbers.get(k).copied().unwrap_or(0)
}

// The numbers after the first n.
pub fn after(numbers: &[i64], n: usize) -> &[i64]
    ensures { result.now ≡ drop n numbers.now }
{
    &numbers[n.min(numbers.len())..]
}
