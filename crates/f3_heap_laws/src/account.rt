//! The words that blocks take.

ghost use Rattle.std.specs.Prelude.{◌≡◌, ◌<◌, ◌^◌, nat_le};
ghost use Rattle.f3_heap_laws.specs.Account.{r};

/// The words that a block of so many words takes.
pub fn size_of_block(words: usize) -> usize
    requires { r words < 2 ^ 64 }
    ensures { result ≡ r words }
{
    (words + 6) / 4 * 4
}

/// Whether a block of so many words fits into a run of `run` words.
pub fn fits(words: usize, run: usize) -> bool
    ensures { result ≡ nat_le (r words) run }
{
    let whole = run / 4 * 4;
    whole >= 4 && words <= whole - 3
}
