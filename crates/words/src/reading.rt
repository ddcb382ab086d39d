// Reading a word at a place that may lie past the end.
ghost use Rattle.std.specs.Prelude.{◌≡◌, get_or};

// The word at `at`, and 0 past the end.
pub fn word_at(s: &[u16], at: usize) -> u16
    ensures { result ≡ get_or s.now at 0 }
{
    s.get(at).copied().unwrap_or(0)
}
