// The signed meaning of a word, and arithmetic on words.
ghost use Rattle.std.specs.Prelude.{◌≡◌, ◌+◌, ◌-◌, ◌%◌};
ghost use Rattle.std.specs.Int.Signed.{lt_z};
ghost use Rattle.calculus.specs.Numbers as numbers;

// What a number word means.
pub fn signed(n: u16) -> i32
    ensures { result ≡ numbers.signed n }
{
    n.cast_signed() as i32
}

// Is the first smaller by its signed meaning?
pub fn less(a: u16, b: u16) -> bool
    ensures { result ≡ lt_z (numbers.signed a) (numbers.signed b) }
{
    signed(a) < signed(b)
}

// The sum, wrapped to a word. It and subtract stay two: public functions, each with a clause of its own.
pub fn add(a: u16, b: u16) -> u16
    ensures { result ≡ (a + b) % 65536 }
{
    a.wrapping_add(b)
}

// The difference, wrapped to a word.
pub fn subtract(a: u16, b: u16) -> u16
    ensures { result ≡ (a + (65536 - b)) % 65536 }
{
    a.wrapping_sub(b)
}
