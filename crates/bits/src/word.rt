// The bits of one word, from the right: each shift, mask and count is a function of its own.
ghost use Rattle.std.specs.Prelude.{◌≡◌, ℕ, suc, ◌%◌, ◌^◌, ◌≤◌, ◌<◌, ◌-◌, max};
ghost use Rattle.std.specs.Int.Count.{ones};
ghost use Rattle.book.specs.Bits.{digit, to_digit};
ghost use Rattle.bits.specs.Word.{FirstClear, ZerosBelow, ZerosAbove};

// The word of which each bit is 1.
pub(crate) const FULL: u16 = u16::MAX;

// The word whose only 1 is bit j.
fn power(j: usize) -> u16
    requires { j < 16 }
    ensures { result ≡ 2 ^ j }
{
    1 << j
}

// Bit j of w.
pub(crate) fn digit_in(w: u16, j: usize) -> u16
    requires { j < 16 }
    ensures { (result ≡ digit j w) × (result < 2) }
{
    (w >> j) % 2
}

// w with bit j made 1.
pub(crate) fn with_one(w: u16, j: usize) -> u16
    requires { j < 16 }
    ensures { result ≡ to_digit j w 1 }
{
    w | power(j)
}

// w with bit j made 0.
pub(crate) fn with_zero(w: u16, j: usize) -> u16
    requires { j < 16 }
    ensures { result ≡ to_digit j w 0 }
{
    w & !power(j)
}

// The number of ones of w.
pub(crate) fn ones_in(w: u16) -> usize
    ensures { (result ≡ ones w) × (result ≤ 16) }
{
    w.count_ones() as usize
}

// The word whose n lowest bits are 1.
fn low_ones(n: usize) -> u16
    requires { n < 16 }
    ensures { result ≡ 2 ^ n - 1 }
{
    power(n) - 1
}

// The n lowest bits of w.
pub fn low_bits(w: u16, n: usize) -> u16
    requires { n < 16 }
    ensures { result ≡ w % 2 ^ n }
{
    w & low_ones(n)
}

// The number of ones among the n lowest bits of w.
pub(crate) fn ones_low(w: u16, n: usize) -> usize
    requires { n < 16 }
    ensures { (result ≡ ones (w % 2 ^ n)) × (result ≤ 16) }
{
    ones_in(low_bits(w, n))
}

// w with its n lowest bits made 1.
pub(crate) fn ones_below(w: u16, n: usize) -> u16
    requires { n < 16 }
    ensures { (j : ℕ) → digit j result ≡ max (digit j w) (1 - (suc j - n)) }
{
    w | low_ones(n)
}

// w with its bits from bit n on made 1.
pub(crate) fn ones_from(w: u16, n: usize) -> u16
    requires { n < 16 }
    ensures { (j : ℕ) → j < 16 → digit j result ≡ max (digit j w) (1 - (n - j)) }
{
    w | !low_ones(n)
}

// How many zeros stand below the lowest 1 of w.
pub(crate) fn zeros_below(w: u16) -> usize
    ensures { ZerosBelow w result }
{
    w.trailing_zeros() as usize
}

// How many zeros stand above the highest 1 of w.
pub(crate) fn zeros_above(w: u16) -> usize
    ensures { ZerosAbove w result }
{
    w.leading_zeros() as usize
}

// The place of the lowest 0 of w, and 16 if there is none.
pub(crate) fn first_clear(w: u16) -> usize
    ensures { FirstClear w result }
{
    zeros_below(!w)
}
