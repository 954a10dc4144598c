//! 32-bit counters that wrap, and how their differences relate to the whole numbers that they count.

ghost use Rattle.std.specs.Prelude.{◌≡◌, ℕ, ◌+◌, ◌-◌, ◌%◌, ◌^◌, ◌<◌, ◌≤◌, nat_le, pos, ◌-ℤ◌};
ghost use Rattle.dql_core.specs.Counter.{IsWrapped, AreNear, distance_of};

/// Returns `a - b` if that is positive, else 0: the kernel's `POSDIFF`.
pub(crate) fn positive_difference(a: u32, b: u32) -> u32
    ensures counters { (x y : ℕ) → IsWrapped a x → IsWrapped b y → AreNear x y → result ≡ x - y }
    ensures numbers { AreNear a b → result ≡ a - b }
{
    let difference = a.wrapping_sub(b);
    if difference.cast_signed() > 0 {
        difference
    } else {
        0
    }
}

/// Returns whether `a` is at or after `b`: the kernel's `AFTER_EQ`.
pub(crate) fn is_at_or_after(a: u32, b: u32) -> bool
    ensures { (x y : ℕ) → IsWrapped a x → IsWrapped b y → AreNear x y → result ≡ nat_le y x }
{
    a.wrapping_sub(b).cast_signed() >= 0
}

/// Returns `a - b`, negative if `a` is before `b`: the difference that the kernel's `dql_avail` returns as an `int`.
pub(crate) fn signed_difference(a: u32, b: u32) -> i64
    ensures { (x y : ℕ) → IsWrapped a x → IsWrapped b y → AreNear x y → result ≡ pos x -ℤ pos y }
{
    i64::from(a.wrapping_sub(b).cast_signed())
}

/// Returns `a - b`, for an `a` that is known to be at or after `b`.
pub(crate) fn distance(a: u32, b: u32) -> u32
    ensures counter { result ≡ distance_of a b }
    ensures whole { (x y : ℕ) → IsWrapped a x → IsWrapped b y → y ≤ x → x < y + 2 ^ 32
        → result ≡ x - y }
{
    a.wrapping_sub(b)
}

/// Returns the counter `a` advanced by `count`.
pub(crate) fn advance(a: u32, count: u32) -> u32
    ensures counter { result ≡ (a + count) % 2 ^ 32 }
    ensures whole { (x : ℕ) → IsWrapped a x → IsWrapped result (x + count) }
{
    a.wrapping_add(count)
}
