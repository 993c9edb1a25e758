ghost use Rattle.std.specs.Prelude.{◌≡◌, ◌<◌, ◌/◌, ◌%◌};

/// The remainder of a division. The divisor isn't 0.
///
/// Numbers of banks and of sets are mostly powers of two. For these a mask gives the remainder, which is much cheaper than a
/// division.
#[inline(always)]
pub fn remainder(number: u32, divisor: u32) -> u32
    requires { 0 < divisor }
    ensures { result ≡ number % divisor }
{
    if divisor.is_power_of_two() {
        number & (divisor - 1)
    } else {
        number % divisor
    }
}

/// The quotient of a division, rounded down. The divisor isn't 0. For a power of two a shift gives it.
#[inline(always)]
pub fn quotient(number: u32, divisor: u32) -> u32
    requires { 0 < divisor }
    ensures { result ≡ number / divisor }
{
    if divisor.is_power_of_two() {
        number >> divisor.trailing_zeros()
    } else {
        number / divisor
    }
}
