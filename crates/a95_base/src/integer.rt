//! Arithmetic of the 32-bit INTEGER. No call takes memory. What each one gives stands in `specs/Integer.antt`.
ghost use Rattle.std.specs.Prelude.{◌≡◌, ◌<ℤ◌, pos};
ghost use Rattle.a95_base.specs.Integer.{wrapped, quotient_of, remainder_of, modulo_of, raised, power_of};

/// What is left of a number in the 32 bits of an INTEGER: its value modulo 2^32, from -2^31 to 2^31 - 1.
pub fn wrap32(x: i64) -> i32
    ensures { result ≡ wrapped x }
{
    (x.rem_euclid(1 << 32) as u32).cast_signed()
}

/// The quotient, cut off towards zero and wrapped. None exactly where the divisor is 0.
pub fn divide(a: i32, b: i32) -> Option<i32>
    ensures { result ≡ quotient_of a b }
{
    if b == 0 {
        return None;
    }
    Some(a.wrapping_div(b))
}

/// MOD: what division leaves, with the sign of `a`. None exactly where `p` is 0.
pub fn remainder(a: i32, p: i32) -> Option<i32>
    ensures { result ≡ remainder_of a p }
{
    if p == 0 {
        return None;
    }
    Some(a.wrapping_rem(p))
}

/// MODULO: the same with the sign of `p`. None exactly where `p` is 0.
pub fn modulo(a: i32, p: i32) -> Option<i32>
    ensures { result ≡ modulo_of a p }
{
    if p == 0 {
        return None;
    }
    let wide = i64::from(a);
    if p < 0 {
        return Some(-(-wide).rem_euclid(-i64::from(p)) as i32);
    }
    Some(wide.rem_euclid(i64::from(p)) as i32)
}

/// The power, wrapped; by a negative exponent one divided by the exact power. None exactly where 0 has a negative one.
pub fn power(a: i32, n: i32) -> Option<i32>
    ensures { result ≡ power_of a n }
{
    match u32::try_from(n) {
        Ok(exponent) => Some(raise(a, exponent)),
        Err(_) => inverse_power(a, n),
    }
}

/// The power by an exponent that isn't negative, wrapped.
pub fn raise(a: i32, exponent: u32) -> i32
    ensures { result ≡ raised a exponent }
{
    a.wrapping_pow(exponent)
}

// The power by a negative exponent: 1 and -1 alone have one other than 0.
fn inverse_power(a: i32, n: i32) -> Option<i32>
    requires negative { n <ℤ pos 0 }
    ensures { result ≡ power_of a n }
{
    match a {
        0 => None,
        1 => Some(1),
        -1 => Some(if n % 2 == 0 { 1 } else { -1 }),
        _ => Some(0),
    }
}
