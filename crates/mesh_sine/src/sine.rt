//! The sine and the cosine of an angle. A full turn has 2^32 bits.

ghost use Rattle.std.specs.Prelude.{◌≡◌, ◌+◌, ◌*◌, ◌^◌, ◌<◌, ◌≤◌};
ghost use Rattle.mesh_sine.specs.Sine.{one, sum_pair, low_pair, in_quarter, sin_cos, IsWithinOne};

use crate::table::pair_of_bit;

/// The sine and the cosine, times 2^30, of an angle of so many bits, of which a full turn has 2^32.
pub fn sin_cos(bits: u32) -> (i32, i32)
    ensures value { result ≡ sin_cos bits }
    ensures bounded { IsWithinOne result }
{
    let (cosine, sine) = in_first_quarter(bits % (1 << 30));
    in_quarter(
        bits / (1 << 30),
        (cosine / (1 << 30)) as u32,
        (sine / (1 << 30)) as u32,
    )
}

// Sine and cosine after so many quarter turns.
fn in_quarter(quarters: u32, cosine: u32, sine: u32) -> (i32, i32)
    requires quarters { quarters < 4 }
    requires short { cosine * cosine + sine * sine ≤ 2 ^ 60 }
    ensures value { result ≡ in_quarter quarters cosine sine }
    ensures bounded { IsWithinOne result }
{
    let cosine = cosine as i32;
    let sine = sine as i32;
    match quarters {
        0 => (sine, cosine),
        1 => (cosine, -sine),
        2 => (-sine, -cosine),
        _ => (-cosine, sine),
    }
}

// The cosine and the sine, times 2^60, of an angle of less than a quarter turn.
fn in_first_quarter(low: u32) -> (u128, u128)
    ensures value { result ≡ low_pair low }
    ensures short { result.0 * result.0 + result.1 * result.1 ≤ one * one }
{
    let mut cosine: u128 = 1 << 60;
    let mut sine: u128 = 0;
    for bit in (0..30u32).rev() {
        if (low >> bit) % 2 == 1 {
            let (bit_cosine, bit_sine) = pair_of_bit(bit);
            (cosine, sine) = sum(cosine, sine, bit_cosine, bit_sine);
        }
    }
    (cosine, sine)
}

// The cosine and the sine of the sum of two angles.
fn sum(cosine: u128, sine: u128, other_cosine: u128, other_sine: u128) -> (u128, u128)
    requires cosine { cosine ≤ one }
    requires sine { sine ≤ one }
    requires other_cosine { other_cosine ≤ one }
    requires other_sine { other_sine ≤ one }
    ensures { result ≡ sum_pair (cosine, sine) (other_cosine, other_sine) }
{
    let lost = sine * other_sine;
    (
        (cosine * other_cosine).saturating_sub(lost) / (1 << 60),
        (sine * other_cosine + cosine * other_sine) / (1 << 60),
    )
}
