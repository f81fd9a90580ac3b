//! Angles as whole numbers: 2^32 bits are a full turn.

ghost use Rattle.std.specs.Prelude.{◌≡◌, ◌%◌, ◌*◌, ◌^◌, pos};
ghost use Rattle.mesh_plane.specs.Rounding.{rounded};
ghost use Rattle.mesh_sine.specs.Sine.{sin_cos, IsWithinOne};

use crate::num::share::rounded_quotient;
use mesh_sine::sine;

/// An angle in bits, of which 2^32 are a full turn.
#[derive(Debug, Clone, Copy, PartialEq, Eq)]
pub struct Angle {
    bits: u32,
}

impl std::marker::Model for Angle {
    ghost use Rattle.std.specs.Prelude.{ℕ};

    ghost Value = { ℕ };

    ghost view = { λ a. a.bits };

    ghost inverse = { λ n. record { bits = n } };
}

impl Angle {
    /// An eighth of a turn, 2^29 bits.
    pub const EIGHTH_TURN: Angle = Angle { bits: 1 << 29 };

    /// A 1024th of a turn, 2^22 bits.
    pub const FINE_TURN: Angle = Angle { bits: 1 << 22 };

    /// The angle of this many bits.
    pub const fn from_bits(bits: u32) -> Self
        ensures { result ≡ bits }
    {
        Angle { bits }
    }

    /// The angle of this many thousandths of a degree, rounded to the nearest bit; it is at most half a bit away, about
    /// 42 billionths of a degree. A tie cannot occur. Full turns of 360,000 are taken off.
    pub fn from_thousandths_of_degree(thousandths: u32) -> Self
        ensures { pos result ≡ rounded (pos (thousandths % 360000 * 2 ^ 32)) 360000 }
    {
        let bits = rounded_quotient(i128::from(thousandths % 360_000) * (1 << 32), 360_000);
        Angle { bits: bits as u32 }
    }

    /// The angle in bits.
    pub const fn bits(self) -> u32
        ensures { result ≡ self }
    {
        self.bits
    }

    /// The sine and the cosine, in this order, each times 2^30.
    pub fn sin_cos(self) -> (i32, i32)
        ensures value { result ≡ sin_cos self }
        ensures bounded { IsWithinOne result }
    {
        sine::sin_cos(self.bits)
    }
}
