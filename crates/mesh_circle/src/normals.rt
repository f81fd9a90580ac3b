//! Normals of the outer tangents of two circles, in 128 bits and apart from any coordinate type.

ghost use Rattle.std.specs.Prelude.{◌≡◌, ◌-◌, ◌*◌, ◌+ℤ◌, ◌-ℤ◌, ◌*ℤ◌, ◌^◌, ◌<◌, ◌≤◌, pos, unsigned_abs};
ghost use Rattle.mesh_num.specs.Widths.{IsUnit};
ghost use Rattle.mesh_plane.specs.Plane.{length_sq};
ghost use Rattle.mesh_sine.specs.Sine.{root};
ghost use Rattle.mesh_circle.specs.Private.Normals.{IsBounded};
ghost use Rattle.mesh_circle.specs.Tangents.{lift, left_normal, right_normal, normal_length};

/// The directions from the centers of two circles to the points at which their outer tangents touch them, on the left
/// and on the right, and the length that neither passes.
#[derive(Drop)]
pub(crate) struct Normals {
    pub(crate) left: (i128, i128),
    pub(crate) right: (i128, i128),
    pub(crate) length: u128,
}

/// The normals of the tangents of two circles, where `(x, y)` is the vector from the first center to the second,
/// `square` its squared length, and `delta` by how much the first radius is greater. Squared lengths are lifted by a
/// power of two before a root is taken, so that it has more digits.
pub(crate) fn tangent_normals(unit: u64, square: u128, x: i128, y: i128, delta: i128) -> Normals
    requires unit { IsUnit unit }
    requires square { square ≡ length_sq (x, y) }
    requires most { square < 8 * unit * unit }
    requires delta { unsigned_abs delta * unsigned_abs delta < square }
    ensures left { result.left ≡ left_normal unit (x, y) delta }
    ensures right { result.right ≡ right_normal unit (x, y) delta }
    ensures length { result.length ≡ normal_length unit (x, y) }
    ensures left_bounded { IsBounded result.length result.left }
    ensures right_bounded { IsBounded result.length result.right }
{
    let lift = lift(unit, square as u64);
    let along = tangent_length(square, lift, delta.unsigned_abs()) as i128;
    let across = lifted(delta, lift);
    Normals {
        left: turned(across, along, x, y),
        right: turned(across, -along, x, y),
        length: square * lift,
    }
}

// The power of two by whose square a squared length is lifted.
fn lift(unit: u64, square: u64) -> u128
    requires unit { IsUnit unit }
    requires most { square < 8 * unit * unit }
    ensures value { result ≡ lift unit square }
    ensures size { result ≤ 2 ^ 31 }
{
    let bound = 8 * unit * unit;
    let doublings = square.leading_zeros() - bound.leading_zeros() - 1;
    1 << (doublings / 2)
}

// How far the contacts lie apart, lifted, where `delta` is the size of the difference of the radii.
fn tangent_length(square: u128, lift: u128, delta: u128) -> u128
    requires square { square < 2 ^ 63 }
    requires lift { lift ≤ 2 ^ 31 }
    requires delta { delta * delta < square }
    ensures value { result ≡ root ((square - delta * delta) * (lift * lift)) }
    ensures size { result < 2 ^ 64 }
{
    let rest = square - delta * delta;
    (rest * (lift * lift)).isqrt()
}

// A difference of radii times the power of two.
fn lifted(delta: i128, lift: u128) -> i128
    requires delta { unsigned_abs delta ≤ 2 ^ 32 }
    requires lift { lift ≤ 2 ^ 31 }
    ensures value { result ≡ delta *ℤ pos lift }
    ensures size { unsigned_abs result ≤ 2 ^ 64 }
{
    delta * lift as i128
}

// The vector `(x, y)` times `across` and, turned to the left by a quarter, times `along`.
fn turned(across: i128, along: i128, x: i128, y: i128) -> (i128, i128)
    requires across { unsigned_abs across ≤ 2 ^ 64 }
    requires along { unsigned_abs along ≤ 2 ^ 64 }
    requires x { unsigned_abs x ≤ 2 ^ 32 }
    requires y { unsigned_abs y ≤ 2 ^ 32 }
    ensures x { result.0 ≡ (across *ℤ x) -ℤ (along *ℤ y) }
    ensures y { result.1 ≡ (across *ℤ y) +ℤ (along *ℤ x) }
{
    (
        product(across, x) - product(along, y),
        product(across, y) + product(along, x),
    )
}

// A product of a lifted length and a component of a vector.
fn product(a: i128, b: i128) -> i128
    requires a { unsigned_abs a ≤ 2 ^ 64 }
    requires b { unsigned_abs b ≤ 2 ^ 32 }
    ensures value { result ≡ a *ℤ b }
    ensures size { unsigned_abs result ≤ 2 ^ 96 }
{
    a * b
}
