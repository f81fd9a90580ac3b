//! Exact sums of products in 128 bits, apart from any coordinate type.

ghost use Rattle.std.specs.Prelude.{◌≡◌, ◌*◌, ◌^◌, ◌<◌, unsigned_abs};
ghost use Rattle.mesh_plane.specs.Plane.{length_sq};

/// `x * x + y * y`.
pub(crate) fn square_sum(x: i128, y: i128) -> u128
    requires x_size { unsigned_abs x < 2 ^ 32 }
    requires y_size { unsigned_abs y < 2 ^ 32 }
    ensures { result ≡ length_sq (x, y) }
{
    let width = x.unsigned_abs();
    let height = y.unsigned_abs();
    square(width) + square(height)
}

fn square(size: u128) -> u128
    requires { size < 2 ^ 32 }
    ensures value { result ≡ size * size }
    ensures range { result < 2 ^ 64 }
{
    size * size
}
