//! Whole roots in 128 bits, apart from any coordinate type.

ghost use Rattle.std.specs.Prelude.{◌≡◌, ◌+◌, ◌-◌, ◌*◌, ◌^◌, ◌<◌, ◌≤◌};
ghost use Rattle.mesh_num.specs.Roots.{raised_root};

/// The greatest number whose square is at most 2^64 times the squared length of a vector whose components have these
/// sizes: its length in 2^32nds of a grid unit, cut.
pub(crate) fn fine_length(square: u128, width: u128, height: u128) -> u128
    requires square { square ≡ width * width + height * height }
    requires length { 0 < square }
    requires width { width < 2 ^ 31 }
    requires height { height < 2 ^ 31 }
    ensures within { result * result ≤ square * 2 ^ 64 }
    ensures above { square * 2 ^ 64 < (result + 1) * (result + 1) }
{
    let short = square as u64;
    // An even shift leaves the digits of the root as they are.
    let half = short.leading_zeros() / 2;
    let root = near_root(short << (2 * half)) >> half;
    if root * root > square * (1 << 64) {
        root - 1
    } else {
        root
    }
}

// The root of 2^64 times a number, at most one too great: the root of the number, and the rest over twice that.
fn near_root(number: u64) -> u128
    requires large { 2 ^ 62 ≤ number }
    ensures above { number * 2 ^ 64 < (result + 1) * (result + 1) }
    ensures near { (result - 1) * (result - 1) ≤ number * 2 ^ 64 }
{
    let root = short_root(number);
    let rest = number - root * root;
    root as u128 * (1 << 32) + (rest * (1 << 31) / root) as u128
}

// The greatest number whose square is at most `number`: a guess, corrected. From 2^62 on no guess was found that is too
// great, or that is too small by more than one.
fn short_root(number: u64) -> u64
    ensures within { result * result ≤ number }
    ensures above { number < (result + 1) * (result + 1) }
    ensures size { result < 2 ^ 32 }
{
    let mut root = guessed_root(number);
    while root * root > number {
        root -= 1;
    }
    while number - root * root > 2 * root {
        root += 1;
    }
    root
}

// A guess at the root of a number of at least 2^62, with no division. Nothing is promised but that its square fits.
fn guessed_root(number: u64) -> u64
    ensures { result < 2 ^ 32 }
{
    let part = number >> 32;
    // The parabola nearest to the inverse root, which it misses by a 41st, in 2^30ths.
    let slope = 3_527_624_778 - ((1_759_398_817 * part) >> 32);
    let first = 2_867_787_662u64.saturating_sub((slope * part) >> 32);
    let inverse = closer_inverse(part, closer_inverse(part, first.min(1 << 31)));
    // From there a step, begun a little below the root.
    let most = u32::MAX as u64;
    let low = ((part * inverse) >> 30).min(most).saturating_sub(4);
    let rest = (number.saturating_sub(low * low) >> 16).min(most);
    (low + ((rest * inverse) >> 47)).min(most)
}

// Newton's step for the inverse root of `part` 2^32nds, in 2^30ths.
fn closer_inverse(part: u64, inverse: u64) -> u64
    requires part { part < 2 ^ 32 }
    requires inverse { inverse ≤ 2 ^ 31 }
    ensures { result ≤ 2 ^ 31 }
{
    let product = (part * ((inverse * inverse) >> 30)) >> 32;
    let closer = (inverse * (3u64 << 30).saturating_sub(product)) >> 31;
    closer.min(1 << 31)
}

/// The root of a number, raised to the next whole number where it is none.
pub fn raised_root(number: u128) -> u128
    ensures value { result ≡ raised_root number }
    ensures size { number < 2 ^ 64 → result ≤ 2 ^ 32 }
{
    let root = number.isqrt();
    if root * root == number {
        root
    } else {
        root + 1
    }
}
