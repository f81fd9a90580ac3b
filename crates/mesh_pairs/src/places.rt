//! Sets of eight places, each a bit of a number.

ghost use Rattle.std.specs.Prelude.{◌≡◌, ◌↔◌, ℕ, ◌<◌, ◌^◌};
ghost use Rattle.mesh_pairs.specs.Boxes.{IsIn};

fn first(places: u32) -> u32
    requires some { 0 < places }
    requires few { places < 2 ^ 8 }
    ensures within { result < 8 }
    ensures was { IsIn places result }
{
    places.trailing_zeros()
}

fn without(places: u32, place: u32) -> u32
    requires within { place < 8 }
    requires was { IsIn places place }
    ensures others { (k : ℕ) → k < 8 → (k ≡ place → ⊥) → IsIn result k ↔ IsIn places k }
    ensures less { result < places }
{
    places & !(1u32 << place)
}

/// Takes the first place out of a set.
#[inline]
pub fn take_first(places: &mut u32) -> usize
    requires some { 0 < places.old }
    requires few { places.old < 2 ^ 8 }
    ensures within { result < 8 }
    ensures was { IsIn places.old result }
    ensures others { (k : ℕ) → k < 8 → (k ≡ result → ⊥) → IsIn places.new k ↔ IsIn places.old k }
    ensures less { places.new < places.old }
{
    let place = first(*places);
    *places = without(*places, place);
    place as usize
}

/// Those of a set after a place.
#[inline]
pub fn after(places: u32, place: usize) -> u32
    requires within { place < 8 }
    requires few { places < 2 ^ 8 }
    ensures kept { (k : ℕ) → place < k → k < 8 → IsIn places k → IsIn result k }
    ensures left_out { (k : ℕ) → k < 8 → IsIn result k → place < k }
    ensures was { (k : ℕ) → k < 8 → IsIn result k → IsIn places k }
    ensures few { result < 2 ^ 8 }
{
    places & (u32::MAX << (place + 1))
}
