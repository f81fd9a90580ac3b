//! Laws of the definitions that contracts cite. Each function does nothing: its clause is the law.

ghost use Rattle.mesh_sine.specs.Laws.{SinesAreNotSmall};

/// Below a quarter turn only small angles have small sines.
pub fn sines_are_not_small()
    ensures { SinesAreNotSmall }
{}
