//! Laws of the definitions that the contracts cite. Each is the contract of a function that does nothing.

ghost use Rattle.std.specs.Prelude.{◌+◌, ◌<◌, ◌⊎◌, ℕ};
ghost use Rattle.plane_geometry.specs.Position.{Position};
ghost use Rattle.open_region.specs.declared.Region.{Region};
ghost use Rattle.open_region.specs.Region.{HasPoint, HasPointLeftOf};

/// Where a region has a point, one of its two cuts by any line has one.
pub fn a_cut_keeps_a_point()
    ensures { (r : Region) (q : Position) (n : ℕ) → n < 8 → HasPoint r →
        HasPointLeftOf r q n ⊎ HasPointLeftOf r q (n + 8) }
{}
