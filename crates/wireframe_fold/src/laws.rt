//! Laws of foldings. These functions do nothing.

ghost use Rattle.wireframe_fold.specs.Inside.{InsideIsImage};
ghost use Rattle.wireframe_fold.specs.Laws.{FoldingIsOne, FoldingIsAlongWalk, ShapeIsOne};

use isometry_map::laws::{each_is_an_image, insides_are_images};

/// There is one folding at most.
pub fn folding_is_one()
    ensures { FoldingIsOne }
{}

/// Where there is a folding, the isometries along the walk are it.
pub fn folding_is_along_walk()
    ensures { FoldingIsAlongWalk }
{}

/// There is one folded shape at most.
pub fn shape_is_one()
    ensures { ShapeIsOne }
{}

/// What is strictly inside a folded face are the images of the points strictly left of all sides of the face.
pub fn inside_is_image()
    ensures { InsideIsImage }
{
    insides_are_images();
    each_is_an_image();
}
