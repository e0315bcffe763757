//! What the numbers of linear parts stand for, and what isometries keep. These functions do nothing: each contract is a law of matrices.

ghost use Rattle.isometry_map.specs.Laws.{CompositionIsProduct, ConvexImages, DirectionsGoToDirections, EachIsAnImage, InsidesAreImages, IsometriesAreTheirMaps, PartsDiffer, ReflectionsKeepTheirLines, SidesAreKept, TurnedReverse};

/// The composition of two linear parts stands for the product of their matrices.
pub fn composition_is_product()
    ensures { CompositionIsProduct }
{}

/// Different numbers stand for different linear parts.
pub fn parts_differ()
    ensures { PartsDiffer }
{}

/// The reflection in a line of a direction keeps that direction, and turns the one at a right angle round.
pub fn reflections_keep_their_lines()
    ensures { ReflectionsKeepTheirLines }
{}

/// The determinant is -1 where a linear part reverses orientation, else 1.
pub fn turned_reverse()
    ensures { TurnedReverse }
{}

/// Where it goes in a direction from one point to another, it goes in the image of the direction between the images.
pub fn directions_go_to_directions()
    ensures { DirectionsGoToDirections }
{}

/// Sides of a line are kept, or are all turned where orientation is reversed.
pub fn sides_are_kept()
    ensures { SidesAreKept }
{}

/// Isometries are equal exactly where each point has one image by both.
pub fn isometries_are_their_maps()
    ensures { IsometriesAreTheirMaps }
{}

/// The images of the corners of a convex polygon are those of one, and run the other way where orientation is reversed.
pub fn images_are_convex()
    ensures { ConvexImages }
{}

/// A point is strictly left of all sides of a polygon exactly where its image is of those of the image.
pub fn insides_are_images()
    ensures { InsidesAreImages }
{}

/// Each point is the image of one.
pub fn each_is_an_image()
    ensures { EachIsAnImage }
{}
