//! Laws of drawings that lie apart. Each function does nothing: its clause is the law.

ghost use Rattle.mesh_apart.specs.Laws.{AnswersJoin, ComponentsJoin, DrawingsJoin, EdgesMayChangePlaces};
ghost use Rattle.mesh_apart.specs.Laws.{OpenPartsHoldTheirOwn, OthersDoNotWind, ResolutionsJoin, ShapesJoin};

/// What lies apart from a box does not wind round the box's points, however it is split.
pub fn others_do_not_wind()
    ensures { OthersDoNotWind }
{}

/// A resolution of edges is one of the same edges in any order.
pub fn edges_may_change_places()
    ensures { EdgesMayChangePlaces }
{}

/// Resolutions of two lists of edges that lie apart are together one of all edges: its splits, segments and contours
/// are those of both, whatever shapes their rings make.
pub fn resolutions_join()
    ensures { ResolutionsJoin }
{}

/// Where no hole of either answer would stand with a contour of the other, two answers have one join in the order of
/// shapes, and it is a resolution of all edges.
pub fn shapes_join()
    ensures { ShapesJoin }
{}

/// No hole would, where each box of either list has a way out past those of the other.
pub fn open_parts_hold_their_own()
    ensures { OpenPartsHoldTheirOwn }
{}

/// The same of the answers of many drawings.
pub fn drawings_join()
    ensures { DrawingsJoin }
{}

/// Where each piece's box is apart from all others, two answers have one join in the order of shapes, and it is a
/// resolution of all edges.
pub fn answers_join()
    ensures { AnswersJoin }
{}

/// The same of the answers of many components.
pub fn components_join()
    ensures { ComponentsJoin }
{}
