// Laws of the lists of strips, whoever makes them.
ghost use Rattle.std.specs.Prelude.{◌≡◌, ℕ};
ghost use Rattle.cpl_mosaic.specs.Lists.{MosaicLists};
ghost use Rattle.cpl_mosaic.specs.Mates.{MatesAgree};
ghost use Rattle.cpl_layout.specs.Layouts.{Cuts, IsLayout};
ghost use Rattle.cpl_strip.specs.Between.{StripsAgree, FaceStripsAgree};

/// The strips of a layout of a mosaic as a list: they are the layout's strips, and each has all that the holes of its pair of
/// pieces take, in the order of the holes.
pub fn strips_law()
    ensures { (mosaic : MosaicLists) (layout : Cuts) (width : ℕ) → layout.tiles ≡ mosaic.tiles → MatesAgree mosaic → IsLayout layout → StripsAgree mosaic layout width }
{}

/// The face strips of a layout of a mosaic as a list: they are the layout's face strips, and each has all faces of its pair
/// of pieces, in the order of their second sides along the edges.
pub fn face_strips_law()
    ensures { (mosaic : MosaicLists) (layout : Cuts) → layout.tiles ≡ mosaic.tiles → MatesAgree mosaic → IsLayout layout → FaceStripsAgree mosaic layout }
{}
