//! Laws of reads and writes, and of areas that are added. They do nothing at run time.
ghost use Rattle.s7_area.specs.Laws.{AreasJoin, BitsStandAlone, WritesKeepTheShape, WrittenIsRead};

/// A law: a write of a bit leaves the other bits of its octet unchanged.
pub fn bits_stand_alone()
    ensures { BitsStandAlone }
{}

/// A law: a read of an item right after a write of it with code FF gives the octets written, unless the item is a
/// bit.
pub fn written_is_read()
    ensures { WrittenIsRead }
{}

/// A law: a write leaves the names of the areas and their lengths unchanged.
pub fn writes_keep_the_shape()
    ensures { WritesKeepTheShape }
{}

/// A law: names have a total order. An area that is added adds its octets to the total. An area without a fault has
/// a name and a length that are allowed beside the other areas.
pub fn areas_join()
    ensures { AreasJoin }
{}
