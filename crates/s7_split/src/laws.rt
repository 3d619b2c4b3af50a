//! Laws of parts and groups. They do nothing at run time.
ghost use Rattle.s7_split.specs.Parts.{PartsAreExact, PartsCanBeAsked};
ghost use Rattle.s7_split.specs.Groups.{GroupsAreExact, GroupsAreShort, EndsCutGroups};

/// A law: items are the list of parts of an item exactly if four conditions are true. They have its area, data
/// block and word length, and aren't empty; they adjoin from its address on; together they have its elements; and
/// each but the last has as many elements as there is room for.
pub fn parts_are_exact()
    ensures { PartsAreExact }
{}

/// A law: the request for each part and its answer fit the PDU length, and each part's range ends inside the
/// address field.
pub fn parts_can_be_asked()
    ensures { PartsCanBeAsked }
{}

/// A law: lists of items are the groups of these items exactly if three conditions are true. One after another
/// they are these items; each has items and fits the PDU length; and none but the last would still fit with the
/// next item added. No group has more than twenty items.
pub fn groups_are_exact()
    ensures exact { GroupsAreExact }
    ensures short { GroupsAreShort }
{}

/// A law: cutting the items where the groups end gives the groups again.
pub fn ends_cut_groups()
    ensures { EndsCutGroups }
{}
