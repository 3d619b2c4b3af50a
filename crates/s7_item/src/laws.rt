//! Laws of what is read and written. They do nothing at run time.
ghost use Rattle.s7_item.specs.Params.{ItemsReadBack, ItemsAreExact};
ghost use Rattle.s7_item.specs.DataLaws.{DataItemsReadBack, DataItemsAreExact, AreAsMany};
ghost use Rattle.s7_item.specs.Sizes.{ReadsHaveTheirSize, WritesHaveTheirSize, FullAnswersHaveTheirSize, AnswersFit};

/// A law: what is written for items is read as these items.
pub fn items_read_back()
    ensures { ItemsReadBack }
{}

/// A law: octets are read as items exactly if they spell these items.
pub fn items_are_exact()
    ensures { ItemsAreExact }
{}

/// A law: what is written for data items with octets is read as the ranges of these octets.
pub fn data_items_read_back()
    ensures { DataItemsReadBack }
{}

/// A law: octets are read as data items with these ranges exactly if they spell such data items.
pub fn data_items_are_exact()
    ensures exact { DataItemsAreExact }
    ensures many { AreAsMany }
{}

/// A law: the predicted sizes are the lengths of what is written. An answer is at most as long as predicted if no
/// item in it has more octets than its request asks for.
pub fn sizes_are_lengths()
    ensures reads { ReadsHaveTheirSize }
    ensures writes { WritesHaveTheirSize }
    ensures answers { FullAnswersHaveTheirSize }
    ensures fit { AnswersFit }
{}
