//! What holds of the parts of any lists.
ghost use Rattle.zk_watches.specs.Parts.{PartsAreFull, PartsAreOne};

/// Where each path has at most 4,096 bytes, the parts joined are the lists, none of them is empty, and each is within its
/// weight and full.
pub fn parts_are_full()
    ensures { PartsAreFull }
{}

/// Nothing else is so cut.
pub fn parts_are_one()
    ensures { PartsAreOne }
{}
