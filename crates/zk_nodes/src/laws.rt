//! What the definitions of paths say of one another.

ghost use Rattle.zk_nodes.specs.Laws.{TextIsReadBack, PathIsReadBack, PathIsGood};

/// A text that begins with a slash is the text of the path that is read from it.
pub fn text_is_read_back()
    ensures { TextIsReadBack }
{}

/// A path whose names are not empty and have no slash is the path of its text.
pub fn path_is_read_back()
    ensures { PathIsReadBack }
{}

/// A text without fault begins with a slash, has at most 4,096 bytes, and its path has good names.
pub fn path_is_good()
    ensures { PathIsGood }
{}
