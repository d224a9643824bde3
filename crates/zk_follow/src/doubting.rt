//! Subjects of which what is kept is doubted.

ghost use Rattle.std.specs.Prelude.{◌≡◌, map};
ghost use Rattle.zk_follow.specs.Following.{doubted};

use crate::subject::Subject;
use std::alloc::Allocator;

/// What is kept of each of these is doubted.
pub(crate) fn doubt_each<A: Allocator>(subjects: &mut [Subject<A>])
    ensures { subjects.new ≡ map doubted subjects.old }
{
    for subject in subjects.iter_mut() {
        subject.doubt();
    }
}
