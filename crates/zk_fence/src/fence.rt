//! The greatest token that a store has taken.

ghost use Rattle.std.specs.Prelude.{◌≡◌, None, Some};
ghost use Rattle.zk_fence.specs.Fences.{greatest_after, is_taken};

/// What a store keeps of the tokens that it has taken: the greatest, or none yet. Keep it with what is written, in one transaction of the
/// store, so that it is there again after a restart.
#[derive(Clone, Copy)]
pub struct Fence {
    pub(crate) greatest: Option<i64>,
}

impl Fence {
    /// A store that has taken no token.
    pub fn new() -> Fence
        ensures { result.greatest ≡ None }
    {
        Fence { greatest: None }
    }

    /// A store whose greatest token is this one.
    pub fn resume(greatest: i64) -> Fence
        ensures { result.greatest ≡ Some greatest }
    {
        Fence {
            greatest: Some(greatest),
        }
    }

    /// The greatest token that was taken, if one was.
    pub fn greatest(&self) -> Option<i64>
        ensures { result ≡ self.now.greatest }
    {
        self.greatest
    }

    /// Whether a write with this token is to be taken. It is refused where a greater token was taken, and nothing changes then.
    pub fn admit(&mut self, token: i64) -> bool
        ensures taken { result ≡ is_taken self.old.greatest token }
        ensures greatest { self.new.greatest ≡ greatest_after self.old.greatest token }
    {
        if let Some(greatest) = self.greatest {
            if token < greatest {
                return false;
            }
        }
        self.greatest = Some(token);
        true
    }
}
