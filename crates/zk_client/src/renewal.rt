//! A new session after one that is over.

use crate::client::Client;
use std::alloc::{AllocError, Allocator};
use zk_session::Saved;

impl<A: Allocator + Copy> Client<A> {
    ghost use Rattle.std.specs.Prelude.{◌≡◌, ◌<ℤ◌, pos, [], IfOk};
    ghost use Rattle.zk_turns.specs.View.{view_at};
    ghost use Rattle.zk_turns.specs.Rule.{Stands};
    ghost use Rattle.zk_turns.specs.Ranges.{IsResumable};
    ghost use Rattle.zk_client.specs.Clients.{view_of, renewed_start};

    /// A client of a new session that goes on after this one, as where it has expired, with this timeout in milliseconds. It keeps the
    /// limits, and the last seen zxid, so that no server which is behind it admits the session. It keeps no answers and watches nothing. An
    /// error says that there is no memory for the password of no session.
    pub fn renewed(&self, alloc: A, timeout_ms: i32) -> Result<Client<A>, AllocError>
        requires { pos 0 <ℤ timeout_ms }
        ensures view { IfOk result (λ client. view_of client ≡ view_at (renewed_start timeout_ms (view_of self.now)) []) }
        ensures stands { IfOk result (λ client. Stands (renewed_start timeout_ms (view_of self.now)) [] (view_of client)) }
        ensures resumable { IfOk result (λ client. IsResumable (renewed_start timeout_ms (view_of self.now))) }
    {
        let saved = Saved {
            session: 0,
            password: &[0; 16],
            last_zxid: self.saved().last_zxid,
        };
        let client = Client::resume(alloc, timeout_ms, &saved)?;
        Ok(client.with_limits(self.limits()))
    }
}
