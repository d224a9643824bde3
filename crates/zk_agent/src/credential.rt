//! A credential.

ghost use Rattle.std.specs.Prelude.{◌≡◌, ◌+◌, ◌<◌, ◌≤◌, ◌^◌, ◌↔◌, length, IfOk, IsErrOf};
ghost use Rattle.zk_jute.specs.Spelling.{spelling};
ghost use Rattle.zk_frames.specs.Frame.{frame};
ghost use Rattle.zk_frames.specs.declared.fault.PutFault.TheVariants.{TooLarge};
ghost use Rattle.zk_limits.specs.declared.limits.TheConstants.{LONGEST_OUTGOING};
ghost use Rattle.zk_agent.specs.Credentials.{auth_payload};

use std::alloc::{AllocError, Allocator, Global};
use zk_frames::{PutFault, seal_frame};
use zk_jute::{BytesRef, Record, Then};
use zk_limits::LONGEST_OUTGOING;

/// The xid and the type number of the request that introduces a client by a credential, and the type of its packet (`AuthPacket` of
/// zookeeper.jute; `ClientCnxn` of ZooKeeper's Java client).
const XID: i32 = -4;

const OPERATION: i32 = 100;

const PACKET: i32 = 0;

/// The most bytes of a scheme and a secret: the payload has 20 more.
const MOST: usize = LONGEST_OUTGOING - 20;

/// What introduces a session to servers: a scheme, as `digest`, and a secret, as `user:password`. It is the frame that is written of it.
///
/// Its bytes are overwritten when it is let go. That the compiler keeps these writes, though nothing reads them, is not proved; and a
/// program that copies the bytes, as to write them, has to overwrite its copies itself.
pub struct Credential<A: Allocator = Global> {
    pub(crate) frame: Vec<u8, A>,
}

impl<A: Allocator> Drop for Credential<A> {
    fn drop(mut self) {
        self.frame.fill(0);
        let Self { frame: _ } = self;
    }
}

impl<A: Allocator> Credential<A> {
    /// The frame that is written of it, which holds the secret.
    pub fn as_bytes(&self) -> &[u8]
        ensures { result.now ≡ self.now.frame.items }
    {
        self.frame.as_slice()
    }
}

/// The frame whose payload is the spelling of a message. `room` is how many bytes it has, so that no smaller block is left with a part.
fn framed<A: Allocator + Copy, R: Record<A>>(
    alloc: A,
    room: usize,
    message: &R,
) -> Result<Vec<u8, A>, AllocError>
    requires { length (spelling R.layout (R.view message.now)) < 2 ^ 30 }
    ensures { IfOk result (λ out. out.items ≡ frame (spelling R.layout (R.view message.now))) }
{
    let mut out = Vec::with_capacity(alloc, room)?;
    out.extend_from_slice(&[0; 4])?;
    if message.put(&mut out).is_err() {
        return Err(AllocError);
    }
    seal_frame(&mut out);
    Ok(out)
}

/// The frame of a credential.
#[tactic(auto, unfolding(crate::specs::Credentials::auth_payload))]
fn auth_frame<A: Allocator + Copy>(
    alloc: A,
    scheme: &str,
    secret: &[u8],
) -> Result<Vec<u8, A>, AllocError>
    requires { 20 + (length scheme.now + length secret.now) ≤ LONGEST_OUTGOING }
    ensures { IfOk result (λ out. out.items ≡ frame (auth_payload scheme.now secret.now)) }
{
    let room = 24 + (scheme.len() + secret.len());
    let bytes = BytesRef {
        bytes: Some(secret),
    };
    let packet = Then(PACKET, Then(scheme, bytes));
    framed(alloc, room, &Then(XID, Then(OPERATION, packet)))
}

impl<A: Allocator + Copy> Credential<A> {
    /// Of this scheme, with this secret.
    ///
    /// # Errors
    ///
    /// `TooLarge`: the payload, 20 bytes with the scheme and the secret, would have more than 1,048,575 bytes. `Memory`: memory ran out.
    pub fn new(alloc: A, scheme: &str, secret: &[u8]) -> Result<Credential<A>, PutFault>
        ensures frame { IfOk result (λ credential. credential.frame.items ≡ frame (auth_payload scheme.now secret.now)) }
        ensures too_large { IsErrOf result TooLarge ↔ (LONGEST_OUTGOING < 20 + (length scheme.now + length secret.now)) }
    {
        if scheme.len() > MOST || secret.len() > MOST - scheme.len() {
            return Err(PutFault::TooLarge);
        }
        Ok(Credential {
            frame: auth_frame(alloc, scheme, secret)?,
        })
    }

    /// The same once more, to be written.
    pub(crate) fn copy(&self, alloc: A) -> Result<Credential<A>, AllocError>
        ensures { IfOk result (λ credential. credential.frame.items ≡ self.now.frame.items) }
    {
        Ok(Credential {
            frame: Vec::from_slice(alloc, self.as_bytes())?,
        })
    }
}
