//! Frames in a stream of bytes, each by its xid.

ghost use Rattle.std.specs.Prelude.{◌≡◌, ◌<◌, ◌≤◌, ◌-◌, if◌then◌else◌, length, take, IfSome};
ghost use Rattle.std.specs.Int.{w64, from_be_bytes};
ghost use Rattle.zk_agent.specs.Credentials.{is_answer};
ghost use Rattle.zk_agent.specs.Waits.{at_first, ends_with, headed, is_of_call, is_of_ping, is_whole, next_place, place_after};
ghost use Rattle.zk_agent.specs.inner.Waits.{begun, passed_end, xid_at_end};

/// How many bytes the length and the xid of a frame have.
const HEAD: u32 = 8;

/// The first number that does not fit four bytes.
const WORD: u64 = 4_294_967_296;

/// The first xid of four bytes that is below 0.
const NEGATIVE: u64 = 2_147_483_648;

/// The xid of a ping and of its answer, which is -2, as the number of its four bytes.
const PING: u64 = 4_294_967_294;

/// The xid of an answer to a credential, which is -4, in the same way.
const AUTH: u64 = 4_294_967_292;

/// How many bytes the header of a reply has: xid, zxid and code.
const HEADER: u64 = 16;

/// Where a stream of frames is: how many bytes of the length and the xid of a frame came, the last eight of these as a number, and how
/// many bytes of the frame are left after them.
#[derive(Clone, Copy)]
pub struct Frames {
    pub(crate) held: u32,
    pub(crate) head: u64,
    pub(crate) left: u64,
}

impl Frames {
    /// At the beginning of a stream.
    pub(crate) fn new() -> Frames
        ensures { result ≡ at_first }
    {
        Frames {
            held: 0,
            head: 0,
            left: 0,
        }
    }

    /// Takes a byte of the length or the xid.
    fn take_head(&mut self, byte: u8)
        requires { self.old.held < 8 }
        ensures { self.new ≡ headed byte self.old }
    {
        self.held += 1;
        self.head = self.head.wrapping_mul(256).wrapping_add(u64::from(byte));
        self.left = (self.head / WORD).saturating_sub(4);
    }

    /// Whether the frame has come whole.
    fn is_whole(&self) -> bool
        ensures { result ≡ is_whole self.now }
    {
        self.held == HEAD && self.left == 0
    }

    /// Takes the next byte. A frame that ends with it has come whole then.
    pub(crate) fn take_byte(&mut self, byte: u8)
        ensures { self.new ≡ next_place byte self.old }
    {
        if self.held < HEAD {
            self.take_head(byte);
        } else {
            self.left = self.left.saturating_sub(1);
        }
    }

    /// Goes on to the next frame, if one has come whole. Whether it has.
    pub(crate) fn pass_end(&mut self) -> bool
        ensures place { self.new ≡ (if is_whole self.old then record self.old { held = 0 } else self.old) }
        ensures whole { result ≡ is_whole self.old }
    {
        if self.is_whole() {
            self.held = 0;
            return true;
        }
        false
    }

    /// Goes on to the next frame, if one has come whole. The xid of that one.
    fn read_end(&mut self) -> Option<u64>
        ensures place { self.new ≡ passed_end self.old }
        ensures xid { result ≡ xid_at_end self.old }
    {
        if self.pass_end() {
            return Some(self.head % WORD);
        }
        None
    }

    /// Takes the next byte. The xid of the frame that ends with it, if one does.
    pub(crate) fn read_byte(&mut self, byte: u8) -> Option<u64>
        ensures place { self.new ≡ place_after byte self.old }
        ensures xid { result ≡ ends_with byte self.old }
    {
        self.take_byte(byte);
        self.read_end()
    }

    /// The length and the xid of the next frame as one number, if it begins with these bytes and they have both.
    pub(crate) fn head_in(&self, bytes: &[u8]) -> Option<u64>
        ensures begins { IfSome result (λ head. self.now.held ≡ 0) }
        ensures fits { IfSome result (λ head. 8 ≤ length bytes.now) }
        ensures number { IfSome result (λ head. head ≡ from_be_bytes w64 (take 8 bytes.now)) }
    {
        if self.held != 0 {
            return None;
        }
        let Some((head, _rest)) = bytes.split_first_chunk::<8>() else {
            return None;
        };
        Some(u64::from_be_bytes(*head))
    }

    /// Takes the length and the xid of a frame at once. The xid, if the frame ends with it.
    pub(crate) fn read_head(&mut self, head: u64) -> Option<u64>
        ensures place { self.new ≡ passed_end (begun head) }
        ensures xid { result ≡ xid_at_end (begun head) }
    {
        self.held = HEAD;
        self.head = head;
        self.left = (head / WORD).saturating_sub(4);
        self.read_end()
    }

    /// Whether the byte that was taken last ends the header of an answer to a credential.
    pub(crate) fn is_answer(&self) -> bool
        ensures { result ≡ is_answer self.now }
    {
        self.held == HEAD
            && self.head % WORD == AUTH
            && (self.head / WORD).saturating_sub(self.left) == HEADER
    }

    /// Passes over bytes of a frame, of so many that came, but not over the last of these, nor over the last one of the frame. How many it
    /// passes over.
    pub(crate) fn pass(&mut self, count: u64) -> u64
        requires { 0 < count }
        ensures place { self.new ≡ record self.old { left = self.old.left - result } }
        ensures fits { result < count }
        ensures inside { 0 < result → (self.old.held ≡ 8) × (result < self.old.left) }
    {
        if self.held != HEAD {
            return 0;
        }
        let most = (count - 1).min(self.left.saturating_sub(1));
        self.left = self.left.saturating_sub(most);
        most
    }
}

/// Whether a frame with this xid is of a call, or opens the session.
pub(crate) fn is_of_call(xid: u64) -> bool
    ensures { result ≡ is_of_call xid }
{
    xid < NEGATIVE
}

/// Whether a frame with this xid is a ping, or the answer to one.
pub(crate) fn is_of_ping(xid: u64) -> bool
    ensures { result ≡ is_of_ping xid }
{
    xid == PING
}
