//! The operations of entries.

ghost use Rattle.std.specs.Prelude.{◌≡◌};
ghost use Rattle.zk_log.specs.Kinds.{kind_number, kind_at, stands_alone};

/// The bytes of a digest.
const DIGEST_LEN: usize = 12;

/// The operation of an entry, or of a part of a multi.
#[derive(Clone, Copy)]
pub enum TxnKind {
    Create,
    Create2,
    CreateContainer,
    CreateTtl,
    Delete,
    /// A container is deleted, by the server itself.
    DeleteContainer,
    Set,
    /// The servers' configuration is written.
    Reconfig,
    SetAcl,
    /// A part of a multi that changes nothing.
    Check,
    Multi,
    CreateSession,
    /// A session ends, with the paths of its ephemeral nodes.
    CloseSession,
    /// A session ends, and its paths are not told.
    CloseSessionAlone,
    /// A request was refused, by a code.
    Error,
}

/// Whether the bytes after the header of a close have no paths.
#[tactic(auto, unfolding(crate::specs::Kinds::stands_alone))]
fn stands_alone(behind: &[u8]) -> bool
    ensures { result ≡ stands_alone behind.now }
{
    if behind.is_empty() {
        return true;
    }
    if behind.len() != DIGEST_LEN {
        return false;
    }
    u32::from_be_bytes([behind[0], behind[1], behind[2], behind[3]]) == 2
}

impl TxnKind {
    /// The operation of a number, if it is one's, by the bytes after the header of the entry.
    #[tactic(auto, unfolding(crate::specs::Kinds::kind_at))]
    pub fn at(number: i32, behind: &[u8]) -> Option<TxnKind>
        ensures { result ≡ kind_at number behind.now }
    {
        match number {
            1 => Some(TxnKind::Create),
            2 => Some(TxnKind::Delete),
            5 => Some(TxnKind::Set),
            7 => Some(TxnKind::SetAcl),
            13 => Some(TxnKind::Check),
            14 => Some(TxnKind::Multi),
            15 => Some(TxnKind::Create2),
            16 => Some(TxnKind::Reconfig),
            19 => Some(TxnKind::CreateContainer),
            20 => Some(TxnKind::DeleteContainer),
            21 => Some(TxnKind::CreateTtl),
            -1 => Some(TxnKind::Error),
            -10 => Some(TxnKind::CreateSession),
            -11 if stands_alone(behind) => Some(TxnKind::CloseSessionAlone),
            -11 => Some(TxnKind::CloseSession),
            _ => None,
        }
    }
}
