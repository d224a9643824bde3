//! What goes into a session and comes out of it by fields.

/// What another session can be resumed from: the id and the password by which a server knows the session, and the greatest
/// zxid seen.
#[derive(Clone, Copy)]
pub struct Saved<'a> {
    pub session: i64,
    pub password: &'a [u8],
    pub last_zxid: i64,
}

/// The fields of the record that a client sends first on a connection, `ConnectRequest` of zookeeper.jute, that the session
/// knows. The timeout is in milliseconds.
#[derive(Clone, Copy)]
pub struct ConnectFields<'a> {
    pub last_zxid_seen: i64,
    pub time_out: i32,
    pub session_id: i64,
    pub password: &'a [u8],
}

/// The fields of a server's answer to it, `ConnectResponse` of zookeeper.jute, that the session keeps. A timeout of 0 or less
/// says that the session has expired.
#[derive(Clone, Copy)]
pub struct Response<'a> {
    pub time_out: i32,
    pub session_id: i64,
    pub password: &'a [u8],
}
