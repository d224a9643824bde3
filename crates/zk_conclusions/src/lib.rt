//! What a program may conclude from what a client shows: that several answers, or all nodes of a subtree, are those of one moment,
//! and that its session comes first in a directory.
//!
//! A [`Snapshot`], a [`Subtree`], a [`Holder`] and a [`Standing`] borrow from the client, so none outlives its next step, and they ask
//! nobody. They are about the history at the client's last seen zxid, under the premises of `holds` of `zk_client`. Nothing is said of
//! now: the servers may have gone on, and a program that was paused still shows what it showed before. So whoever acts by a conclusion
//! on something else hands it the zxid, or the token, and that one refuses what is older than what it has seen.
//!
//! [`Lacking`] says what a subtree still wants to be read, [`Listing::predecessor`] whom a session waits for, and [`Tagged`] what is
//! left of creates whose answers were lost.
//!
//! [`Revision`] is a number that rises where any of this may change, so that a program asks again only then.
//!
//! [`laws`] names what follows, over definitions alone.
#![tactic(auto)]

mod before;
mod below;
mod children;
mod firsts;
mod holder;
mod lacking;
pub mod laws;
mod listing;
mod marked;
mod no_subtree;
mod numbers;
mod revision;
mod snapshot;
mod standing;
mod subtree;
mod tagged;
mod tokens;
mod walk;

pub use holder::Holder;
pub use lacking::Lacking;
pub use listing::Listing;
pub use no_subtree::NoSubtree;
pub use numbers::Kind;
pub use revision::Revision;
pub use snapshot::Snapshot;
pub use standing::Standing;
pub use subtree::Subtree;
pub use tagged::Tagged;
