//! Subjects that are kept good: the data of nodes, and the names below nodes.
//!
//! A [`Follower`] is a client with the subjects that its program follows. Each is read with a watch as soon as a server has accepted the
//! session, and read again after each report, and after a pause where a server refused the read. Where there is no node it is asked
//! whether there is one, with a watch, so that its making is reported. Each is read once more where what is kept is doubted.
#![tactic(auto)]

mod about;
mod doubting;
mod follower;
mod heard;
mod index;
mod kept;
mod leaving;
mod news;
mod places;
mod progress;
mod queue;
mod reads;
mod refusing;
mod reported;
mod stop;
mod subject;
mod tickets;

pub use follower::Follower;
pub use news::News;
pub use progress::{Progress, Refusal};
pub use reads::MOST_READS;
pub use stop::FollowerStop;
pub use subject::Subject;
