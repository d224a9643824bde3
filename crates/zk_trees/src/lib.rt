//! Trees of nodes that are followed, judged by what a client keeps.
//!
//! [`Trees`] are those beside a [`Follower`](zk_follow::Follower): of each tree all nodes at and below a root are followed, within a bound,
//! as they come to be known. [`TreeNews`] are what there is to tell of them.
//!
//! A [`NodeSide`] is what is followed: the data of a node, or the names below it. [`wanted_at`] tells what is wanted of a tree: what good
//! names lead to from the root on, and lacks an answer, within a bound. [`is_missing`] tells whether it is kept and good that there is no
//! node: none is taken on then, and one that was found below a root is let go.
#![tactic(auto)]

mod index;
mod leaving;
mod ledger;
mod member;
mod order;
mod subject;
mod tree;
mod trees;
mod wanting;

pub use subject::{NodeSide, copy_of, is_missing};
pub use tree::{Tree, TreeNews, Trees};
pub use wanting::{Wanted, wanted_at};
