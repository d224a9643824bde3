//! Inputs in memory, with the turns that they made.

ghost use Rattle.std.specs.Prelude.{◌≡◌, ◌+◌, ◌≤◌, vec_len, vec_capacity};
ghost use Rattle.std.proofs.Props.{props};
ghost use Rattle.zk_client.specs.Views.{input_view};
ghost use Rattle.script_replay.specs.Recording.{asked_count};

use std::alloc::{Allocator, Global};
use zk_client::{Input, Output};

/// An input, and what it made the client say.
#[derive(Drop)]
pub struct RecordedTurn<A: Allocator = Global> {
    pub input: Input<A>,
    pub outputs: Vec<Output<A>, A>,
}

/// An input twice: one to hand out, and one to keep with its outputs.
#[derive(Drop)]
pub(crate) struct Copies<A: Allocator> {
    pub(crate) handed: Input<A>,
    pub(crate) kept: Input<A>,
    ghost alike: { input_view handed ≡ input_view kept } by { Prim.hlevel props },
}

/// Inputs in memory, and the turns that they made. It hands out the inputs in order, and tells the turns.
#[derive(Drop)]
pub struct Recorded<A: Allocator + Copy = Global> {
    pub(crate) alloc: A,
    /// The next one stands last.
    pub(crate) coming: Vec<Copies<A>, A>,
    pub(crate) asked: Option<Input<A>>,
    pub(crate) turns: Vec<RecordedTurn<A>, A>,
    ghost room: { vec_len turns + asked_count asked + vec_len coming ≤ vec_capacity turns } by { Prim.hlevel props },
}
