//! Where inputs come from and where outputs go.

ghost use Rattle.std.specs.Prelude.{ℕ, ◌<◌, ◌≤◌, Option, IfSome};
ghost use Rattle.std.specs.Option.{option_map};
ghost use Rattle.zk_client.specs.Views.{input_view, said};
ghost use Rattle.zk_client.specs.Outsides.{Told, HandsOut, IsGiven};

use crate::input::Input;
use crate::output::Output;
use std::alloc::Allocator;

/// What a client is run against: it hands out inputs, and is given what each of them made the client say.
///
/// One that fails, as a socket may, remembers it and hands out nothing from then on.
pub trait Outside<A: Allocator> {
    /// No more inputs than this are still to come.
    ghost bound: { Self → ℕ };

    /// The inputs still to come and the turns so far, where they are told. A socket tells nothing.
    ghost told: { Self → Option Told };

    /// The next input, or none if none is left.
    fn next(&mut self) -> Option<Input<A>>
        ensures fewer { IfSome result (λ input. bound self.new < bound self.old) }
        ensures hands { HandsOut (told self.old) (option_map input_view result) (told self.new) };

    /// Is given the outputs of the input that was handed out last, in order. It may take them out of the list.
    fn give(&mut self, outputs: &mut Vec<Output<A>, A>)
        ensures no_more { bound self.new ≤ bound self.old }
        ensures given { IsGiven (told self.old) (said outputs.old.items) (told self.new) };
}
