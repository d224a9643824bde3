//! An outside in memory.

ghost use Rattle.std.specs.Prelude.{◌≡◌, ◌≤◌, [], map, reverse, Some, None, IfOk, vec_len};
ghost use Rattle.zk_client.specs.Views.{input_view, said};
ghost use Rattle.zk_client.specs.Outsides.{IsGiven};
ghost use Rattle.script_replay.specs.Records.{told_of, turn_view};

use crate::input_copies::copied_inputs;
use crate::recording::{Recorded, RecordedTurn};
use std::alloc::{AllocError, Allocator};
use std::mem;
use zk_client::{Input, Output, Outside};

impl<A: Allocator + Copy> Recorded<A> {
    /// These inputs, with room for their turns. An error says that memory ran out; later calls take none.
    pub fn new(alloc: A, inputs: &[Input<A>]) -> Result<Recorded<A>, AllocError>
        ensures { IfOk result (λ recorded. told_of recorded ≡ record { coming = map input_view inputs.now; asked = None; turns = [] }) }
    {
        let mut coming = copied_inputs(alloc, inputs)?;
        coming.reverse();
        let turns = Vec::with_capacity(alloc, coming.len())?;
        let asked = None;
        Ok(Recorded {
            alloc,
            coming,
            asked,
            turns,
        })
    }

    /// The turns, the oldest first.
    pub fn turns(&self) -> &[RecordedTurn<A>]
        ensures { reverse (map turn_view result.now) ≡ (told_of self.now).turns }
    {
        &self.turns
    }
}

impl<A: Allocator + Copy> Outside<A> for Recorded<A> {
    ghost bound = { λ recorded. vec_len recorded.coming };

    ghost told = { λ recorded. Some (told_of recorded) };

    fn next(&mut self) -> Option<Input<A>> {
        let copies = self.coming.pop()?;
        self.asked = Some(copies.kept);
        Some(copies.handed)
    }

    fn give(&mut self, outputs: &mut Vec<Output<A>, A>) {
        if let Some(input) = self.asked.take() {
            let outputs = mem::replace(outputs, Vec::new(self.alloc));
            self.turns.push_reserved(RecordedTurn { input, outputs });
        }
    }
}
