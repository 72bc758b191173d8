//! What is open at a place of a data set, in an array that takes no memory from an allocator.
ghost use Rattle.std.specs.Prelude.{◌≡◌, ◌==◌, ◌<◌, ◌∷◌, [], length, slice_get};

use crate::frame::OpenSequence;
use arrayvec::ArrayVec;
use std::marker::Model;

/// 32 sequences, with an item in each.
const MOST_OPEN: usize = 64;

/// Open sequences and items, which contracts see as their list, the innermost first.
#[derive(Drop)]
pub struct Stack {
    frames: ArrayVec<OpenSequence, MOST_OPEN>,
}

impl Model for Stack {
    ghost use Rattle.std.specs.Prelude.{List, reverse};
    ghost use Rattle.dr_dataset.specs.declared.frame.OpenSequence.{OpenSequence};

    ghost Value = { List OpenSequence };

    ghost view = { λ s. reverse s.frames.items };
}

impl Stack {
    /// Nothing is open.
    pub fn new() -> Stack
        ensures { result ≡ [] }
    {
        Stack {
            frames: ArrayVec::new(),
        }
    }

    /// The innermost.
    pub fn top(&self) -> Option<OpenSequence>
        ensures { result ≡ slice_get self.now 0 }
    {
        match self.frames.as_slice() {
            [] => None,
            [.., last] => Some(*last),
        }
    }

    /// Whether nothing is open: the place is in the top level of the data set.
    pub fn is_empty(&self) -> bool
        ensures { result ≡ (length self.now == 0) }
    {
        self.frames.is_empty()
    }

    /// Whether 64 frames are open, 32 sequences with an item in each: no further one may be opened.
    pub fn is_full(&self) -> bool
        ensures { result ≡ (length self.now == 64) }
    {
        self.frames.len() == MOST_OPEN
    }

    /// A sequence or an item opens, inside all that is open; there has to be room for it.
    pub fn push(&mut self, frame: OpenSequence)
        requires { length self.old < 64 }
        ensures { self.new ≡ frame ∷ self.old }
    {
        self.frames.push(frame);
    }

    /// The innermost ends, and is handed out; something has to be open.
    pub fn pop(&mut self) -> OpenSequence
        requires { 0 < length self.old }
        ensures { self.old ≡ result ∷ self.new }
    {
        let Some(frame) = self.frames.pop() else {
            unreachable!()
        };
        frame
    }
}
