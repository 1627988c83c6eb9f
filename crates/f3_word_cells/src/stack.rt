//! Stacks with room for as many as they may hold.

ghost use Rattle.std.specs.Prelude.{◌≡◌, ◌<◌, ◌≤◌, ◌++◌, [], ◌∷◌, length, take, IfOk, MatchOption};
ghost use Rattle.std.specs.Vec.{vec_capacity};

use std::alloc::{AllocError, Global};

/// A stack, the item on top at the end. It has room for so many items from its beginning, so that none of its calls asks for memory.
#[derive(Drop)]
pub struct Stack<T> {
    pub items: Vec<T>,
    room: usize,
    ghost roomy: { vec_capacity items ≡ room },
}

impl<T: Drop> Stack<T> {
    /// An empty stack with room for so many items.
    ///
    /// `AllocError` where the host has no memory for them.
    pub fn new(alloc: Global, room: usize) -> Result<Stack<T>, AllocError>
        ensures empty { IfOk result (λ s. s.items.items ≡ []) }
        ensures room { IfOk result (λ s. room ≤ s.room) }
    {
        let items = Vec::with_capacity(alloc, room)?;
        Ok(Stack { items, room })
    }

    /// One more item on top.
    pub fn push(&mut self, item: T)
        requires { length self.old.items.items < self.old.room }
        ensures items { self.new.items.items ≡ self.old.items.items ++ item ∷ [] }
        ensures room { self.new.room ≡ self.old.room }
    {
        self.items.push_reserved(item);
    }

    /// The item on top, which is taken, if there is one.
    pub fn pop(&mut self) -> Option<T>
        ensures items { MatchOption result ((self.old.items.items ≡ []) × (self.new.items.items ≡ [])) (λ x. self.old.items.items ≡ self.new.items.items ++ x ∷ []) }
        ensures room { self.new.room ≡ self.old.room }
    {
        self.items.pop()
    }

    /// The items behind the first so many go.
    pub fn cut(&mut self, count: usize)
        ensures items { self.new.items.items ≡ take count self.old.items.items }
        ensures room { self.new.room ≡ self.old.room }
    {
        self.items.truncate(count);
    }
}
