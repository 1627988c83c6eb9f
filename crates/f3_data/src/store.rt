//! Stores, and paths into them.

ghost use Rattle.std.specs.Prelude.{◌≡◌, ◌%◌, ◌^◌};
ghost use Rattle.f3_data.specs.Taken.{taken};

use crate::account::{block, level_words, levels_words, words};
use crate::elements::take_each;
use crate::parts::{
    exchange_at_path, object, objects, part, set_element_in, set_element_in_level, set_in,
    set_in_level,
};
use crate::reference::Numbers;
use crate::value::Value;
use f3_program::declarations::Constant;
use std::alloc::{AllocError, Global};

/// An object that is part of no other: a variable that lives for the whole run, by its number; or, by its number on a level,
/// a variable of an activation or a value that is held for a call or an ASSOCIATE.
#[derive(Clone, Copy, PartialEq, Eq, Debug)]
pub enum Root {
    Static(usize),
    Local(usize, usize),
}

/// From an object to a part of it (ISO/IEC 1539-1:2004, 2.4.3.1, 6.1): a component, an element by its place in array element
/// order, both from 0 on, or what an allocatable holds.
#[derive(Clone, Copy, PartialEq, Eq, Debug)]
pub enum Step {
    Component(usize),
    Element(usize),
    Contents,
}

/// Where a part of an object stands: the way there from its root.
#[derive(Drop)]
pub struct Path {
    pub root: Root,
    pub steps: Vec<Step>,
}

/// What lives for the whole run, and what lives on each level; and how many words of a heap these take, up to multiples of
/// 2 ^ 64 (own rule).
#[derive(Drop)]
pub struct Store {
    pub statics: Vec<Value>,
    pub levels: Vec<Vec<Value>>,
    used: u64,
    ghost counted: { used ≡ taken statics.items levels.items % 2 ^ 64 },
}

impl Store {
    ghost use Rattle.std.specs.Prelude.{[], OnOk, map};
    ghost use Rattle.f3_meaning_whole.specs.Value as m;
    ghost use Rattle.f3_meaning_whole.specs.Arithmetic.{constant_value};
    ghost use Rattle.f3_meaning_whole.specs.Store.{at_root, get, put, put_all};
    ghost use Rattle.f3_meaning_whole.specs.Ran.{Entered, Ended, effect};
    ghost use Rattle.f3_code.specs.Account.{used};
    ghost use Rattle.f3_data.specs.Values.{value_of, values_of};
    ghost use Rattle.f3_data.specs.Stores.{root_of, steps_of, path_of, store_of, element_steps, Found};
    ghost use Rattle.f3_data.specs.References.{element_path, numbers_of};

    /// The store with these values for the whole run, and no level.
    pub fn new(alloc: Global, statics: Vec<Value>) -> Store
        ensures { store_of result ≡ record { statics = values_of statics.items; levels = [] } }
    {
        let used = block(level_words(&statics));
        Store {
            statics,
            levels: Vec::new(alloc),
            used,
        }
    }

    /// How many words of a heap all values take, up to multiples of 2 ^ 64 (own rule).
    pub fn used(&self) -> u64
        ensures { result ≡ used (store_of self.now) % 2 ^ 64 }
    {
        self.used
    }

    /// An object that is part of no other: none where there is none.
    #[inline(always)]
    pub fn object(&self, root: Root) -> Option<&Value>
        ensures { Found (at_root (store_of self.now) (root_of root)) result }
    {
        match root {
            Root::Static(i) => object(&self.statics, i),
            Root::Local(level, i) => object(objects(&self.levels, level), i),
        }
    }

    /// What stands at a path: none where there is no such object or part.
    pub fn get(&self, path: &Path) -> Option<&Value>
        ensures { Found (get (store_of self.now) (path_of path.now)) result }
    {
        match self.object(path.root) {
            Some(value) => part(value, &path.steps),
            None => None,
        }
    }

    /// The part at a path takes another value; nothing happens where there is no such object or part.
    pub fn put(&mut self, path: &Path, mut new: Value)
        ensures { store_of self.new ≡ put (store_of self.old) (path_of path.now) (value_of new) }
    {
        let come = words(&new);
        exchange_at_path(&mut self.statics, &mut self.levels, path, &mut new);
        let gone = words(&new);
        self.used = self.used.wrapping_add(come).wrapping_sub(gone);
        drop(new);
    }

    /// What stands at a path goes over to another, without a copy, and the first is unallocated.
    pub fn hand_over(&mut self, from: &Path, to: &Path)
        ensures { store_of self.new ≡ put (put (store_of self.old) (path_of from.now) m.Unallocated) (path_of to.now) (get (store_of self.old) (path_of from.now)) }
    {
        let mut held = Value::Unallocated;
        exchange_at_path(&mut self.statics, &mut self.levels, from, &mut held);
        exchange_at_path(&mut self.statics, &mut self.levels, to, &mut held);
        let gone = words(&held);
        self.used = self.used.wrapping_add(1).wrapping_sub(gone);
        drop(held);
    }

    /// The part of an object that some steps lead to takes a scalar; nothing happens where there is no such object or part.
    #[inline(always)]
    pub fn set(&mut self, root: Root, steps: &[Step], scalar: Constant)
        ensures { store_of self.new ≡ put (store_of self.old) (record { root = root_of root; steps = steps_of steps.now }) (constant_value scalar) }
    {
        let grown = match root {
            Root::Static(i) => set_in(&mut self.statics, i, steps, scalar),
            Root::Local(level, i) => set_in_level(&mut self.levels, level, i, steps, scalar),
        };
        self.used = self.used.wrapping_add(grown);
    }

    /// An element, by its number in array element order, of an array, or of the one that an allocatable holds where the flag is
    /// set, takes a scalar; nothing happens where there is no such element.
    #[inline(always)]
    pub fn set_element(&mut self, root: Root, is_opened: bool, k: usize, scalar: Constant)
        ensures { store_of self.new ≡ put (store_of self.old) (record { root = root_of root; steps = element_steps is_opened k }) (constant_value scalar) }
    {
        let grown = match root {
            Root::Static(i) => set_element_in(&mut self.statics, i, is_opened, k, scalar),
            Root::Local(level, i) => set_element_in_level(
                &mut self.levels,
                level,
                i,
                is_opened,
                k,
                scalar,
            ),
        };
        self.used = self.used.wrapping_add(grown);
    }

    /// Elements of the array at a path take values in a part of them, each its own; nothing happens to those that there are not.
    pub fn put_each(&mut self, array: &Path, numbers: &Numbers, tail: &[Step], values: Vec<Value>)
        ensures { store_of self.new ≡ put_all (map (element_path (path_of array.now) (steps_of tail.now)) (numbers_of numbers.now)) (values_of values.items) (store_of self.old) }
    {
        let mut held = Value::Unallocated;
        exchange_at_path(&mut self.statics, &mut self.levels, array, &mut held);
        let grown = take_each(&mut held, numbers, tail, values);
        exchange_at_path(&mut self.statics, &mut self.levels, array, &mut held);
        let gone = words(&held);
        self.used = self
            .used
            .wrapping_add(1)
            .wrapping_add(grown)
            .wrapping_sub(gone);
        drop(held);
    }

    /// A level with these values begins.
    ///
    /// `AllocError` where the host has no memory for it.
    pub fn enter(&mut self, values: Vec<Value>) -> Result<(), AllocError>
        ensures { OnOk result (store_of self.new ≡ effect (Entered (values_of values.items)) (store_of self.old)) }
    {
        let words = level_words(&values);
        self.levels.push(values)?;
        self.used = self.used.wrapping_add(block(words));
        Ok(())
    }

    /// A level and all behind it end.
    pub fn leave(&mut self, level: usize)
        ensures { store_of self.new ≡ effect (Ended level) (store_of self.old) }
    {
        if level < self.levels.len() {
            let ended = levels_words(&self.levels[level..]);
            self.levels.truncate(level);
            self.used = self.used.wrapping_sub(ended);
        }
    }
}
