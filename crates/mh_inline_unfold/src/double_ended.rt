//! Lists that can be extended at both ends.
ghost use Rattle.std.specs.Prelude.{◌≡◌, ◌++◌, ◌∷◌, [], IfOk, OnOk};

use mh_grammar::Memory;
use std::alloc::Global;
use std::collections::VecDeque;
use std::marker::Model;

/// A list that can be extended at both ends without copying its items. Two lists with the same items are equal.
#[derive(Drop)]
pub struct Deque<T> {
    items: VecDeque<T>,
}

impl<T> Model for Deque<T> {
    ghost use Rattle.std.specs.Prelude.{List};
    ghost use Rattle.std.specs.Coded.{coded_list};

    ghost Value = { List T };

    ghost coded = { coded_list T.code };

    ghost view = { λ e. e.items.items };
}

impl<T> Deque<T> {
    /// The empty list. It allocates nothing.
    pub fn new(alloc: Global) -> Deque<T>
        ensures { result ≡ [] }
    {
        Deque {
            items: VecDeque::new(alloc),
        }
    }
}

impl<T: Copy + Drop> Deque<T> {
    /// A copy of the items. Fails only if memory runs out.
    pub fn to_vec(&self, alloc: Global) -> Result<Vec<T>, Memory>
        ensures { IfOk result (λ v. v.items ≡ self.now) }
    {
        let (front, back) = self.items.as_slices();
        let mut copy = Vec::from_slice(alloc, front)?;
        copy.extend_from_slice(back)?;
        Ok(copy)
    }

    /// A copy of the items followed by those of another list. Fails only if memory runs out.
    pub fn joined(&self, alloc: Global, other: &Deque<T>) -> Result<Deque<T>, Memory>
        ensures { IfOk result (λ e. e ≡ self.now ++ other.now) }
    {
        let mut copy = self.to_vec(alloc)?;
        let (front, back) = other.items.as_slices();
        copy.extend_from_slice(front)?;
        copy.extend_from_slice(back)?;
        Ok(Deque {
            items: VecDeque::from_vec(copy),
        })
    }

    /// Appends an item. Fails only if memory runs out.
    pub fn push_back(&mut self, item: T) -> Result<(), Memory>
        ensures { OnOk result (self.new ≡ self.old ++ item ∷ []) }
    {
        self.items.push_back(item)?;
        Ok(())
    }

    /// Appends the items of another list. Fails only if memory runs out.
    pub fn put_after(&mut self, other: &Deque<T>) -> Result<(), Memory>
        ensures { OnOk result (self.new ≡ self.old ++ other.now) }
    {
        let (front, back) = other.items.as_slices();
        push_all_back(&mut self.items, front)?;
        push_all_back(&mut self.items, back)
    }

    /// Prepends the items of another list. Fails only if memory runs out.
    pub fn put_in_front(&mut self, other: &Deque<T>) -> Result<(), Memory>
        ensures { OnOk result (self.new ≡ other.now ++ self.old) }
    {
        let (front, back) = other.items.as_slices();
        push_all_front(&mut self.items, back)?;
        push_all_front(&mut self.items, front)
    }
}

fn push_all_back<T: Copy + Drop>(list: &mut VecDeque<T>, items: &[T]) -> Result<(), Memory>
    ensures { OnOk result (list.new.items ≡ list.old.items ++ items.now) }
{
    for item in items {
        list.push_back(*item)?;
    }
    Ok(())
}

fn push_all_front<T: Copy + Drop>(list: &mut VecDeque<T>, items: &[T]) -> Result<(), Memory>
    ensures { OnOk result (list.new.items ≡ items.now ++ list.old.items) }
{
    for done in 0..items.len() {
        list.push_front(items[items.len() - 1 - done])?;
    }
    Ok(())
}
