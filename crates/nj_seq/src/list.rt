ghost use Rattle.std.specs.Prelude.{◌≡◌, ◌==◌, ◌<◌, ◌+◌, [], ◌∷◌, ◌++◌, length, take, is_ok, slice_index_or, IfErr, IfOk, if◌then◌else◌};

use std::alloc::{AllocError, AllocFailed, Global};
use std::marker::Model;

/// A `Vec` that clauses see as the list of its elements.
#[derive(Clone, Debug, Drop)]
pub struct Seq<T> {
    items: Vec<T>,
}

impl<T> Model for Seq<T> {
    ghost use Rattle.std.specs.Prelude.{List};

    ghost Value = { List T };

    ghost view = { λ s. s.items.items };
}

impl<T> Seq<T> {
    /// An empty list, which takes no memory until it grows.
    pub fn new(alloc: Global) -> Seq<T>
        ensures { result ≡ [] }
    {
        Seq {
            items: Vec::new(alloc),
        }
    }

    /// The list of the vector's elements. The vector moves in, and no memory is taken.
    pub fn from_vec(items: Vec<T>) -> Seq<T>
        ensures { result ≡ items.items }
    {
        Seq { items }
    }

    /// The vector itself, for the calls that this type lacks. No memory is taken.
    pub fn into_vec(self) -> Vec<T>
        ensures { result.items ≡ self }
    {
        let Seq { items } = self;
        items
    }

    /// All elements, in order.
    pub fn as_slice(&self) -> &[T]
        ensures value { result.now ≡ self.now }
        ensures len { length result.now ≡ length self.now }
    {
        self.items.as_slice()
    }

    /// The number of elements.
    pub fn len(&self) -> usize
        ensures { result ≡ length self.now }
    {
        self.items.len()
    }

    /// Whether there is no element.
    pub fn is_empty(&self) -> bool
        ensures { result ≡ (length self.now == 0) }
    {
        self.items.is_empty()
    }

    /// The element at a place, counted from 0.
    pub fn at(&self, place: usize) -> &T
        requires { place < length self.now }
        ensures { result.now ≡ slice_index_or self.now place result.now }
    {
        &self.items[place]
    }

    /// Adds the value at the end. Without memory the list is as before and the value comes back.
    pub fn push(&mut self, value: T) -> Result<(), AllocFailed<T>>
        ensures items { self.new ≡ (if is_ok result then self.old ++ value ∷ [] else self.old) }
        ensures value_returned { IfErr result (λ y. y.value ≡ value) }
    {
        self.items.push(value)
    }

    /// Keeps the first `count` elements.
    pub fn truncate(&mut self, count: usize)
    where
        T: Drop,
        ensures { self.new ≡ take count self.old }
    {
        self.items.truncate(count);
    }

    /// Drops all elements. The memory stays for those that come later.
    pub fn clear(&mut self)
    where
        T: Drop,
        ensures { self.new ≡ [] }
    {
        self.items.clear();
    }
}

impl<T: Copy> Seq<T> {
    /// A copy of the slice.
    pub fn from_slice(alloc: Global, items: &[T]) -> Result<Seq<T>, AllocError>
        ensures { IfOk result (λ s. s ≡ items.now) }
    {
        let items = Vec::from_slice(alloc, items)?;
        Ok(Seq { items })
    }

    /// Adds all of the slice at the end. Without memory the list is as before.
    pub fn extend_from_slice(&mut self, other: &[T]) -> Result<(), AllocError>
        ensures { self.new ≡ (if is_ok result then self.old ++ other.now else self.old) }
    {
        self.items.extend_from_slice(other)
    }
}

impl<T> From<Vec<T>> for Seq<T> {
    ghost from_gives = { λ v s. s ≡ v.items };

    fn from(items: Vec<T>) -> Seq<T> {
        Seq::from_vec(items)
    }
}

#[cfg(test)]
mod tests {
    use super::*;
    use std::test::Fail;

    #[test]
    fn a_vector_goes_in_and_comes_back(rt: HostRuntime) -> Result<(), Fail> {
        let mut list = Seq::from(vec![in rt.alloc(); 3u8, 5]?);
        list.push(8)?;
        list.extend_from_slice(&[13, 21])?;
        assert_eq!(rt; list.len(), 5);
        assert_eq!(rt; *list.at(2), 8);
        list.truncate(3);
        assert_eq!(rt; list.clone()?.into_vec().as_slice(), [3, 5, 8].as_slice());
        list.clear();
        assert!(rt; list.is_empty());
        Ok(())
    }
}
