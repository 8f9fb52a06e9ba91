ghost use Rattle.std.specs.Prelude.{◌≡◌, ◌^◌, ◌<◌, [], ◌∷◌, ◌++◌, ◌↔◌, length, IsTrue, IfOk, OnOk};
ghost use Rattle.std.specs.Prelude.{OnErr, MatchOption};
ghost use Rattle.std.specs.Iterator.Runs.{EveryRun, ItemsMapTo};
ghost use Rattle.std.specs.Slice.Iter.{iter_rest, iter_steps};

use std::alloc::{AllocError, Global};
use std::marker::Model;
use std::ops::DerefSlice;
use std::{fmt, slice};

/// A `Vec` of which contracts see only the list of its elements.
///
/// Replies and errors hold their elements in `Items` and not in a plain `Vec`, so that
/// equality in a contract is the equality of the elements, whatever the capacity of the memory
/// behind them.
/// `Items` is made from a `Vec` by `From` and gives it back by [`Items::into_vec`]; neither takes
/// memory.
#[derive(Drop)]
pub struct Items<T> {
    items: Vec<T>,
}

impl<T> Model for Items<T> {
    ghost use Rattle.std.specs.Prelude.{List};
    ghost use Rattle.std.specs.Coded.{coded_list};

    ghost Value = { List T };

    ghost coded = { coded_list T.code };

    ghost view = { λ it. it.items.items };
}

impl<T> Items<T> {
    /// No elements; takes no memory.
    pub fn new(alloc: Global) -> Items<T>
        ensures { result ≡ [] }
    {
        Items {
            items: Vec::new(alloc),
        }
    }

    /// The elements as a slice.
    pub fn as_slice(&self) -> &[T]
        ensures { result.now ≡ self.now }
    {
        self.items.as_slice()
    }

    /// The elements as a `Vec`, by move.
    pub fn into_vec(self) -> Vec<T>
        ensures { result.items ≡ self }
    {
        let Items { items } = self;
        items
    }

    /// The allocator of the memory behind the elements.
    pub fn allocator(&self) -> Global {
        *self.items.allocator()
    }

    /// How many elements there are.
    pub fn len(&self) -> usize
        ensures { result ≡ length self.now }
    {
        self.items.len()
    }

    /// Whether there is no element.
    pub fn is_empty(&self) -> bool
        ensures { IsTrue result ↔ (self.now ≡ []) }
    {
        self.items.is_empty()
    }

    /// The last element, taken off.
    pub fn pop(&mut self) -> Option<T>
        ensures { MatchOption result ((self.old ≡ []) × (self.new ≡ [])) (λ last. self.old
            ≡ self.new ++ last ∷ []) }
    {
        self.items.pop()
    }
}

impl<T: Drop> Items<T> {
    /// Adds an element at the end; on `OutOfMemory` the elements stay as they were.
    #[inline(always)]
    pub fn push(&mut self, item: T) -> Result<(), AllocError>
        ensures ok { OnOk result (self.new ≡ self.old ++ item ∷ []) }
        ensures err { OnErr result (self.new ≡ self.old) }
    {
        self.items.push(item)?;
        Ok(())
    }
}

impl<T: Copy + Drop> Items<T> {
    /// Adds copies of the elements of a slice at the end; on `OutOfMemory` the elements stay as
    /// they were.
    pub fn extend_from_slice(&mut self, items: &[T]) -> Result<(), AllocError>
        ensures ok { OnOk result (self.new ≡ self.old ++ items.now) }
        ensures err { OnErr result (self.new ≡ self.old) }
    {
        self.items.extend_from_slice(items)?;
        Ok(())
    }
}

impl<T: Copy> Items<T> {
    /// A copy of the elements of a slice.
    pub fn from_slice(alloc: Global, items: &[T]) -> Result<Items<T>, AllocError>
        ensures { IfOk result (λ it. it ≡ items.now) }
    {
        Ok(Items {
            items: Vec::from_slice(alloc, items)?,
        })
    }
}

/// The elements as a slice, so that `len`, `get`, `first`, `last`, `iter` and every other method of
/// a slice can be called, and `items[i]` be read.
impl<T> DerefSlice for Items<T> {
    type Elem = T;

    ghost deref_gives = { λ it xs. xs ≡ it };

    fn deref(&self) -> &[T] {
        self.as_slice()
    }
}

/// `for item in &items` goes over the elements, in order.
impl<'a, T> IntoIterator for &'a Items<T> {
    type Item = &'a T;

    type IntoIter = slice::Iter<'a, T>;

    ghost into_iter_gives = { λ it r. (iter_rest r ≡ it.now) × (length (iter_rest r) < 2 ^ 64)
        × EveryRun (iter_steps {A = T}) (λ p. ItemsMapTo p (λ y. y.now) (iter_rest p.from)) };

    fn into_iter(self) -> slice::Iter<'a, T> {
        self.as_slice().iter()
    }
}

impl<T> From<Vec<T>> for Items<T> {
    ghost from_gives = { λ v it. it ≡ v.items };

    fn from(items: Vec<T>) -> Items<T> {
        Items { items }
    }
}

impl<T: fmt::Debug> fmt::Debug for Items<T> {
    fn fmt<W: fmt::Write>(&self, f: &mut fmt::Formatter<W>) -> fmt::Result {
        let items = self.as_slice();
        write!(f, "{items:?}")
    }
}

impl<T: PartialEq> PartialEq for Items<T> {
    ghost use Rattle.std.specs.Cmp.Lexicographic.{pointwise, lists_per};

    ghost eq = { pointwise T.eq };

    ghost laws = { lists_per T.laws };

    fn eq(&self, other: &Items<T>) -> bool {
        self.as_slice() == other.as_slice()
    }
}

impl<T: Eq> Eq for Items<T> {
    ghost use Rattle.std.specs.Cmp.Lexicographic.{lists_equiv};

    ghost laws = { lists_equiv T.Eq.laws };
}
