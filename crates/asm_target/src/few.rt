ghost use Rattle.std.specs.Prelude.{◌≡◌, ◌<◌, ◌≤◌, [], ◌∷◌, ◌++◌, length, Some};
ghost use Rattle.std.specs.List.{slice_get};

use std::marker::Model;

/// A list of at most 14 items, which takes no memory of its own.
///
/// The items stand in fields with names, since code over a type parameter can't bound the size of an array
/// of it.
#[derive(Drop)]
pub struct Few<I> {
    len: usize,
    item0: I,
    item1: I,
    item2: I,
    item3: I,
    item4: I,
    item5: I,
    item6: I,
    item7: I,
    item8: I,
    item9: I,
    item10: I,
    item11: I,
    item12: I,
    item13: I,
}

impl<I> Model for Few<I> {
    ghost use Rattle.std.specs.Prelude.{List, [], ◌∷◌, ◌≤◌, take};
    ghost use Rattle.std.specs.Coded.{coded_list};

    ghost Value = { List I };

    ghost coded = { coded_list I.code };

    ghost view = { λ few. take few.len (few.item0 ∷ few.item1 ∷ few.item2 ∷ few.item3 ∷ few.item4 ∷ few.item5
        ∷ few.item6 ∷ few.item7 ∷ few.item8 ∷ few.item9 ∷ few.item10 ∷ few.item11 ∷ few.item12 ∷ few.item13 ∷ []) };

    ghost invariant = { λ few. few.len ≤ 14 };
}

impl<I: Copy + Default> Few<I> {
    /// The list with no items.
    pub fn new() -> Self
        ensures { result ≡ [] }
    {
        let none = I::default();
        Few {
            len: 0,
            item0: none,
            item1: none,
            item2: none,
            item3: none,
            item4: none,
            item5: none,
            item6: none,
            item7: none,
            item8: none,
            item9: none,
            item10: none,
            item11: none,
            item12: none,
            item13: none,
        }
    }

    /// Appends an item. There has to be room for one.
    pub fn push(&mut self, item: I)
        requires { length self.old < 14 }
        ensures { self.new ≡ self.old ++ item ∷ [] }
    {
        match self.len {
            0 => self.item0 = item,
            1 => self.item1 = item,
            2 => self.item2 = item,
            3 => self.item3 = item,
            4 => self.item4 = item,
            5 => self.item5 = item,
            6 => self.item6 = item,
            7 => self.item7 = item,
            8 => self.item8 = item,
            9 => self.item9 = item,
            10 => self.item10 = item,
            11 => self.item11 = item,
            12 => self.item12 = item,
            _ => self.item13 = item,
        }
        self.len += 1;
    }

    /// How many items there are.
    pub fn len(&self) -> usize
        ensures exact { result ≡ length self.now }
        ensures most { result ≤ 14 }
    {
        self.len
    }

    /// The item of this number, counted from 0.
    pub fn get(&self, index: usize) -> I
        requires { index < length self.now }
        ensures { slice_get self.now index ≡ Some result }
    {
        match index {
            0 => self.item0,
            1 => self.item1,
            2 => self.item2,
            3 => self.item3,
            4 => self.item4,
            5 => self.item5,
            6 => self.item6,
            7 => self.item7,
            8 => self.item8,
            9 => self.item9,
            10 => self.item10,
            11 => self.item11,
            12 => self.item12,
            _ => self.item13,
        }
    }
}
