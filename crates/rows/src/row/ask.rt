// What can be asked of a row. Slots past its count are never looked at.
ghost use Rattle.std.specs.Prelude.{◌≡◌, ◌-◌, length, option_map};
ghost use Rattle.std.specs.List.{slice_get};
ghost use Rattle.rows.specs.Rows.{row_of, items_of, first_with};

use super::Row;
use crate::keyed::Keyed;

impl<'a, T> Row<'a, T> {
    pub fn len(&self) -> usize
        ensures { result ≡ self.now.count }
    {
        self.count
    }

    // How many more items the row can take.
    pub fn room(&self) -> usize
        ensures { result ≡ length (items_of self.now) - self.now.count }
    {
        self.items.len() - self.len()
    }

    pub fn items(&self) -> &[T]
        ensures { result.now ≡ row_of self.now }
    {
        &self.items[..self.len()]
    }

    pub fn get(&self, n: usize) -> Option<&T>
        ensures { option_map (λ x. x.now) result ≡ slice_get (row_of self.now) n }
    {
        self.items().get(n)
    }

    pub fn last(&self) -> Option<&T>
        ensures { option_map (λ x. x.now) result ≡ slice_get (row_of self.now) (self.now.count - 1) }
    {
        self.items().last()
    }

    // The place of the first item with the key.
    pub fn find(&self, key: usize) -> Option<usize>
    where
        T: Keyed,
        ensures { result ≡ first_with T.Keyed.keyof key (row_of self.now) }
    {
        self.items().iter().position(|item| item.key() == key)
    }
}
