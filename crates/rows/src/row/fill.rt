// A row is made empty, and grows by one item at a time. The clauses `lender` here and above say that a row keeps the list
// that it was made of: the language asks this of each function that takes a struct with a `&mut` in it.
ghost use Rattle.std.specs.Prelude.{◌≡◌, ◌+◌, ◌-◌, if◌then◌else◌, slice_set};
ghost use Rattle.refusals.specs.Told.{told};
ghost use Rattle.rows.specs.Rows.{roomy, appends, items_of, holds_none};

use super::Row;
use refusals::Refusal;

impl<'a, T: Drop> Row<'a, T> {
    // The list lent, with no item of it in the row yet.
    pub fn new(items: &'a mut [T]) -> Row<'a, T>
        ensures count { result.count ≡ 0 }
        ensures items { result.items.now ≡ items.old }
        ensures lender { result.items.ghost_name ≡ items.entry.ghost_name }
    {
        Row { items, count: 0 }
    }

    // A full row refuses the item and stays as it was.
    pub fn append(&mut self, item: T) -> Result<(), Refusal>
        ensures answer { told (λ _. tt) result ≡ appends (roomy self.old) }
        ensures count { self.new.count ≡ (if roomy self.old then self.old.count + 1 else self.old.count) }
        ensures items { items_of self.new ≡ (if roomy self.old then slice_set (items_of self.old) self.old.count item else items_of self.old) }
        ensures lender { self.new.items.ghost_name ≡ self.old.items.ghost_name }
    {
        if self.count == self.items.len() {
            return Err(Refusal::NoRoom);
        }
        self.items[self.count] = item;
        self.count += 1;
        Ok(())
    }

    // Puts the item in the place of the last one. An empty row stays as it was.
    pub fn replace_last(&mut self, item: T)
        ensures count { self.new.count ≡ self.old.count }
        ensures items { items_of self.new ≡ (if holds_none self.old then items_of self.old else slice_set (items_of self.old) (self.old.count - 1) item) }
        ensures lender { self.new.items.ghost_name ≡ self.old.items.ghost_name }
    {
        if self.count > 0 {
            self.items[self.count - 1] = item;
        }
    }
}
