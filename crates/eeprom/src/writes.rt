// Writes for the cells of a chip: a value for some of them.
ghost use Rattle.std.specs.Prelude.{◌≡◌, List, ℕ, Option, None, is_some};
ghost use Rattle.std.specs.List.{list_any};
ghost use Rattle.std.specs.Option.{option_or};
ghost use Rattle.eeprom.specs.Cells.{place, table, all_of, with_write};

use std::array;
use std::marker::Model;

// Beside the values stands whether there is any: so busy cells are not searched for it, and where there is none no array is filled.
#[derive(Clone, Copy, PartialEq, Eq, Debug)]
pub(super) struct Writes<const N: usize> {
    values: [Option<u8>; N],
    any: bool,
}

impl<const N: usize> Model for Writes<N> {
    ghost use Rattle.std.specs.Prelude.{◌≡◌, List, ℕ, Option, is_some};
    ghost use Rattle.std.specs.List.{list_any};

    ghost Value = { List (Option ℕ) };

    ghost view = { λ w. w.values };

    ghost invariant = { λ w. list_any is_some w.values ≡ w.any };

    ghost inverse = { λ values. record { values = values; any = list_any is_some values } };

    ghost inverse_ok = { λ w h i. record { values = w.values; any = h i } };
}

// Whether there is a write at some place.
fn any_write(writes: &[Option<u8>]) -> bool
    ensures { result ≡ list_any is_some writes.now }
{
    writes.iter().any(|write| write.is_some())
}

impl<const N: usize> Writes<N> {
    #[tactic(auto, unfolding(crate::specs::Cells::all_of), using(crate::proofs::Any::none_any))]
    pub(super) fn none() -> Writes<N>
        ensures { result ≡ all_of N None }
    {
        Writes {
            values: [None; N],
            any: false,
        }
    }

    pub(super) fn get(&self, n: usize) -> Option<u8>
        ensures { result ≡ place N None self.now n }
    {
        self.values.get(n).copied().flatten()
    }

    #[tactic(auto, using(crate::proofs::Any::all_any))]
    pub(super) fn any(&self) -> bool
        ensures { result ≡ list_any is_some (table N (place N None self.now)) }
    {
        // Both fields are named, though one is wanted: where no value of the function has the type of the values, the check fails.
        let Writes {
            values: _values,
            any,
        } = self;
        *any
    }

    // A value for a cell, in the place of an earlier one; where there is no such cell, nothing. It is written by index, since after a
    // `get_mut` the check knows nothing of the array but its length.
    #[tactic(auto, using(crate::proofs::Any::set_any, crate::proofs::Any::set_write, crate::proofs::Any::no_write))]
    pub(super) fn set(&mut self, n: usize, byte: u8)
        ensures { self.new ≡ with_write N self.old n byte }
    {
        if n < N {
            self.values[n] = Some(byte);
            self.any = true;
        }
    }

    #[tactic(auto, unfolding(crate::specs::Cells::all_of), using(crate::proofs::Any::none_any, crate::proofs::Any::any_none))]
    pub(super) fn clear(&mut self)
        ensures { self.new ≡ all_of N None }
    {
        if self.any {
            self.values.fill(None);
            self.any = false;
        }
    }

    // The writes of the other for the cells that have none here.
    pub(super) fn fill_from(&mut self, other: &Writes<N>)
        ensures { self.new ≡ table N (λ i. option_or (place N None self.old i) (place N None other.now i)) }
    {
        let values = array::from_fn(
            |n|
                ensures { result ≡ option_or (place N None self.entry.now n) (place N None other.entry.now n) }
            { self.get(n).or(other.get(n)) },
        );
        let any = any_write(&values);
        *self = Writes { values, any };
    }
}
