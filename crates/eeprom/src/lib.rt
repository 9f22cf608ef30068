// The lasting cells of a chip, with the writes staged for them and the writes under way, for any number of cells.
#![tactic(auto)]

ghost use Rattle.std.specs.Prelude.{◌≡◌, if◌then◌else◌, Some, cond, nat_lt};
ghost use Rattle.std.specs.Option.{unwrap_or};
ghost use Rattle.eeprom.specs.Cells.{byte_at, staged_at, under_way_at, is_busy, marks, all_fresh, stages, unstages, ends, begins, stopped, finishes, cuts};

pub mod pages;
pub mod parts;
mod writes;

use std::array;
use writes::Writes;

// Cell n has the stored byte bytes[n]; what is staged for cells and what is under way to them are writes.
// These are three arrays and not one of cells with three fields, for speed: a START drops all that is staged, which is one fill, and
// none where nothing is.
#[derive(Clone, Copy, PartialEq, Eq, Debug)]
pub struct Eeprom<const N: usize> {
    bytes: [u8; N],
    staged: Writes<N>,
    under_way: Writes<N>,
}

impl<const N: usize> Eeprom<N> {
    #[tactic(auto, unfolding(crate::specs::Cells::all_of))]
    pub fn fresh() -> Eeprom<N>
        ensures { result ≡ all_fresh }
    {
        Eeprom {
            bytes: [0; N],
            staged: Writes::none(),
            under_way: Writes::none(),
        }
    }

    pub fn byte(&self, n: usize) -> Option<u8>
        ensures { result ≡ (if nat_lt n N then Some (byte_at self.now n) else None) }
    {
        self.bytes.get(n).copied()
    }

    pub fn staged(&self, n: usize) -> Option<u8>
        ensures { result ≡ staged_at self.now n }
    {
        self.staged.get(n)
    }

    pub fn under_way(&self, n: usize) -> Option<u8>
        ensures { result ≡ under_way_at self.now n }
    {
        self.under_way.get(n)
    }

    // Whether some write is under way.
    pub fn busy(&self) -> bool
        ensures { result ≡ is_busy self.now }
    {
        self.under_way.any()
    }

    // Stages a byte for a cell, in the place of an earlier one; where there is no such cell, nothing.
    pub fn stage(&mut self, n: usize, byte: u8)
        ensures { self.new ≡ stages self.old n byte }
    {
        self.staged.set(n, byte);
    }

    pub fn unstage(&mut self)
        ensures { self.new ≡ unstages self.old }
    {
        self.staged.clear();
    }

    // No write is under way any more.
    fn end(&mut self)
        ensures { self.new ≡ ends self.old }
    {
        self.under_way.clear();
    }

    // At a STOP all that is staged comes under way, or is dropped.
    pub fn stop(&mut self, begins: bool)
        ensures { self.new ≡ stopped begins self.old }
    {
        if begins {
            self.begin();
        } else {
            self.unstage();
        }
    }

    // All that is staged comes under way; a write already under way stays as it is.
    pub fn begin(&mut self)
        ensures { self.new ≡ begins self.old }
    {
        self.under_way.fill_from(&self.staged);
        self.unstage();
    }

    // The byte of a cell once a write under way to it is stored, where it is to be.
    fn settled(&self, n: usize, stores: bool) -> u8
        ensures { result ≡ cond stores (unwrap_or (under_way_at self.now n) (byte_at self.now n)) (byte_at self.now n) }
    {
        let byte = self.byte(n).unwrap_or(0);
        if stores {
            self.under_way(n).unwrap_or(byte)
        } else {
            byte
        }
    }

    // All that is under way is stored.
    pub fn finish(&mut self)
        ensures { self.new ≡ finishes self.old }
    {
        self.bytes = array::from_fn(
            |n|
                ensures { result ≡ unwrap_or (under_way_at self.entry.now n) (byte_at self.entry.now n) }
            { self.settled(n, true) },
        );
        self.end();
    }

    // A write under way to cell n is stored where bit n modulo 16 of the mask is 1; the others are lost.
    pub fn cut(&mut self, mask: u16)
        ensures { self.new ≡ cuts self.old mask }
    {
        self.bytes = array::from_fn(
            |n|
                ensures { result ≡ cond (marks mask n) (unwrap_or (under_way_at self.entry.now n) (byte_at self.entry.now n)) (byte_at self.entry.now n) }
            { self.settled(n, (mask >> (n % 16)) % 2 == 1) },
        );
        self.end();
        self.unstage();
    }
}
