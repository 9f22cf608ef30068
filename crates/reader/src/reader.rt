// The reader's state between samples, and what one sample does to it and to the row. The record of an open transfer stands in
// the row and is changed in its place by each sample that shows more of it. Its last sample is written where it ends.
ghost use Rattle.std.specs.Prelude.{◌≡◌, ◌<◌, Bool, true, [], length};
ghost use Rattle.board.specs.Wires.{rose};
ghost use Rattle.rows.specs.Rows.{items_of};
ghost use Rattle.reader.specs.Kept.{AllSmall, edge_of, starts, kept_next};
ghost use Rattle.reader.specs.Steps.{reader_after, seen, stepped, kept_prolonged, Changes, Begins, GoesOn, Reaches, Stopped, Grows};
ghost use Rattle.reader.specs.Reading.{opened, ended};

use super::kept::{Kept, next};
use super::transfer::Transfer;
use super::wires::{Edge, Wires};
use rows::row::Row;

#[derive(Clone, Copy)]
pub(crate) struct Reader {
    pub sample: u8,
    pub opened: Option<Kept>,
}

impl Reader {
    // Before the first sample both wires count as HIGH.
    pub(crate) fn new() -> Reader
        ensures { result ≡ reader_after [] 0 }
    {
        Reader {
            sample: 3,
            opened: None,
        }
    }

    // Takes sample n. Of the one before no more is kept than its byte, since most samples have SCL LOW and need no more.
    pub(crate) fn step(&mut self, n: usize, sample: u8, row: &mut Row<'_, Transfer>)
        requires small { AllSmall self.old.opened }
        requires room { starts (seen sample self.old) ≡ true → row.old.count < length (items_of row.old) }
        ensures reader { self.new ≡ stepped sample self.old }
        ensures row { Grows (seen sample self.old) n self.old.opened self.new.opened row.old row.new }
        ensures lender { row.new.items.ghost_name ≡ row.old.items.ghost_name }
    {
        let edge = Wires::at(self.sample).edge(Wires::at(sample));
        let opened = next(self.opened, edge);
        grow(row, n, edge, self.opened, opened);
        *self = Reader { sample, opened };
    }
}

// The record of a transfer of which no more than its START has come.
fn opened(n: usize) -> Transfer
    ensures { result ≡ opened n }
{
    Transfer {
        first: n,
        last: n,
        address: 0,
        ninths: 0,
        clean: false,
    }
}

// The record of a transfer that goes on to sample n.
fn prolonged(transfer: Transfer, n: usize, kept: &Kept) -> Transfer
    ensures { result ≡ kept_prolonged n kept.now transfer }
{
    Transfer {
        first: transfer.first,
        last: n,
        address: kept.address(),
        ninths: kept.ninths,
        clean: false,
    }
}

// The record of a transfer that ends at the sample `last`.
fn ended(transfer: Transfer, last: usize, clean: bool) -> Transfer
    ensures { result ≡ ended last clean transfer }
{
    Transfer {
        last,
        clean,
        ..transfer
    }
}

// One record more. START and STOP are rare, and what they do stays out of the loop over the samples.
#[inline(never)]
fn begin(row: &mut Row<'_, Transfer>, n: usize)
    requires { row.old.count < length (items_of row.old) }
    ensures begins { Begins n row.old row.new }
    ensures lender { row.new.items.ghost_name ≡ row.old.items.ghost_name }
{
    let _ = row.append(opened(n));
}

// The last record goes on to sample n.
fn prolong(row: &mut Row<'_, Transfer>, n: usize, kept: &Kept)
    ensures changes { Changes (kept_prolonged n kept.now) row.old row.new }
    ensures lender { row.new.items.ghost_name ≡ row.old.items.ghost_name }
{
    if let Some(&last) = row.last() {
        row.replace_last(prolonged(last, n, kept));
    }
}

// The last record ends at sample n.
fn end(row: &mut Row<'_, Transfer>, n: usize, clean: bool)
    ensures changes { Changes (ended n clean) row.old row.new }
    ensures count { row.new.count ≡ row.old.count }
    ensures slots { length (items_of row.new) ≡ length (items_of row.old) }
    ensures lender { row.new.items.ghost_name ≡ row.old.items.ghost_name }
{
    if let Some(&last) = row.last() {
        row.replace_last(ended(last, n, clean));
    }
}

// An open transfer goes on to sample n with a rise, which its record may show.
fn go_on(row: &mut Row<'_, Transfer>, n: usize, before: Option<Kept>, after: Option<Kept>)
    requires { (bit : Bool) × (after ≡ kept_next (rose bit) before) }
    ensures goes_on { GoesOn n before after row.old row.new }
    ensures lender { row.new.items.ghost_name ≡ row.old.items.ghost_name }
{
    if let (Some(_), Some(kept)) = (before, after) {
        if kept.rise_shows() {
            prolong(row, n, &kept);
        }
    }
}

// The record of an open transfer reaches sample n, which ends it without a STOP: it is a START, or the last sample.
pub(crate) fn reach(row: &mut Row<'_, Transfer>, n: usize, before: Option<Kept>)
    ensures reaches { Reaches n before row.old row.new }
    ensures count { row.new.count ≡ row.old.count }
    ensures slots { length (items_of row.new) ≡ length (items_of row.old) }
    ensures lender { row.new.items.ghost_name ≡ row.old.items.ghost_name }
{
    if let Some(_) = before {
        end(row, n, false);
    }
}

// An open transfer ends at sample n with its STOP.
#[inline(never)]
fn stop(row: &mut Row<'_, Transfer>, n: usize, before: Option<Kept>)
    ensures stops { Stopped n before row.old row.new }
    ensures lender { row.new.items.ghost_name ≡ row.old.items.ghost_name }
{
    if let Some(kept) = before {
        end(row, n, kept.is_clean());
    }
}

// What sample n does to the row, with the open transfer before and after it.
fn grow(
    row: &mut Row<'_, Transfer>,
    n: usize,
    edge: Edge,
    before: Option<Kept>,
    after: Option<Kept>,
)
    requires after { after ≡ kept_next (edge_of edge) before }
    requires room { starts (edge_of edge) ≡ true → row.old.count < length (items_of row.old) }
    ensures row { Grows (edge_of edge) n before after row.old row.new }
    ensures lender { row.new.items.ghost_name ≡ row.old.items.ghost_name }
{
    match edge {
        Edge::Start => {
            reach(row, n, before);
            begin(row, n);
        }
        Edge::Stop => stop(row, n, before),
        Edge::Rise { bit: _ } => go_on(row, n, before, after),
        Edge::Steady | Edge::Fall => {}
    }
}
