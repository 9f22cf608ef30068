// The interface of a part: what is asked of it and what moves it, byte by byte.
// The wire engine holds any part; each chip is one, and each layer over parts.
#![tactic(auto)]

ghost use Rattle.std.specs.Prelude.{◌≡◌};
ghost use Rattle.part.specs.Ops.{Ops, past, is, below};
ghost use Rattle.part.specs.Keeps.{Keeps};

pub mod levels;
pub mod power;

use levels::Levels;
use power::PowerCut;

pub trait Part {
    // The functions of the part, and the laws that they keep.
    ghost ops: { Ops Self };

    // What is left of a number past the numbered parts, or none where it is one of theirs.
    fn past(&self, part: usize) -> Option<usize>
        ensures { result ≡ past (ops.count self.now) part };

    fn has(&self, address: u8) -> bool
        ensures { result ≡ ops.has self.now address };

    // Whether the numbered part owns the address.
    fn owns(&self, part: usize, address: u8) -> bool
        ensures { result ≡ is part (ops.owner self.now address) };

    // A cell's stored byte, or none where the numbered part has no such cell.
    fn cell(&self, part: usize, n: usize) -> Option<u8>
        ensures { result ≡ below (ops.cells self.now part) n (ops.cell self.now part n) };

    fn offset(&self, part: usize, n: usize) -> u8
        ensures { result ≡ ops.offset self.now part n };

    fn staged(&self, part: usize, n: usize) -> Option<u8>
        ensures { result ≡ ops.staged self.now part n };

    fn under_way(&self, part: usize, n: usize) -> Option<u8>
        ensures { result ≡ ops.under_way self.now part n };

    fn busy(&self, part: usize) -> bool
        ensures { result ≡ ops.busy self.now part };

    // Where a wiper stands, or none where the numbered part has no such wiper.
    fn tap(&self, part: usize, n: usize) -> Option<u16>
        ensures { result ≡ below (ops.wipers self.now part) n (ops.tap self.now part n) };

    // Whether this address byte was heard in this transfer.
    fn heard(&self, byte: u8) -> bool
        ensures { result ≡ ops.heard self.now byte };

    // Whether this address byte would be heard now.
    fn hears(&self, byte: u8) -> bool
        ensures { result ≡ ops.hears self.now byte };

    // Makes every chip in it fresh and leaves any other part as it is.
    fn renew(&mut self)
        ensures { self.new ≡ ops.renew self.old };

    fn start(&mut self)
        ensures { self.new ≡ ops.start self.old };

    // An address byte; answers whether it gets an ACK.
    fn address(&mut self, byte: u8) -> bool
        ensures answer { result ≡ ops.hears self.old byte }
        ensures after { self.new ≡ ops.address self.old byte };

    // The first byte after a write address; answers whether it gets an ACK.
    fn aim(&mut self, address: u8, levels: Levels, byte: u8) -> bool
        ensures answer { result ≡ ops.aims self.old address levels byte }
        ensures after { self.new ≡ ops.aim self.old address levels byte };

    // A later byte; answers whether it gets an ACK.
    fn take(&mut self, address: u8, levels: Levels, byte: u8) -> bool
        ensures answer { result ≡ ops.takes self.old address levels byte }
        ensures after { self.new ≡ ops.take self.old address levels byte };

    // A byte fetched for sending.
    fn give(&mut self, address: u8) -> u8
        ensures answer { result ≡ ops.given self.old address }
        ensures after { self.new ≡ ops.give self.old address };

    // The levels of a sample.
    fn level(&mut self, levels: Levels)
        ensures { self.new ≡ ops.level self.old levels };

    fn stop(&mut self, clean: bool, levels: Levels)
        ensures { self.new ≡ ops.stop self.old clean levels };

    // The writes under way in a numbered part end.
    fn finish(&mut self, part: usize)
        ensures { self.new ≡ ops.finish self.old part };

    fn cut(&mut self, power: PowerCut)
        ensures { self.new ≡ ops.cut self.old power };

    ghost keeps: { Keeps ops };
}
