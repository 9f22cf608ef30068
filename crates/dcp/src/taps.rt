// The bytes of a potentiometer of 100 taps.
ghost use Rattle.std.specs.Prelude.{◌≡◌, ◌<◌, ◌==◌};
ghost use Rattle.std.specs.List.{position};
ghost use Rattle.dcp.specs.Taps.{bytes, tap_in, looked, Inverse};

// The byte of each tap.
pub const BYTES: [u8; 100] = [
    0, 1, 2, 3, 4, 5, 6, 7, 8, 9, 10, 11, 12, 13, 14, 15, 16, 17, 18, 19, 20, 21, 22, 23, 24, 56,
    55, 54, 53, 52, 51, 50, 49, 48, 47, 46, 45, 44, 43, 42, 41, 40, 39, 38, 37, 36, 35, 34, 33, 32,
    64, 65, 66, 67, 68, 69, 70, 71, 72, 73, 74, 75, 76, 77, 78, 79, 80, 81, 82, 83, 84, 85, 86, 87,
    88, 120, 119, 118, 117, 116, 115, 114, 113, 112, 111, 110, 109, 108, 107, 106, 105, 104, 103,
    102, 101, 100, 99, 98, 97, 96,
];

// A tap, and the byte that stands for it.
#[derive(Clone, Copy, PartialEq, Eq, Debug)]
pub struct Entry {
    pub tap: u8,
    pub byte: u8,
}

// The place of the first entry that is the byte.
fn first(table: &[u8; 100], byte: u8) -> Option<usize>
    ensures { result ≡ position (λ x. x == byte) table.now }
{
    table.iter().position(|entry| *entry == byte)
}

// That place, or 99 where no entry is the byte.
#[tactic(auto, unfolding(crate::specs::Taps::tap_in))]
fn place(table: &[u8; 100], byte: u8) -> u8
    ensures found { result ≡ tap_in table.now byte }
    ensures inside { result < 100 }
{
    first(table, byte).map_or(99, |tap| tap as u8)
}

// The tap of a byte in any table, and the entry at that tap.
pub fn look(table: &[u8; 100], byte: u8) -> Entry
    ensures { result ≡ looked table.now byte }
{
    let tap = place(table, byte);
    Entry {
        tap,
        byte: table[usize::from(tap)],
    }
}

// The constant table is the table of the rule: its entries are computed and compared.
#[tactic(auto, unfolding(crate::specs::Taps::bytes))]
fn look_up(byte: u8) -> Entry
    ensures { result ≡ looked bytes byte }
{
    look(&BYTES, byte)
}

// The tap that a byte stands for, and the byte of that tap.
#[tactic(auto, using(crate::proofs::Table::inverse))]
pub fn entry_of(byte: u8) -> Entry
    ensures found { result ≡ looked bytes byte }
    ensures inverse { Inverse byte result }
{
    look_up(byte)
}
