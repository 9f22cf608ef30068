// What a register byte locks.
ghost use Rattle.std.specs.Prelude.{◌≡◌};
ghost use Rattle.protection.specs.Lock.{lock_of, locks_memory, locks_wipers, wp_forbids};

// By bits 4 and 3: of the 256 memory cells none, the last quarter, the last half, or all.
#[derive(Clone, Copy, PartialEq, Eq, Debug)]
pub(crate) enum Lock {
    Nothing,
    LastQuarter,
    LastHalf,
    All,
}

fn lock_of(register: u8) -> Lock
    ensures { result ≡ lock_of register }
{
    match register / 8 % 4 {
        0 => Lock::Nothing,
        1 => Lock::LastQuarter,
        2 => Lock::LastHalf,
        _ => Lock::All,
    }
}

pub fn locks_memory(register: u8, cell: u8) -> bool
    ensures { result ≡ locks_memory register cell }
{
    match lock_of(register) {
        Lock::Nothing => false,
        Lock::LastQuarter => cell >= 0xc0,
        Lock::LastHalf => cell >= 0x80,
        Lock::All => true,
    }
}

// The wipers and the stored wipers.
pub fn locks_wipers(register: u8) -> bool
    ensures { result ≡ locks_wipers register }
{
    lock_of(register) != Lock::Nothing
}

// WP HIGH forbids stored writes, and every write while something is locked.
pub fn wp_forbids(stores: bool, wp: bool, register: u8) -> bool
    ensures { result ≡ wp_forbids stores wp register }
{
    wp && (stores || locks_wipers(register))
}
