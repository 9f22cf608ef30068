// What a record of a row is found by.
ghost use Rattle.std.specs.Prelude.{◌≡◌, ℕ};

pub trait Keyed {
    ghost keyof: { Self → ℕ };

    fn key(&self) -> usize
        ensures { result ≡ keyof self.now };
}

// A sample and a level are found by their value.
impl Keyed for u8 {
    ghost keyof = { λ value. value };

    fn key(&self) -> usize {
        usize::from(*self)
    }
}
