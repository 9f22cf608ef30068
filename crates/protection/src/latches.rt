// The two write enable latches. RWEL never stands without WEL: the type keeps it so.
ghost use Rattle.std.specs.Prelude.{◌≡◌, true};

mod moves;

#[derive(Clone, Copy, PartialEq, Eq, Debug)]
pub struct Latches {
    wel: bool,
    rwel: bool,
    ghost ordered: { (rwel ≡ true → wel ≡ true) },
}
