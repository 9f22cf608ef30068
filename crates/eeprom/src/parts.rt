// A chip that is the one numbered part, with number 0. What every such chip answers alike is a line in each of their impls:
// the methods of a trait stand in its impls, and one impl for all chips would overlap with those of other parts.
ghost use Rattle.std.specs.Prelude.{◌≡◌};
ghost use Rattle.eeprom.specs.OnePart.{of_part};

// What holds of part 0, or of any other.
pub fn of_part<T: Drop>(part: usize, mine: T, other: T) -> T
    ensures { result ≡ of_part part mine other }
{
    if part == 0 { mine } else { other }
}
