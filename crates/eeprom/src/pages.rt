// The pages of a memory.
ghost use Rattle.std.specs.Prelude.{◌≡◌, ◌%◌};
ghost use Rattle.eeprom.specs.Pages.{next_in_page};

// The cell after n in its page of so many cells; after the last of the page comes its first.
// With pages of 0 cells the number goes up, 255 to 0, and a page that would run past cell 255 goes on at cell 0.
pub fn next_in_page<const PAGE: u8>(n: u8) -> u8
    ensures around { result ≡ next_in_page PAGE n % 256 }
    ensures whole { 256 % PAGE ≡ 0 → result ≡ next_in_page PAGE n }
{
    if PAGE == 0 {
        return n.wrapping_add(1);
    }
    (n / PAGE * PAGE).wrapping_add((n % PAGE + 1) % PAGE)
}
