// WP stands LOW while a guard lives, and as it stood before once the guard is let go. So what writes is lent the record of the
// line levels to change it, and promises that it stands as before (`lines`).
ghost use Rattle.std.specs.Prelude.{◌≡◌};
ghost use Rattle.controller.specs.Jobs.{lowered};

use part::levels::Levels;

pub struct WpGuard<'a> {
    lines: &'a mut Levels,
    before: bool,
}

impl Drop for WpGuard<'_> {
    fn drop(self)
        ensures wp { self.exit.0.now.wp ≡ self.entry.before }
        ensures v2ro { self.exit.0.now.v2ro ≡ self.entry.lines.now.v2ro }
        ensures v3ro { self.exit.0.now.v3ro ≡ self.entry.lines.now.v3ro }
    {
        self.lines.wp = self.before;
        let WpGuard {
            lines: _,
            before: _,
        } = self;
    }
}

impl<'a> WpGuard<'a> {
    // Lowers WP.
    pub fn lower(lines: &'a mut Levels) -> WpGuard<'a>
        ensures lines { result.lines.now ≡ lowered lines.old }
        ensures before { result.before ≡ lines.old.wp }
        ensures lender { result.lines.ghost_name ≡ lines.entry.ghost_name }
    {
        let before = lines.wp;
        lines.wp = false;
        WpGuard { lines, before }
    }

    // The levels of the lines while the guard lives.
    pub fn levels(&self) -> Levels
        ensures { result ≡ self.now.lines.now }
    {
        *self.lines
    }
}
