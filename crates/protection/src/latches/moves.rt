// What sets and clears the latches.
ghost use Rattle.std.specs.Prelude.{◌≡◌, true};
ghost use Rattle.protection.specs.Latching.{cleared, enabled, armed, disarmed};

use super::Latches;

impl Latches {
    pub fn new() -> Latches
        ensures { result ≡ cleared }
    {
        Latches {
            wel: false,
            rwel: false,
        }
    }

    pub fn wel(&self) -> bool
        ensures { result ≡ self.now.wel }
    {
        let Latches { wel, rwel: _ } = *self;
        wel
    }

    pub fn rwel(&self) -> bool
        ensures reads { result ≡ self.now.rwel }
        ensures ordered { result ≡ true → self.now.wel ≡ true }
    {
        let Latches { wel: _, rwel } = *self;
        rwel
    }

    // Sets WEL.
    #[tactic(auto, using(crate::proofs::Latched::same_latches))]
    pub fn enable(&mut self)
        ensures { self.new ≡ enabled self.old }
    {
        self.wel = true;
    }

    // Sets RWEL where WEL stands.
    #[tactic(auto, using(crate::proofs::Latched::same_latches))]
    pub fn arm(&mut self)
        ensures { self.new ≡ armed self.old }
    {
        self.rwel = self.wel;
    }

    // Clears RWEL.
    pub fn disarm(&mut self)
        ensures { self.new ≡ disarmed self.old }
    {
        self.rwel = false;
    }
}
