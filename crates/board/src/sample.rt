// A sample: SCL and SDA as the master drives them, and the levels of the lines beside the wires.
ghost use Rattle.std.specs.Prelude.{◌≡◌};
ghost use Rattle.refusals.specs.Told.{told};
ghost use Rattle.board.specs.Samples.{decoded};

use part::levels::Levels;
use refusals::Refusal;

#[derive(Clone, Copy, PartialEq, Eq, Debug)]
pub struct Sample {
    pub scl: bool,
    pub sda: bool,
    pub levels: Levels,
}

// Bit 0 of a sample's byte is SCL, bit 1 SDA, bit 2 WP, bit 3 V2RO, bit 4 V3RO; no line has bits 5 to 7.
impl TryFrom<u8> for Sample {
    type Error = Refusal;

    ghost try_from_gives = { λ byte result. told (λ s. s) result ≡ decoded byte };

    fn try_from(byte: u8) -> Result<Sample, Refusal> {
        if byte >= 32 {
            return Err(Refusal::BadSample);
        }
        let levels = Levels {
            wp: byte / 4 % 2 == 1,
            v2ro: byte / 8 % 2 == 1,
            v3ro: byte / 16 % 2 == 1,
        };
        Ok(Sample {
            scl: byte % 2 == 1,
            sda: byte / 2 % 2 == 1,
            levels,
        })
    }
}
