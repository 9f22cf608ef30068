// The answers of a case as one text, with a comma between them.

use refusals::Refusal;
use std::alloc::{AllocError, Global};
use std::fmt;

// Want of memory is kept until the text is asked for, so that an answer can be told in one line.
#[derive(Drop)]
pub struct Told {
    text: String,
    failure: Option<AllocError>,
}

impl Told {
    pub(super) fn new(alloc: Global) -> Told {
        Told {
            text: String::new(alloc),
            failure: None,
        }
    }

    pub(super) fn tell(&mut self, answer: impl fmt::Display + Drop) {
        if let Err(failure) = self.append(answer) {
            self.failure = Some(failure);
        }
    }

    fn append(&mut self, answer: impl fmt::Display + Drop) -> Result<(), AllocError> {
        if !self.text.is_empty() {
            self.text.push_str(", ")?;
        }
        write!(self.text, "{answer}")
    }

    pub(super) fn text(&self) -> Result<&str, AllocError> {
        if let Some(failure) = self.failure {
            return Err(failure);
        }
        if self.text.is_empty() {
            return Ok("nothing");
        }
        Ok(self.text.as_str())
    }
}

// A stored byte: two hexadecimal digits.
#[derive(Clone, Copy)]
pub struct Stored(pub u8);

impl fmt::Display for Stored {
    fn fmt<W: fmt::Write>(&self, f: &mut fmt::Formatter<W>) -> fmt::Result {
        let byte = self.0;
        write!(f, "{byte:02x}")
    }
}

// Nine bits that were on the wire: the byte, and + for a LOW ninth bit or - for a HIGH one.
#[derive(Clone, Copy)]
pub struct NineBits(pub u16);

impl fmt::Display for NineBits {
    fn fmt<W: fmt::Write>(&self, f: &mut fmt::Formatter<W>) -> fmt::Result {
        let byte = self.0 / 2;
        let ninth = if self.0 % 2 == 0 { '+' } else { '-' };
        write!(f, "{byte:02x}{ninth}")
    }
}

// Whether two boards are the same.
#[derive(Clone, Copy)]
pub struct Same(pub bool);

impl fmt::Display for Same {
    fn fmt<W: fmt::Write>(&self, f: &mut fmt::Formatter<W>) -> fmt::Result {
        f.write_str(if self.0 { "same" } else { "another" })
    }
}

// What a call answered: `ok`, or `no` and the number of the refusal.
#[derive(Clone, Copy)]
pub struct Outcome(pub Result<(), Refusal>);

impl fmt::Display for Outcome {
    fn fmt<W: fmt::Write>(&self, f: &mut fmt::Formatter<W>) -> fmt::Result {
        match self.0 {
            Ok(()) => f.write_str("ok"),
            Err(refusal) => {
                let number = refusal.number();
                write!(f, "no {number}")
            }
        }
    }
}
