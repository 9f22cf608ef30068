use crate::cut::Cut;
use crate::finish::Finish;
use crate::read::Read;
use crate::samples::Samples;
use crate::wait::Wait;
use crate::write::Write;

// A job. Its bytes are a part of the file, lent, with their offset there. Each record has its own maker and accessors: one record
// for what two of them share would be taken apart and put together again at each of its lines.
#[derive(Clone, Copy)]
pub enum Job<'a> {
    Write(Write<'a>),
    Read(Read<'a>),
    Wait(Wait),
    Finish(Finish),
    Cut(Cut),
    Recover,
    Samples(Samples<'a>),
}
