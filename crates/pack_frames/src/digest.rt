// A digest of numbers, mixed in one after the other.
use bits::NoPlace;
use std::fmt;

#[derive(Drop)]
pub(crate) struct Digest(u64);

impl Digest {
    pub(crate) fn new() -> Digest {
        Digest(1)
    }

    fn mix(&mut self, x: u64) {
        self.0 = (self.0 % 4294967291 * 31 + x % 4294967296) % 4294967291;
    }

    pub(crate) fn mix_frame(&mut self, frame: &[u8]) {
        for b in frame {
            self.mix(u64::from(*b));
        }
    }

    pub(crate) fn mix_packed(&mut self, answer: Result<(), NoPlace>) {
        self.mix(u64::from(answer.is_ok()));
    }

    // A refusal counts as one fixed number.
    pub(crate) fn mix_unpacked(&mut self, answer: Result<u32, NoPlace>) {
        self.mix(answer.map_or(4294967290, u64::from));
    }
}

impl fmt::Display for Digest {
    fn fmt<W: fmt::Write>(&self, f: &mut fmt::Formatter<W>) -> fmt::Result {
        write!(f, "digest {}", self.0)
    }
}
