// The check that names the first wrong record.
ghost use Rattle.std.specs.Prelude.{◌≡◌, ◌<◌, MatchOption};
ghost use Rattle.memory.specs.Search.{least};
ghost use Rattle.table.specs.Check.{Shape, wrong_ipdu, wrong_object, check, number_of, place_of};
ghost use Rattle.table.specs.Inner.{IpdusRight};

use super::{
    Counts, HEADER_SIZE, IPDU_SIZE, IpduNumber, MOST_QUEUED, OBJECT_SIZE, ObjectNumber, WrongRecord,
};

// Names the first wrong record of a slice of any length, or accepts it with its counts.
pub fn check(t: &[u8]) -> Result<Counts, WrongRecord>
    ensures { result ≡ check t.now }
{
    if !super::header_right(t) {
        return Err(WrongRecord::Header);
    }
    let c = super::header_counts(t);
    if let Some(number) = first_wrong_ipdu(t, c) {
        return Err(WrongRecord::Ipdu(number));
    }
    if let Some(number) = first_wrong_object(t, c) {
        return Err(WrongRecord::Object(number));
    }
    Ok(c)
}

// Document 01's number for an answer: 0, or 5 where the table is wrong.
pub fn number_of(verdict: Result<Counts, WrongRecord>) -> u32
    ensures { result ≡ number_of verdict }
{
    match verdict {
        Ok(_) => 0,
        Err(_) => 5,
    }
}

// Document 01's place of the record that an answer names; 0 where the table is accepted.
pub fn place_of(verdict: Result<Counts, WrongRecord>) -> u64
    ensures { result ≡ place_of verdict }
{
    match verdict {
        Ok(_) => 0,
        Err(WrongRecord::Header) => 65535,
        Err(WrongRecord::Ipdu(k)) => k.0 as u64,
        Err(WrongRecord::Object(i)) => 256 + i.0 as u64,
    }
}

// The lowest I-PDU whose record is wrong.
fn first_wrong_ipdu(t: &[u8], c: Counts) -> Option<IpduNumber>
    requires { Shape t.now c }
    ensures { let k = least c.ipdus (wrong_ipdu t.now) in MatchOption result (k ≡ c.ipdus) (λ wrong. (k < c.ipdus) × (wrong ≡ record { 0 = k })) }
{
    for k in 0..c.ipdus {
        if !super::rules::ipdu_right(t, HEADER_SIZE + IPDU_SIZE * (k as usize)) {
            return Some(IpduNumber(k));
        }
    }
    None
}

// The lowest object that is wrong, by itself or in the sum of the depths. The I-PDUs are right.
fn first_wrong_object(t: &[u8], c: Counts) -> Option<ObjectNumber>
    requires shape { Shape t.now c }
    requires ipdus_right { IpdusRight t.now c }
    ensures { let i = least c.objects (wrong_object t.now c) in MatchOption result (i ≡ c.objects) (λ wrong. (i < c.objects) × (wrong ≡ record { 0 = i })) }
{
    let objects = HEADER_SIZE + IPDU_SIZE * (c.ipdus as usize);
    let mut depth = 0;
    for i in 0..c.objects {
        let a = objects + OBJECT_SIZE * (i as usize);
        if !super::rules::object_right(t, c, a) {
            return Some(ObjectNumber(i));
        }
        // The test costs most objects less than the sum and its limit.
        let d = memory::read8(t, a + 7);
        if d != 0 {
            depth += d;
            if MOST_QUEUED < depth {
                return Some(ObjectNumber(i));
            }
        }
    }
    None
}
