// Reading of the header and of the records, byte by byte.
ghost use Rattle.std.specs.Prelude.{◌≡◌, ◌+◌, ◌*◌, ◌≤◌, ◌<◌, length};
ghost use Rattle.table.specs.Records.{object_base, counts, ipdu_record, object_record};

use super::{
    Counts, HEADER_SIZE, IPDU_SIZE, IpduNumber, IpduRecord, OBJECT_SIZE, ObjectNumber, ObjectRecord,
};

// The counts of the header.
#[tactic(auto, unfolding(crate::specs::Records::counts))]
pub fn header_counts(t: &[u8]) -> Counts
    requires { 16 ≤ length t.now }
    ensures { result ≡ counts t.now }
{
    Counts {
        ipdus: memory::read16(t, 0),
        objects: memory::read16(t, 2),
    }
}

// The record of an I-PDU.
#[tactic(auto, unfolding(crate::specs::Records::ipdu_record))]
pub fn ipdu_record(t: &[u8], number: IpduNumber) -> IpduRecord
    requires { 16 + 16 * number.0 + 16 ≤ length t.now }
    ensures { result ≡ ipdu_record t.now number.0 }
{
    let k = number.0 as usize;
    let a = HEADER_SIZE + IPDU_SIZE * k;
    IpduRecord {
        direction: memory::read8(t, a),
        length: memory::read8(t, a + 1),
        mode: memory::read8(t, a + 2),
        zero_3: memory::read8(t, a + 3),
        period: memory::read16(t, a + 4),
        offset: memory::read16(t, a + 6),
        minimum_delay: memory::read16(t, a + 8),
        deadline: memory::read16(t, a + 10),
        first_deadline: memory::read16(t, a + 12),
        zero_14: memory::read16(t, a + 14),
    }
}

// The record of an object in a table of so many I-PDUs.
#[tactic(auto, unfolding(crate::specs::Records::object_record))]
pub fn object_record(t: &[u8], ipdus: u32, number: ObjectNumber) -> ObjectRecord
    requires { object_base ipdus + 32 * number.0 + 32 ≤ length t.now }
    ensures { result ≡ object_record t.now ipdus number.0 }
{
    let n = ipdus as usize;
    let i = number.0 as usize;
    let a = HEADER_SIZE + IPDU_SIZE * n + OBJECT_SIZE * i;
    ObjectRecord {
        kind: memory::read8(t, a),
        ipdu: memory::read8(t, a + 1),
        sender: memory::read8(t, a + 2),
        start: memory::read8(t, a + 3),
        size: memory::read8(t, a + 4),
        order: memory::read8(t, a + 5),
        transfer: memory::read8(t, a + 6),
        depth: memory::read8(t, a + 7),
        filter: memory::read8(t, a + 8),
        zero_9: memory::read8(t, a + 9),
        zero_10: memory::read16(t, a + 10),
        initial: memory::read32(t, a + 12),
        first: memory::read32(t, a + 16),
        second: memory::read32(t, a + 20),
        zero_24: memory::read64(t, a + 24),
    }
}
