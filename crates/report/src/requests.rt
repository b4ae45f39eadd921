// The requests that a call made: for each its I-PDU and the bytes handed over.
ghost use Rattle.std.specs.Prelude.{[], ◌∷◌, ◌++◌, ◌≡◌, ◌+◌, ◌*◌, ◌%◌, ◌≤◌, ◌<◌, eqb, length};
ghost use Rattle.memory.specs.Bytes.{part};
ghost use Rattle.memory.specs.Search.{pick};
ghost use Rattle.memory.specs.Texts.{line_feed, Put};
ghost use Rattle.table.specs.Check.{Right};
ghost use Rattle.state.specs.Layout.{area_size};
ghost use Rattle.script.specs.Text.{hex_digit_of, hex};
ghost use Rattle.report.specs.Printing.{InTable, request_text, request_texts};

use table::{Counts, IpduNumber};

// The requests that a word names, by rising I-PDU, and the line feed.
pub(crate) fn put_requests(
    t: &[u8],
    c: Counts,
    area: &[u8],
    out: &mut [u8],
    at: usize,
    word: u32,
) -> usize
    requires right { Right t.now c }
    requires area_size_in_bounds { area_size ≤ length area.now }
    requires at_in_bounds { at + 769 ≤ length out.old }
    ensures { Put at (request_texts t.now c.ipdus word area.now ++ line_feed ∷ []) out.old out.new result }
{
    let n = c.ipdus;
    let mut k = 0;
    let mut rest = word;
    let mut end = at;
    // A while, measured: with `for k in 0..c.ipdus`, a shift and a break, a send that requests nothing takes 2 % more instructions, a tick 3 %.
    while (k < n) & (0 < rest) {
        end = put_if_named(t, area, out, end, IpduNumber(k), rest);
        rest /= 2;
        k += 1;
    }
    memory::put_line_feed(out, end)
}

// One I-PDU's request, where the lowest bit of `rest` names it.
fn put_if_named(
    t: &[u8],
    area: &[u8],
    out: &mut [u8],
    at: usize,
    number: IpduNumber,
    rest: u32,
) -> usize
    requires in_table { InTable t.now number.0 }
    requires area_size_in_bounds { area_size ≤ length area.now }
    requires at_in_bounds { at + 24 ≤ length out.old }
    ensures { Put at (pick (eqb (rest % 2) 1) (request_text t.now number.0 area.now) []) out.old out.new result }
{
    if rest % 2 == 1 {
        return put_request(t, area, out, at, number);
    }
    at
}

// ` req K` and the bytes of I-PDU K.
fn put_request(t: &[u8], area: &[u8], out: &mut [u8], at: usize, number: IpduNumber) -> usize
    requires in_table { InTable t.now number.0 }
    requires area_size_in_bounds { area_size ≤ length area.now }
    requires at_in_bounds { at + 24 ≤ length out.old }
    ensures { Put at (request_text t.now number.0 area.now) out.old out.new result }
{
    let behind = super::put_text(out, at, b" req");
    let end = memory::put_number(out, behind, number.0 as u64);
    out[end] = memory::BLANK;
    let record = table::ipdu_record(t, number);
    put_hex(
        out,
        end + 1,
        area,
        8 * (number.0 as usize),
        record.length as usize,
    )
}

// The n bytes from `from` on, in upper-case hex.
fn put_hex(out: &mut [u8], at: usize, bytes: &[u8], from: usize, n: usize) -> usize
    requires n_in_bounds { from + n ≤ length bytes.now }
    requires n_in_bounds_2 { at + 2 * n ≤ length out.old }
    ensures { Put at (hex (part from n bytes.now)) out.old out.new result }
{
    for i in 0..n {
        let b = bytes[from + i];
        out[at + 2 * i] = hex_digit(b / 16);
        out[at + 2 * i + 1] = hex_digit(b % 16);
    }
    at + 2 * n
}

fn hex_digit(d: u8) -> u8
    requires { d < 16 }
    ensures { result ≡ hex_digit_of d }
{
    if d < 10 { b'0' + d } else { b'A' + d - 10 }
}
