// The layer and the check of a table under C names, for callers in C and Rust (include/birnenschloss.h, bindings/rust). Each
// function forwards to a proved call and has its contract; none asks anything of its caller.
#![tactic(auto)]

mod forwarded;
mod groups;
mod sheets;

ghost use Rattle.std.specs.Prelude.{◌≡◌};
ghost use Rattle.table.specs.Check.{check};
ghost use Rattle.config.specs.Decode.{ipdu_length};
ghost use Rattle.exports.specs.Answers.{answer_of};

pub use forwarded::{
    birnenschloss_clear_marks, birnenschloss_confirm, birnenschloss_indication,
    birnenschloss_initialise, birnenschloss_marks, birnenschloss_receive, birnenschloss_send,
    birnenschloss_start, birnenschloss_start_periodic, birnenschloss_status, birnenschloss_stop,
    birnenschloss_stop_periodic, birnenschloss_tick,
};
pub use groups::{birnenschloss_send_group, birnenschloss_send_records};
pub use sheets::{birnenschloss_sheet_begin, birnenschloss_sheet_drain};

// A number of document 01 and what is returned with it, as C reads them.
#[repr(C)]
#[derive(Clone, Copy)]
pub struct Answer {
    pub number: u32,
    pub value: u32,
}

// The check of a table: 0, or 5 with the place of the first wrong record.
#[tactic(auto, using(table::proofs::Verdicts::place_bound))]
#[unsafe(no_mangle)]
pub extern "C" fn birnenschloss_check(table: &[u8]) -> Answer
    ensures { result ≡ answer_of (check table.now) }
{
    let verdict = table::check(table);
    Answer {
        number: table::number_of(verdict),
        value: table::place_of(verdict) as u32,
    }
}

// The length of an I-PDU in bytes; 0 where the table is wrong or has no such I-PDU.
#[unsafe(no_mangle)]
pub extern "C" fn birnenschloss_ipdu_length(table: &[u8], ipdu: u32) -> u32
    ensures { result ≡ ipdu_length table.now ipdu }
{
    config::ipdu_length(table, table::IpduNumber(ipdu)).map_or(0, |length| length.0)
}
