// The journey sheet under C names. It takes what document 02 lends it, and answers number and value.
ghost use Rattle.std.specs.Prelude.{◌≡◌};
ghost use Rattle.sheet.specs.Sheets.{begin_outcome, begin, drain_outcome, drain};

use layer::Reply;

#[unsafe(no_mangle)]
pub extern "C" fn birnenschloss_sheet_begin(
    t: &[u8],
    m: &[u8],
    s: &mut [u8],
    objects: &[u32],
) -> Reply
    ensures { begin_outcome result s.new ≡ begin t.now m.now s.old objects.now }
{
    sheet::begin(t, m, s, objects)
}

#[unsafe(no_mangle)]
pub extern "C" fn birnenschloss_sheet_drain(
    t: &[u8],
    m: &mut [u8],
    s: &mut [u8],
    text: &mut [u8],
) -> Reply
    ensures { drain_outcome result m.new s.new text.new
        ≡ drain t.now m.old s.old text.old }
{
    sheet::drain(t, m, s, text)
}
