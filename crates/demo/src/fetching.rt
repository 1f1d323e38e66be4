// A lost answer is fetched (docs/RULES.md, 'Probe and acknowledge'). Operation -2, probe, asks after an invocation, and -3, acknowledge, confirms that its answer came.
use crate::site::{PROBE, Site};
use crate::table::{FETCHING_CONTROLLER, FETCHING_KIOSK};
use codes::Code;
use std::fmt;
use std::io::Write;

// The kiosk invokes an operation, and the controller receives it.
fn ask(site: &mut Site<impl Write>, id: u32, code: u32, argument: &[u8]) -> fmt::Result {
    site.invoke(&FETCHING_KIOSK, id, Code::Local(code), argument)?;
    site.controller_reads_with(&FETCHING_CONTROLLER)
}

pub(crate) fn fetched(site: &mut Site<impl Write>) -> fmt::Result {
    site.title(
        "11. A lost answer that is fetched: the controller kept it, and need not read the probe again",
    )?;
    site.tell(
        "both take",
        "tables with operations -2, to ask after an invocation, and -3, to confirm that its answer came",
    )?;
    ask(site, 15, 7, &PROBE)?;
    site.result_with(&FETCHING_CONTROLLER, 15, b"\x02\x01\x13")?;
    site.tell("channel loses", "this answer")?;
    site.tell("kiosk asks after", "invocation 15")?;
    ask(site, 16, 0xFFFF_FFFE, b"\x30\x05\xa0\x03\x02\x01\x0f")?;
    site.kiosk_reads_with(&FETCHING_KIOSK)?;
    site.kiosk_reads_with(&FETCHING_KIOSK)?;
    site.tell("kiosk confirms", "that the answer to invocation 15 came")?;
    ask(site, 17, 0xFFFF_FFFD, b"\x02\x01\x0f")?;
    site.kiosk_reads_with(&FETCHING_KIOSK)
}
