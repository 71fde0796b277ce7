// The port as the scan takes it, and what a stop of the scan makes of it.
ghost use Rattle.std.specs.Prelude.{◌≡◌, true, cond, ◌<◌};
ghost use Rattle.base_bits.specs.Bits.{bit_at};
ghost use Rattle.bus_session.specs.Step.{value_with};
ghost use Rattle.bus_trace.specs.Scan.{ProgressBounds, ScanAfter};
ghost use Rattle.read_run.specs.Reach.{reaches};
ghost use Rattle.read_run.specs.ScanPort.{phase_of_last, scanned_port, scan_port, progress_at, scanned_to, scan_levels, scan_start, scan_rest};
ghost use Rattle.read_run.specs.Promises.{ByteBounds, EnterBefore, EnterAfter, WholeByteBefore, WholeByteAfter};

use base_bits::{bit_at, shift_in};
use base_card::Card;
use base_chip::{Chip, READBACK_CONTROL};
use bus_session::{Phase, Port, SCLK, SDIO, SDO, left_after, runs_out};
use bus_settings::next_address;
use bus_trace::{Progress, last_of, level_of, next_stop};

// A port whose phase is told by `last`, how many bits come before the last of a piece; `line` is the line that its bits come from.
#[derive(Clone, Copy)]
pub(crate) struct ScanPort {
    pub(crate) port: Port,
    pub(crate) last: u8,
    pub(crate) line: u8,
}

// How many bits come before the last of an instruction, and of a byte; at rest there is none.
pub(crate) const LAST_OF_INSTRUCTION: u8 = 15;

pub(crate) const LAST_OF_BYTE: u8 = 7;

const LAST_AT_REST: u8 = 0;

// The line that bits come from.
fn line_at(sdo_active: bool) -> u8
    ensures { result ≡ cond sdo_active 3 2 }
{
    if sdo_active { SDO } else { SDIO }
}

// The phase whose pieces have so many bits before the last.
fn phase_of(last: u8) -> Phase
    ensures { result ≡ phase_of_last last }
{
    if last == LAST_OF_INSTRUCTION {
        return Phase::Instruction;
    }
    if last == LAST_OF_BYTE {
        return Phase::Data;
    }
    Phase::Rest
}

// Whether a chip has an address that an instruction names: an older one up to its top.
fn reaches(chip: Chip, address: u16) -> bool
    ensures { result ≡ reaches chip address }
{
    match chip {
        Chip::Newer => true,
        Chip::Older { top, .. } => (address as u64) <= top,
    }
}

// The port that it is.
pub(crate) fn port_of(s: ScanPort) -> Port
    ensures { result ≡ scanned_port s }
{
    Port {
        phase: phase_of(s.last),
        ..s.port
    }
}

// A port that is handed in.
pub(crate) fn scan_port(newer: bool, port: Port) -> ScanPort
    ensures { result ≡ scan_port newer port }
{
    ScanPort {
        port,
        last: last_of(port.phase),
        line: line_at(port.read & port.in_use.sdo_active & newer),
    }
}

// Where the samples from a place on stop.
pub(crate) fn scan(card: &Card, samples: &[u8], s: ScanPort, i: usize) -> Progress
    requires { (ProgressBounds samples.now s.last (progress_at s.port i)) × (s.line < 4) }
    ensures { ScanAfter samples.now s.port.csb s.line s.port.in_use.lsb_first s.last (progress_at s.port i) result }
{
    let from = Progress {
        level: level_of(s.port.sclk),
        bits: s.port.bits,
        value: s.port.value,
        at: i,
    };
    next_stop(
        card,
        s.port.csb,
        samples,
        from,
        s.line,
        s.port.in_use.lsb_first,
        s.last,
    )
}

// The port at a stop.
pub(crate) fn scanned(s: ScanPort, p: Progress) -> ScanPort
    ensures { result ≡ scanned_to s p }
{
    let mut port = s.port;
    port.sclk = p.level == 2;
    port.bits = p.bits;
    port.value = p.value;
    ScanPort { port, ..s }
}

// With the levels of a sample.
pub(crate) fn with_levels(s: ScanPort, csb: bool, x: u8) -> ScanPort
    ensures { result ≡ scan_levels s csb (bit_at x 1) }
{
    let mut port = s.port;
    port.csb = csb;
    port.sclk = bit_at(x, SCLK);
    ScanPort { port, ..s }
}

// With SCLK high: a bit that an older chip passes over.
pub(crate) fn clocked(s: ScanPort) -> ScanPort
    ensures { result ≡ scan_levels s s.port.csb true }
{
    let mut port = s.port;
    port.sclk = true;
    ScanPort { port, ..s }
}

// An instruction starts, and takes its settings.
pub(crate) fn start(s: ScanPort) -> ScanPort
    ensures { result ≡ scan_start s }
{
    let mut port = s.port;
    let settings = port.settings;
    let in_use = settings.in_use();
    port.in_use = in_use;
    ScanPort {
        port,
        last: LAST_OF_INSTRUCTION,
        ..s
    }
}

// The frame has ended, or the rest of it is passed over. The settings in use are cleared one by one: set together they take more
// instructions a sample (docs/decisions/layout.md).
pub(crate) fn rest(s: ScanPort) -> ScanPort
    ensures { result ≡ scan_rest s }
{
    let mut port = s.port;
    port.bits = 0;
    port.value = 0;
    port.address = 0;
    port.read = false;
    port.in_use.lsb_first = false;
    port.in_use.ascending = false;
    port.in_use.sdo_active = false;
    port.in_use.single_instruction = false;
    port.left = 0;
    ScanPort {
        port,
        last: LAST_AT_REST,
        line: SDIO,
    }
}

// After the last bit of an instruction: its data, or nothing of it where it names an address that the chip does not have.
pub(crate) fn enter(chip: Chip, newer: bool, s: ScanPort, x: u8) -> ScanPort
    requires { EnterBefore chip newer s }
    ensures { EnterAfter chip s x result }
{
    let mut port = s.port;
    let value = shift_in(
        port.in_use.lsb_first,
        port.value,
        port.bits,
        bit_at(x, SDIO),
    );
    port.sclk = true;
    port.bits = 0;
    port.value = 0;
    port.read = 0x8000 <= value;
    let line = line_at(port.read & port.in_use.sdo_active & newer);
    if newer {
        port.address = value % 0x8000;
        return ScanPort {
            port,
            last: LAST_OF_BYTE,
            line,
        };
    }
    port.address = value % 0x2000;
    port.left = (value / 0x2000 % 4 + 1) as u8;
    let entered = ScanPort {
        port,
        last: LAST_OF_BYTE,
        line,
    };
    if reaches(chip, port.address) {
        return entered;
    }
    rest(entered)
}

// The byte that its last bit makes whole.
pub(crate) fn byte_at(s: ScanPort, x: u8) -> u8
    requires { ByteBounds s x }
    ensures { result ≡ value_with s.port (bit_at x s.line) }
{
    let value = shift_in(
        s.port.in_use.lsb_first,
        s.port.value,
        s.port.bits,
        bit_at(x, s.line),
    );
    value as u8
}

// After a whole byte: an instruction, the next byte, or nothing more. No chip has a setting above the readback control.
pub(crate) fn after_byte(chip: Chip, newer: bool, s: ScanPort, byte: u8) -> ScanPort
    requires { WholeByteBefore chip newer s }
    ensures { WholeByteAfter chip s byte result }
{
    let mut port = s.port;
    port.sclk = true;
    port.bits = 0;
    port.value = 0;
    if !port.read & (port.address <= READBACK_CONTROL) {
        let settings = s.port.settings.after(chip, port.address, byte);
        port.settings = settings;
    }
    if newer {
        if port.in_use.single_instruction {
            port.address = 0;
            port.read = false;
            return start(ScanPort {
                port,
                last: LAST_OF_BYTE,
                line: SDIO,
            });
        }
        port.address = next_address(port.in_use.ascending, port.address);
        return ScanPort {
            port,
            last: LAST_OF_BYTE,
            ..s
        };
    }
    if runs_out(chip, port.left, port.address, port.in_use.lsb_first) {
        return rest(ScanPort {
            port,
            last: LAST_OF_BYTE,
            ..s
        });
    }
    port.address = next_address(port.in_use.lsb_first, port.address);
    port.left = left_after(port.left);
    ScanPort {
        port,
        last: LAST_OF_BYTE,
        ..s
    }
}
