// The session as bytes: it crosses so to a host, which knows none of our structs. The layout is in specs/Layout.antt.
#![tactic(auto)]

ghost use Rattle.std.specs.Prelude.{◌≡◌, leb, length};
ghost use Rattle.std.specs.List.{list_all};
ghost use Rattle.bus_session_bytes.specs.Layout.{session_size, phase_byte, phase_of_byte, session_bytes, are_session, session_of};

use bus_session::{Phase, Port, Session};
use bus_settings::{InUse, Settings};

// How many bytes a session has.
pub const SIZE: usize = 21;

// The version of the layout: the first byte.
const VERSION: u8 = 4;

// The byte of a phase. No `From`, which would have to stand in bus_session: that knows no layout.
fn phase_byte(phase: Phase) -> u8
    ensures { result ≡ phase_byte phase }
{
    phase as u8
}

// The phase of a byte. Each byte has one, and so no `TryFrom`: `are_session` refuses those above 2 before.
fn phase_of(byte: u8) -> Phase
    ensures { result ≡ phase_of_byte byte }
{
    match byte {
        0 => Phase::Rest,
        1 => Phase::Instruction,
        _ => Phase::Data,
    }
}

// The bytes of a port.
pub fn bytes_of(session: Session) -> [u8; SIZE]
    ensures { result ≡ session_bytes session }
{
    let Session { port, armed } = session;
    let [value_high, value_low] = port.value.to_be_bytes();
    let [address_high, address_low] = port.address.to_be_bytes();
    [
        VERSION,
        port.csb as u8,
        port.sclk as u8,
        phase_byte(port.phase),
        port.bits,
        value_high,
        value_low,
        address_high,
        address_low,
        port.read as u8,
        port.settings.lsb_first as u8,
        port.settings.ascending as u8,
        port.settings.sdo_active as u8,
        port.settings.single_instruction as u8,
        port.settings.readback as u8,
        port.in_use.lsb_first as u8,
        port.in_use.ascending as u8,
        port.in_use.sdo_active as u8,
        port.in_use.single_instruction as u8,
        port.left,
        armed as u8,
    ]
}

// Whether each byte is a flag: 0 or 1.
fn are_flags(bytes: &[u8]) -> bool
    ensures { result ≡ list_all (λ b. leb b 1) bytes.now }
{
    bytes.iter().all(|byte| *byte <= 1)
}

// Whether bytes are a session: as many as it has, the version, a phase, and flags that are 0 or 1.
pub fn are_session(bytes: &[u8]) -> bool
    ensures { result ≡ are_session bytes.now }
{
    if bytes.len() != SIZE {
        return false;
    }
    (bytes[0] == VERSION)
        & are_flags(&bytes[1..3])
        & (bytes[3] <= 2)
        & are_flags(&bytes[9..19])
        & (bytes[20] <= 1)
}

// The session that bytes are.
pub fn session_of(bytes: &[u8]) -> Session
    requires { length bytes.now ≡ session_size }
    ensures { result ≡ session_of bytes.now }
{
    let port = Port {
        csb: bytes[1] == 1,
        sclk: bytes[2] == 1,
        phase: phase_of(bytes[3]),
        bits: bytes[4],
        value: u16::from_be_bytes([bytes[5], bytes[6]]),
        address: u16::from_be_bytes([bytes[7], bytes[8]]),
        read: bytes[9] == 1,
        settings: Settings {
            lsb_first: bytes[10] == 1,
            ascending: bytes[11] == 1,
            sdo_active: bytes[12] == 1,
            single_instruction: bytes[13] == 1,
            readback: bytes[14] == 1,
        },
        in_use: InUse {
            lsb_first: bytes[15] == 1,
            ascending: bytes[16] == 1,
            sdo_active: bytes[17] == 1,
            single_instruction: bytes[18] == 1,
        },
        left: bytes[19],
    };
    Session {
        port,
        armed: bytes[20] == 1,
    }
}
