// What a host in C calls, which has an exit status to give: how a reading ended, and what is told beside it.
//
// The calls read standard input and write standard output, whose handles they take: a handle takes no bytes, and C passes nothing for
// one. A host puts the file that is to be read in the place of standard input. A call that failed has left its reason in errno.
#![tactic(auto)]

ghost use Rattle.std.specs.Prelude.{◌≡◌, ◌≤◌};
ghost use Rattle.text_recording.specs.Ends.{Known, Told, code_of, number_of};
ghost use Rattle.text_recording.specs.Sizes.{map_space};

use base_chip::Part;
use std::rt::{Stdin, Stdout};
use text_recording::{Failure, Family, MAP_SPACE, Reading, read_map, read_samples};

// How a reading ended, as a host is told.
fn code_of(end: Result<(), Failure>) -> u32
    ensures { result ≡ code_of end }
{
    match end {
        Ok(()) => 0,
        Err(Failure::Refused(_)) => 1,
        Err(Failure::MapFailed(_)) => 2,
        Err(Failure::SamplesFailed(_)) => 3,
        Err(Failure::OutputFailed(_)) => 4,
    }
}

// The number of a refusal, else 0.
fn number_of(end: Result<(), Failure>) -> u8
    ensures { result ≡ number_of end }
{
    match end {
        Err(Failure::Refused(refusal)) => u8::from(refusal),
        _ => 0,
    }
}

// Tells of a reading: how it ended, and through the pointers the rest.
fn tell(
    reading: Reading,
    number: &mut u64,
    samples: &mut u64,
    fell: &mut u64,
    rose: &mut u64,
) -> u32
    ensures { Told result number.new }
{
    *number = u64::from(number_of(reading.end));
    *samples = reading.samples;
    *fell = u64::from(reading.fell);
    *rose = u64::from(reading.rose);
    code_of(reading.end)
}

// Reads the samples of a recording from standard input and writes its text to standard output.
fn read_family(family: Family, stdin: Stdin, stdout: Stdout, map: &[u8]) -> Reading
    ensures { Known result.end }
{
    let mut samples_file = stdin;
    let mut to = stdout;
    read_samples(family, map, &mut samples_file, &mut to)
}

// Takes a map from standard input: all of it, and where the file is the map's own a byte more, if there is one; how many bytes that is.
#[unsafe(no_mangle)]
pub extern "C" fn couplingnut_read_map(
    stdin: Stdin,
    own: bool,
    map: &mut [u8; MAP_SPACE],
    size: &mut u64,
) -> u32
    ensures told { Told result 0 }
    ensures within { size.new ≤ map_space }
{
    let mut file = stdin;
    match read_map(&mut file, own, map) {
        Ok(length) => {
            *size = length as u64;
            code_of(Ok(()))
        }
        Err(reason) => {
            *size = 0;
            code_of(Err(Failure::MapFailed(reason)))
        }
    }
}

// Reads the recording of a newer chip: the samples from standard input, on a map that has been taken.
#[unsafe(no_mangle)]
pub extern "C" fn couplingnut_read_recording(
    stdin: Stdin,
    stdout: Stdout,
    map: &[u8],
    number: &mut u64,
    samples: &mut u64,
    fell: &mut u64,
    rose: &mut u64,
) -> u32
    ensures { Told result number.new }
{
    let reading = read_family(Family::Newer, stdin, stdout, map);
    tell(reading, number, samples, fell, rose)
}

// Reads the recording of an AD9557.
#[unsafe(no_mangle)]
pub extern "C" fn couplingnut_read_recording_ad9557(
    stdin: Stdin,
    stdout: Stdout,
    map: &[u8],
    number: &mut u64,
    samples: &mut u64,
    fell: &mut u64,
    rose: &mut u64,
) -> u32
    ensures { Told result number.new }
{
    let reading = read_family(Family::Older(Part::Ad9557), stdin, stdout, map);
    tell(reading, number, samples, fell, rose)
}

// Reads the recording of an AD9508.
#[unsafe(no_mangle)]
pub extern "C" fn couplingnut_read_recording_ad9508(
    stdin: Stdin,
    stdout: Stdout,
    map: &[u8],
    number: &mut u64,
    samples: &mut u64,
    fell: &mut u64,
    rose: &mut u64,
) -> u32
    ensures { Told result number.new }
{
    let reading = read_family(Family::Older(Part::Ad9508), stdin, stdout, map);
    tell(reading, number, samples, fell, rose)
}
