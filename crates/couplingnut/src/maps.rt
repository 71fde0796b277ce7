// The calls on maps, for hosts: the map test, the converter and mending.
ghost use Rattle.std.specs.Prelude.{◌≡◌};
ghost use Rattle.base_chip.specs.declared.Part.TheVariants.{Ad9557, Ad9508};
ghost use Rattle.base_chip.specs.declared.Chip.TheVariants.{Newer, Older};
ghost use Rattle.map_test.specs.MapTest.{map_number, map_test_number};
ghost use Rattle.map_convert.specs.Convert.{converting, convert_of};
ghost use Rattle.map_mend.specs.Mend.{mending, mend_of};

use crate::told;
use base_chip::Part;
use base_numbers::number_of;
use map_convert::{to_version_1, to_version_2};
use map_mend::mend;
use map_test::{map_test, map_test_older};

// Whether a map may be used: 0, or 2 where its form is wrong, or 3 where an entry breaks a rule.
#[unsafe(no_mangle)]
pub extern "C" fn couplingnut_map_test(map: &[u8]) -> u32
    ensures { result ≡ map_number Newer map.now }
{
    number_of(map_test(map)) as u32
}

// The same for the AD9557 whose highest address is top: 0, 2, 3, or 12 where the top is none, or not the map's last address.
#[unsafe(no_mangle)]
pub extern "C" fn couplingnut_map_test_ad9557(top: u64, map: &[u8]) -> u32
    ensures { result ≡ map_test_number (Older Ad9557 top) map.now }
{
    number_of(map_test_older(Part::Ad9557, top, map)) as u32
}

// The same for the AD9508.
#[unsafe(no_mangle)]
pub extern "C" fn couplingnut_map_test_ad9508(top: u64, map: &[u8]) -> u32
    ensures { result ≡ map_test_number (Older Ad9508 top) map.now }
{
    number_of(map_test_older(Part::Ad9508, top, map)) as u32
}

// Puts a map, as one of version 1, at the start of the outgoing buffer, and says how many bytes it is. A refusal, 2, 3, 13 or 11, says
// 0 bytes and leaves the buffer as it was.
#[unsafe(no_mangle)]
pub extern "C" fn couplingnut_to_version_1(map: &[u8], out: &mut [u8], length: &mut u64) -> u32
    ensures { converting result length.new out.new ≡ convert_of 1 map.now out.old }
{
    let made = to_version_1(map, out);
    told(made, length)
}

// The same as one of version 2, with flags 0 if the map had none. A refusal is 2, 3 or 11.
#[unsafe(no_mangle)]
pub extern "C" fn couplingnut_to_version_2(map: &[u8], out: &mut [u8], length: &mut u64) -> u32
    ensures { converting result length.new out.new ≡ convert_of 2 map.now out.old }
{
    let flagged = to_version_2(map, out);
    told(flagged, length)
}

// Mends a map in its own bytes, puts each entry that it alters at the start of the list, as it was, and says how many bytes that is. A
// refusal, 2, 18 or 6, says 0 bytes and leaves the map and the list as they were.
#[unsafe(no_mangle)]
pub extern "C" fn couplingnut_mend(map: &mut [u8], list: &mut [u8], length: &mut u64) -> u32
    ensures { mending result length.new map.new list.new ≡ mend_of map.old list.old }
{
    let mended = mend(map, list);
    told(mended, length)
}
