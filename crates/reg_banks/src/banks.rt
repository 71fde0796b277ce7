// The two banks: the defaults at opening and at a soft reset, and the transfer.
ghost use Rattle.std.specs.Prelude.{◌≡◌, length};
ghost use Rattle.map_format.specs.Format.{count_of};
ghost use Rattle.reg_banks.specs.Banks.{banks, Mapped, defaults_from, default_banks, transferred};

use map_format::{BUFFERED, entry_at};

// Puts each default in a bank. Here and in a transfer the loop goes by the place, up to the map's own count, which `entry_at` is given too:
// the compiler then drops both tests of a place, which a large bank's time goes into.
pub fn put_defaults(map: &[u8], bank: &mut [u8])
    requires { length bank.old ≡ count_of map.now }
    ensures { bank.new ≡ defaults_from map.now 0 (count_of map.now) }
{
    let count = map_format::count(map);
    for i in 0..count {
        bank[i] = entry_at(map, count, i).default;
    }
}

// Puts each default in both banks: opening, and a soft reset.
pub fn reset(map: &[u8], active: &mut [u8], buffer: &mut [u8])
    requires { Mapped map.now (banks active.old buffer.old) }
    ensures { banks active.new buffer.new ≡ default_banks map.now }
{
    put_defaults(map, active);
    put_defaults(map, buffer);
}

// Moves the byte of each buffered register from the buffer stage to the active one.
pub fn transfer(map: &[u8], active: &mut [u8], buffer: &[u8])
    requires { Mapped map.now (banks active.old buffer.now) }
    ensures { banks active.new buffer.now ≡ transferred map.now (banks active.old buffer.now) }
{
    let count = map_format::count(map);
    for i in 0..count {
        if entry_at(map, count, i).kind == BUFFERED {
            active[i] = buffer[i];
        }
    }
}
