// The samples of a run, put into a buffer. Each function here gives the place after what it puts. Where bits are sent the card is lent.
// No struct holds the buffer with the place: `Put w.old.out w.old.at xs w.new.at w.new.out` is no plainer than
// `Put out.old at xs result out.new`.
ghost use Rattle.std.specs.Prelude.{◌≡◌, cond, false, [], ◌+◌, ◌<◌, ◌≤◌, length};
ghost use Rattle.base_bits.specs.Buffer.{Put};
ghost use Rattle.base_chip.specs.declared.Chip.TheVariants.{Newer};
ghost use Rattle.send_order.specs.Order.{with_data, is_read, sent_of, sent_bytes};
ghost use Rattle.send_order.specs.Samples.{high_first, bits_of, clocked, instruction_of, samples_of};
ghost use Rattle.send_order.specs.Number.{send_number};
ghost use Rattle.send_samples.specs.Run.{order_run, sent_byte, opening_samples, own_samples, byte_samples, run_samples, closing_samples, whole_samples};

use crate::{RunSettings, run_of};
use base_card::Card;
use bus_settings::next_address;
use send_order::Order;

// Times a nibble: each of its bits in its place of two samples, one bit above SDIO.
const SPREAD: u64 = 0x0808_0404_0202_0101;

// SDIO in each of eight samples.
const LEVELS: u64 = 0x0404_0404_0404_0404;

// Four ones: SDIO high, and SCLK low and high in turn.
const ONES: u64 = 0x0604_0604_0604_0604;

// Puts the eight samples of a nibble, its highest bit first. They are made as one number, of
// which the first sample is the lowest byte: the samples of four ones, less the level of SDIO where a bit is zero.
fn put_nibble(x: u8, out: &mut [u8], at: usize) -> usize
    requires { (x < 16) × (at + 8 ≤ length out.old) }
    ensures { Put out.old at (clocked (high_first 4 x)) result out.new }
{
    let zeros = (((15 - x) as u64 * SPREAD) >> 1) & LEVELS;
    let samples = ONES - zeros;
    out[at..at + 8].copy_from_slice(&samples.to_le_bytes());
    at + 8
}

// Puts the samples of a byte. Its bits go out highest first; where the lowest goes first, those of the turned byte.
fn put_eight(card: &Card, lsb_first: bool, x: u8, out: &mut [u8], at: usize) -> usize
    requires at_in_bounds { at + 16 ≤ length out.old }
    ensures { Put out.old at (clocked (bits_of lsb_first 8 x)) result out.new }
{
    let sent = card.in_order(lsb_first, x);
    let n = put_nibble(sent / 16, out, at);
    put_nibble(sent % 16, out, n)
}

// The one of two bytes that travels first.
fn first_of(lsb_first: bool, high: u8, low: u8) -> u8
    ensures { result ≡ cond lsb_first low high }
{
    if lsb_first { low } else { high }
}

// Puts the samples of sixteen bits: all of them are turned, so the two bytes change places too.
fn put_sixteen(card: &Card, lsb_first: bool, x: u16, out: &mut [u8], at: usize) -> usize
    requires at_in_bounds { at + 32 ≤ length out.old }
    ensures { Put out.old at (clocked (bits_of lsb_first 16 x)) result out.new }
{
    let high = (x / 256) as u8;
    let low = (x % 256) as u8;
    let n = put_eight(card, lsb_first, first_of(lsb_first, high, low), out, at);
    put_eight(card, lsb_first, first_of(lsb_first, low, high), out, n)
}

// The instruction of its bits 14 to 0: bit 15 is 1 for read.
fn instruction(read: bool, lower: u16) -> u16
    requires { lower < 0x8000 }
    ensures { result ≡ instruction_of read lower }
{
    if read { lower + 0x8000 } else { lower }
}

// What goes out in the data bits of byte i.
fn sent_byte(read: bool, data: &[u8], i: usize) -> u8
    requires { read ≡ false → i < length «data».now }
    ensures { result ≡ sent_byte read «data».now i }
{
    if read { 0 } else { data[i] }
}

// Puts the instruction of one byte, if it has its own.
fn put_own(card: &Card, run: RunSettings, address: u16, out: &mut [u8], at: usize) -> usize
    requires address_bound { (address < 0x8000) × (at + length (own_samples run address) ≤ length out.old) }
    ensures { Put out.old at (own_samples run address) result out.new }
{
    if run.single_instruction {
        return put_sixteen(card, run.lsb_first, instruction(run.read, address), out, at);
    }
    at
}

// Puts the samples of byte i. What goes out in it is read after its instruction is put: read before that, it would take a register more.
fn put_byte(
    card: &Card,
    run: RunSettings,
    address: u16,
    data: &[u8],
    i: usize,
    out: &mut [u8],
    at: usize,
) -> usize
    requires address_bound { (address < 0x8000) × (run.read ≡ false → i < length «data».now) }
    requires i_in_bounds { at + length (byte_samples run address (sent_byte run.read «data».now i)) ≤ length out.old }
    ensures { Put out.old at (byte_samples run address (sent_byte run.read «data».now i)) result out.new }
{
    let n = put_own(card, run, address, out, at);
    put_eight(card, run.lsb_first, sent_byte(run.read, data, i), out, n)
}

// Puts the samples of all bytes of a run, from the start address on.
fn put_run(
    card: &Card,
    run: RunSettings,
    start: u16,
    count: usize,
    data: &[u8],
    out: &mut [u8],
    at: usize,
) -> usize
    requires start_bound { start < 0x8000 }
    requires data_len { length «data».now ≡ cond run.read 0 count }
    requires data_in_bounds { at + length (run_samples run start (sent_of run.read count «data».now)) ≤ length out.old }
    ensures { Put out.old at (run_samples run start (sent_of run.read count «data».now)) result out.new }
{
    let mut address = start;
    let mut n = at;
    for i in 0..count {
        n = put_byte(card, run, address, data, i, out, n);
        address = next_address(run.ascending, address);
    }
    n
}

// Puts the first sample, and but for single instruction the instruction before all bytes, by its bits 14 to 0.
fn put_opening(card: &Card, run: RunSettings, lower: u16, out: &mut [u8]) -> usize
    requires lower_bound { (lower < 0x8000) × (length (opening_samples run lower) ≤ length out.old) }
    ensures { Put out.old 0 (opening_samples run lower) result out.new }
{
    out[0] = 0x00;
    if run.single_instruction {
        return 1;
    }
    put_sixteen(card, run.lsb_first, instruction(run.read, lower), out, 1)
}

// Puts the last two samples: SCLK low, and CSB high.
fn put_closing(out: &mut [u8], at: usize) -> usize
    requires { at + 2 ≤ length out.old }
    ensures { Put out.old at closing_samples result out.new }
{
    out[at] = 0x00;
    out[at + 1] = 0x01;
    at + 2
}

// Puts all samples of a run at the start of the buffer, with bits 14 to 0 of the instruction before it.
pub fn put_all(card: &Card, order: Order, lower: u16, data: &[u8], out: &mut [u8]) -> usize
    requires settings_bound { (order.settings ≤ 7) × (order.start < 0x8000) × (lower < 0x8000) }
    requires data_len { length «data».now ≡ cond (is_read (with_data order [])) 0 order.count }
    requires data_in_bounds { length (whole_samples (order_run Newer (with_data order [])) lower order.start (sent_bytes (with_data order «data».now))) ≤ length
        out.old }
    ensures { Put out.old 0
        (whole_samples (order_run Newer (with_data order [])) lower order.start (sent_bytes (with_data order «data».now))) result
        out.new }
{
    let run = run_of(order);
    let first = put_opening(card, run, lower, out);
    let last = put_run(
        card,
        run,
        order.start as u16,
        order.count as usize,
        data,
        out,
        first,
    );
    put_closing(out, last)
}

// Puts all samples of an order to a newer chip that is not refused, at the start of the buffer.
pub fn put_samples(card: &Card, order: Order, data: &[u8], out: &mut [u8]) -> usize
    requires out_value { send_number Newer (with_data order «data».now) (length out.old) ≡ 0 }
    ensures { Put out.old 0 (samples_of Newer (with_data order «data».now)) result out.new }
{
    put_all(card, order, order.start as u16, data, out)
}
