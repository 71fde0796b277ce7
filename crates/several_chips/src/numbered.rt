// The record of a chip of the list: the chip's number, and then its own record.
ghost use Rattle.std.specs.Prelude.{◌≡◌, false, ◌+◌, ◌≤◌, length};
ghost use Rattle.std.proofs.lemmas.List.Edits.{sets};
ghost use Rattle.read_records.specs.Records.{write_record, read_record, abort_record};
ghost use Rattle.several_chips.specs.State.{numbered};
ghost use Rattle.several_chips.specs.Numbers.{several_record_size};

use reg_write::Written;

// Byte 5 of a read's own record where the byte was contended.
const CONTENDED: u8 = 2;

// Puts the record of a write at a place.
pub(crate) fn put_write(
    records: &mut [u8],
    at: usize,
    chip: u8,
    address: u16,
    byte: u8,
    written: Written,
)
    requires { at + several_record_size ≤ length records.old }
    ensures { records.new ≡ sets records.old at (numbered chip false (write_record address byte written)) }
{
    records[at] = chip;
    read_records::put_write(records, at + 1, address, byte, written);
}

// Puts the record of a read at a place: the due byte, the byte on the line, and whether they differ, or 2 where it was contended.
pub(crate) fn put_read(
    records: &mut [u8],
    at: usize,
    chip: u8,
    contended: bool,
    address: u16,
    due: u8,
    line: u8,
)
    requires { at + several_record_size ≤ length records.old }
    ensures { records.new ≡ sets records.old at (numbered chip contended (read_record address due line)) }
{
    records[at] = chip;
    read_records::put_read(records, at + 1, address, due, line);
    if contended {
        records[at + 6] = CONTENDED;
    }
}

// Puts the record of an abort at a place.
pub(crate) fn put_abort(
    records: &mut [u8],
    at: usize,
    chip: u8,
    address: u16,
    bits: u8,
    in_data: bool,
)
    requires { at + several_record_size ≤ length records.old }
    ensures { records.new ≡ sets records.old at (numbered chip false (abort_record address bits in_data)) }
{
    records[at] = chip;
    read_records::put_abort(records, at + 1, address, bits, in_data);
}
