//! Requests for the memory of the records of a text.
ghost use Rattle.std.specs.Prelude.{◌≡◌, IfErr, IfOk, OnOk, Some, true};
ghost use Rattle.csv.specs.Reading.{ReadRecord, ReadsOn, Ready, is_flexible, reader_trim, took_first};
ghost use Rattle.csv.specs.Records.{fields_of};
ghost use Rattle.csv.specs.declared.reader.Trim.TheVariants as trim;

use crate::Memory;
use crate::memory::refused;
use csv::{ByteRecord, Reader};

/// The next record of a text, and whether there was one. The text lies in memory, where a read doesn't fail, and records of any length are taken: so
/// memory is all that can be wanting.
pub fn read_record(reader: &mut Reader<&[u8]>, row: &mut ByteRecord) -> Result<bool, Memory>
    requires flexible { is_flexible reader.old ≡ true }
    requires plain { reader_trim reader.old ≡ trim.None }
    requires ready { Ready reader.old }
    ensures reads { IfOk result (λ found. ReadRecord (λ s. Some s.now) reader.old reader.new found (fields_of row.new)) }
    ensures ready { OnOk result (took_first reader.new ≡ true) }
    ensures flexible { OnOk result (is_flexible reader.new ≡ true) }
    ensures reads_on { IfOk result (λ found. found ≡ true → ReadsOn reader.old reader.new) }
{
    match reader.read_byte_record(row) {
        Ok(found) => Ok(found),
        Err(_) => Err(refused()),
    }
}
