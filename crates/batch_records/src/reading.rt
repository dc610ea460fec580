//! Reading a day.

ghost use Rattle.std.specs.Prelude.{◌≡◌, ◌≤◌, IfOk, length, true};
ghost use Rattle.batch_records.specs.Counts.{record_count};
ghost use Rattle.batch_records.specs.Days.{day_of_bytes};
ghost use Rattle.batch_records.specs.DayAnswers.{Answers, day_of};
ghost use Rattle.batch_records.specs.Meets.{MeetsRules};
ghost use Rattle.batch_records.specs.Records.{day_records, records_of};
ghost use Rattle.batch_records.specs.Sound.{is_sound};
ghost use Rattle.batch_records.specs.Step.{IsDayOf};

use crate::day::{Day, DayFault};
use crate::front::front_len;
use crate::part::day_len;
use crate::so_far::SoFar;
use csv::{ByteRecord, ReaderBuilder};
use record_rows::Row;
use refused_memory::read_record;
use std::alloc::Global;

// The day of some bytes of a day part. Of each record as much is judged as a `Row` has room for, which is enough
// (`cut_is_judged_alike`).
fn read_front(alloc: Global, part: &[u8]) -> Result<Day, DayFault>
    ensures answer { Answers result (day_of (records_of part.now)) }
    ensures day { IfOk result (λ day. IsDayOf (records_of part.now) day) }
{
    let mut reader = ReaderBuilder::new()
        .delimiter(b';')
        .has_headers(false)
        .flexible(true)
        .from_reader(alloc, part);
    let mut record = ByteRecord::new(alloc);
    let mut row = Row::new();
    let mut so_far = match SoFar::with_room(alloc) {
        Ok(so_far) => so_far,
        Err(memory) => return Err(DayFault::Memory(memory)),
    };
    for number in 1..u32::MAX {
        match read_record(&mut reader, &mut record) {
            Ok(true) => {
                row.fill(&record);
                match so_far.take(&row, number) {
                    Ok(()) => {}
                    Err(e) => return Err(e),
                }
            }
            Ok(false) => return so_far.finish(number),
            Err(memory) => return Err(DayFault::Memory(memory)),
        }
    }
    // The limits of a day are far below the numbers of 32 bits.
    unreachable!()
}

// The day of a day part.
fn read_part(alloc: Global, part: &[u8]) -> Result<Day, DayFault>
    ensures answer { Answers result (day_of (records_of part.now)) }
    ensures day { IfOk result (λ day. IsDayOf (records_of part.now) day) }
{
    let len = front_len(part);
    read_front(alloc, &part[..len])
}

/// Reads the day at the front of an input, and how many bytes belong to it: up to and with the first line that is
/// exactly END, or all of them. A `Record` fault has the number of the first bad record, from 1, and the first of its
/// codes; where END is missing it has the number after the last record. `Memory` says that memory ran out. A day that is
/// read is sound, and meets the rules of a day file, so `put_day` can write it.
pub fn read_day(alloc: Global, input: &[u8]) -> Result<(Day, usize), DayFault>
    ensures answer { Answers result (day_of_bytes input.now) }
    ensures within { IfOk result (λ read. read.1 ≤ length input.now) }
    ensures sound { IfOk result (λ read. is_sound read.0 ≡ true) }
    ensures count { IfOk result (λ read. length (day_records input.now) ≡ record_count read.0) }
    ensures meets { IfOk result (λ read. MeetsRules read.0) }
{
    let len = day_len(input);
    let day = read_part(alloc, &input[..len])?;
    Ok((day, len))
}
