use period_calendar::{BusinessDate, DateFault, easter, is_closing_day, put_time, read_time};

// Each year, the month and day of its Easter Sunday, the number of its open days, and a fingerprint of the places of its
// closing days in the year. The table was made outside this program, from a calendar library's weekdays and day arithmetic
// and from Easter dates on which three other algorithms agree (Gauss's rule, the epacts of the calendar reform, Oudin's).
const YEARS: [(u16, u8, u8, u32, u32); 77] = [
    (2023, 4, 9, 255, 2_889_184_458),
    (2024, 3, 31, 256, 4_263_530_155),
    (2025, 4, 20, 255, 1_696_466_090),
    (2026, 4, 5, 256, 1_600_115_968),
    (2027, 3, 28, 258, 2_181_721_718),
    (2028, 4, 16, 255, 3_103_937_803),
    (2029, 4, 1, 255, 924_053_386),
    (2030, 4, 21, 255, 3_976_507_082),
    (2031, 4, 13, 255, 3_271_072_138),
    (2032, 3, 28, 259, 3_935_593_750),
    (2033, 4, 17, 257, 2_031_859_578),
    (2034, 4, 9, 255, 2_889_184_458),
    (2035, 3, 25, 255, 2_904_775_786),
    (2036, 4, 13, 256, 300_655_307),
    (2037, 4, 5, 256, 1_600_115_968),
    (2038, 4, 25, 258, 2_337_710_582),
    (2039, 4, 10, 257, 2_636_842_650),
    (2040, 4, 1, 256, 2_248_603_851),
    (2041, 4, 21, 255, 3_976_507_082),
    (2042, 4, 6, 255, 344_028_778),
    (2043, 3, 29, 256, 1_056_085_024),
    (2044, 4, 17, 257, 3_356_410_043),
    (2045, 4, 9, 255, 2_889_184_458),
    (2046, 3, 25, 255, 2_904_775_786),
    (2047, 4, 14, 255, 1_256_145_834),
    (2048, 4, 5, 257, 3_443_958_720),
    (2049, 4, 18, 258, 1_219_133_718),
    (2050, 4, 10, 257, 2_636_842_650),
    (2051, 4, 2, 255, 3_204_094_378),
    (2052, 4, 21, 256, 1_006_090_251),
    (2053, 4, 6, 255, 344_028_778),
    (2054, 3, 29, 256, 1_056_085_024),
    (2055, 4, 18, 258, 1_219_133_718),
    (2056, 4, 2, 255, 491_804_363),
    (2057, 4, 22, 255, 1_961_580_778),
    (2058, 4, 14, 255, 1_256_145_834),
    (2059, 3, 30, 255, 658_938_698),
    (2060, 4, 18, 259, 2_973_005_750),
    (2061, 4, 10, 257, 2_636_842_650),
    (2062, 3, 26, 255, 889_849_482),
    (2063, 4, 15, 255, 3_536_186_826),
    (2064, 4, 6, 256, 1_668_579_243),
    (2065, 3, 29, 256, 1_056_085_024),
    (2066, 4, 11, 258, 8_591_414),
    (2067, 4, 3, 257, 4_204_989_882),
    (2068, 4, 22, 256, 3_286_131_243),
    (2069, 4, 14, 255, 1_256_145_834),
    (2070, 3, 30, 255, 658_938_698),
    (2071, 4, 19, 256, 3_721_952_960),
    (2072, 4, 10, 257, 3_961_393_115),
    (2073, 3, 26, 255, 889_849_482),
    (2074, 4, 15, 255, 3_536_186_826),
    (2075, 4, 7, 255, 2_624_069_770),
    (2076, 4, 19, 257, 1_270_828_416),
    (2077, 4, 11, 258, 8_591_414),
    (2078, 4, 3, 257, 4_204_989_882),
    (2079, 4, 23, 255, 4_241_621_770),
    (2080, 4, 7, 256, 3_948_620_235),
    (2081, 3, 30, 255, 658_938_698),
    (2082, 4, 19, 256, 3_721_952_960),
    (2083, 4, 4, 258, 613_574_486),
    (2084, 3, 26, 255, 2_472_526_763),
    (2085, 4, 15, 255, 3_536_186_826),
    (2086, 3, 31, 255, 2_938_979_690),
    (2087, 4, 20, 255, 1_696_466_090),
    (2088, 4, 11, 259, 1_762_463_446),
    (2089, 4, 3, 257, 4_204_989_882),
    (2090, 4, 16, 255, 1_521_260_522),
    (2091, 4, 8, 255, 609_143_466),
    (2092, 3, 30, 256, 1_983_489_163),
    (2093, 4, 12, 256, 31_968_736),
    (2094, 4, 4, 258, 613_574_486),
    (2095, 4, 24, 257, 3_242_401_882),
    (2096, 4, 15, 256, 565_769_995),
    (2097, 3, 31, 255, 2_938_979_690),
    (2098, 4, 20, 255, 1_696_466_090),
    (2099, 4, 12, 256, 31_968_736),
];

// The text of a day, whether there is one or not.
fn day_text(year: u16, month: u8, day: u8) -> [u8; 10] {
    let digit = |number: u16| b'0' + (number % 10) as u8;
    let (month, day) = (u16::from(month), u16::from(day));
    [
        digit(year / 1000),
        digit(year / 100),
        digit(year / 10),
        digit(year),
        b'-',
        digit(month / 10),
        digit(month),
        b'-',
        digit(day / 10),
        digit(day),
    ]
}

// The days of a year so far: how many there were, how many of them are open, a fingerprint of the others, and whether each
// open one is written as it was read.
#[derive(Drop)]
struct Seen {
    place: u32,
    open: u32,
    closing: u32,
    same: bool,
}

fn see(seen: &mut Seen, text: &[u8]) {
    match BusinessDate::read(text) {
        Ok(date) => {
            seen.same = seen.same && date.put().as_bytes() == text;
            seen.place = seen.place.wrapping_add(1);
            seen.open = seen.open.wrapping_add(1);
        }
        Err(DateFault::Closed) => {
            seen.place = seen.place.wrapping_add(1);
            seen.closing = seen.closing.wrapping_mul(31).wrapping_add(seen.place);
        }
        Err(_) => {}
    }
}

fn seen_in(year: u16) -> Seen {
    let mut seen = Seen {
        place: 0,
        open: 0,
        closing: 0,
        same: true,
    };
    for month in 1..13 {
        for day in 1..32 {
            see(&mut seen, &day_text(year, month, day));
        }
    }
    seen
}

fn is_right(year: u16, month: u8, day: u8, open: u32, closing: u32) -> bool {
    if year < 2023 || 2100 <= year {
        return false;
    }
    let seen = seen_in(year);
    easter(year) == (month, day) && seen.same && seen.open == open && seen.closing == closing
}

// The first year that is wrong, if there is one.
fn wrong_year() -> Option<u16> {
    for (year, month, day, open, closing) in YEARS {
        if !is_right(year, month, day, open, closing) {
            return Some(year);
        }
    }
    None
}

#[test]
fn closing_days_of_every_year(rt: HostRuntime) {
    assert_eq!(rt; wrong_year(), None);
}

// Texts, and why they are no business days.
const DATES: [(&str, Option<DateFault>); 30] = [
    ("2025-06-02", None),
    ("2024-02-29", None),
    ("2023-01-02", None),
    ("2099-12-31", None),
    ("2025-04-18", Some(DateFault::Closed)),
    ("2025-04-19", Some(DateFault::Closed)),
    ("2025-04-21", Some(DateFault::Closed)),
    ("2025-05-01", Some(DateFault::Closed)),
    ("2025-12-25", Some(DateFault::Closed)),
    ("2025-12-26", Some(DateFault::Closed)),
    ("2024-01-01", Some(DateFault::Closed)),
    ("2023-01-01", Some(DateFault::Closed)),
    ("2022-12-30", Some(DateFault::Years)),
    ("2100-01-04", Some(DateFault::Years)),
    ("0000-02-29", Some(DateFault::Years)),
    ("2025-02-30", Some(DateFault::NoSuchDay)),
    ("2023-02-29", Some(DateFault::NoSuchDay)),
    ("2100-02-29", Some(DateFault::NoSuchDay)),
    ("1900-02-29", Some(DateFault::NoSuchDay)),
    ("2025-00-10", Some(DateFault::NoSuchDay)),
    ("2025-13-10", Some(DateFault::NoSuchDay)),
    ("2025-06-00", Some(DateFault::NoSuchDay)),
    ("2025-06-31", Some(DateFault::NoSuchDay)),
    ("2025-6-02", Some(DateFault::Form)),
    ("2025-06-2", Some(DateFault::Form)),
    ("2025-06-02 ", Some(DateFault::Form)),
    ("2025/06/02", Some(DateFault::Form)),
    ("2O25-06-02", Some(DateFault::Form)),
    ("20250-6-02", Some(DateFault::Form)),
    ("", Some(DateFault::Form)),
];

fn fault_of(text: &[u8]) -> Option<DateFault> {
    match BusinessDate::read(text) {
        Ok(_) => None,
        Err(fault) => Some(fault),
    }
}

// Whether a text is written as it was read, where it is a date's.
fn is_written_again(text: &[u8]) -> bool {
    match BusinessDate::read(text) {
        Ok(date) => date.put().as_bytes() == text,
        Err(_) => true,
    }
}

// The first text that is read as something else, if there is one.
fn wrong_date() -> Option<usize> {
    for (i, (text, fault)) in DATES.iter().enumerate() {
        if fault_of(text.as_bytes()) != *fault || !is_written_again(text.as_bytes()) {
            return Some(i);
        }
    }
    None
}

fn are_two_days(first: &[u8], second: &[u8]) -> bool {
    match (BusinessDate::read(first), BusinessDate::read(second)) {
        (Ok(first), Ok(second)) => first != second,
        _ => false,
    }
}

#[test]
fn texts_of_dates(rt: HostRuntime) {
    assert_eq!(rt; wrong_date(), None);
    assert!(rt; are_two_days(b"2025-09-30", b"2025-10-01"));
}

// Business days, their years, and the next ones.
const NEXT_DAYS: [(&str, u16, Option<&str>); 7] = [
    ("2025-06-02", 2025, Some("2025-06-03")),
    ("2024-02-28", 2024, Some("2024-02-29")),
    ("2025-04-17", 2025, Some("2025-04-22")),
    ("2025-12-24", 2025, Some("2025-12-29")),
    ("2025-12-31", 2025, Some("2026-01-02")),
    ("2099-12-30", 2099, Some("2099-12-31")),
    ("2099-12-31", 2099, None),
];

fn is_next(date: BusinessDate, next: Option<&str>) -> bool {
    match (date.next(), next) {
        (Some(found), Some(next)) => found.put().as_bytes() == next.as_bytes(),
        (None, None) => true,
        _ => false,
    }
}

fn is_followed(text: &str, year: u16, next: Option<&str>) -> bool {
    match BusinessDate::read(text.as_bytes()) {
        Ok(date) => date.year() == year && is_next(date, next),
        Err(_) => false,
    }
}

#[test]
fn next_days(rt: HostRuntime) {
    for (text, year, next) in NEXT_DAYS {
        assert!(rt; is_followed(text, year, next));
    }
}

// Texts, and the seconds since midnight that are their times.
const TIMES: [(&str, Option<u32>); 16] = [
    ("00:00:00", Some(0)),
    ("00:00:01", Some(1)),
    ("00:01:00", Some(60)),
    ("07:30:00", Some(27_000)),
    ("23:59:59", Some(86_399)),
    ("24:00:00", Some(86_400)),
    ("24:00:01", None),
    ("25:00:00", None),
    ("23:60:00", None),
    ("22:59:60", None),
    ("1:00:00", None),
    ("01:00:0", None),
    ("01:00:000", None),
    ("01.00.00", None),
    ("0a:00:00", None),
    ("", None),
];

fn is_time(text: &[u8], seconds: Option<u32>) -> bool {
    let found = read_time(text);
    if found != seconds {
        return false;
    }
    match found {
        Some(seconds) => put_time(seconds).as_bytes() == text,
        None => true,
    }
}

#[test]
fn texts_of_times(rt: HostRuntime) {
    for (text, seconds) in TIMES {
        assert!(rt; is_time(text.as_bytes(), seconds));
    }
}

#[tactic(auto, unfolding(period_calendar::specs::Calendar::is_civil))]
#[test]
fn single_days(rt: HostRuntime) {
    assert!(rt; is_closing_day(2025, 4, 18));
    assert!(rt; is_closing_day(2024, 4, 1));
    assert!(rt; !is_closing_day(2025, 4, 17));
    assert!(rt; !is_closing_day(2025, 4, 22));
}
