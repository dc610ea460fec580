//! The lines that aren't the day's.
ghost use Rattle.std.specs.Prelude.{◌<◌};
ghost use Rattle.outside_io.specs.Calls.{Puts};
ghost use Rattle.kept_day.specs.Lines.{busy_text, foreign_text, short_text, usage_text};

use itoa::Buffer;
use outside_io::{Sink, WriteFault, put_all, put_fields};

/// The usage line.
pub fn put_usage<S: Sink>(sink: &mut S) -> Result<(), WriteFault>
    ensures { Puts (S.state sink.old) (S.state sink.new) usage_text result }
{
    put_all(
        sink,
        b"usage: live_day run | resume | keep FILE [BYTES] | count FILE | show FILE\n",
    )
}

/// Another program keeps the file.
pub fn put_busy<S: Sink>(sink: &mut S) -> Result<(), WriteFault>
    ensures { Puts (S.state sink.old) (S.state sink.new) busy_text result }
{
    put_all(sink, b"BUSY\n")
}

/// The file is foreign, by this frame; 0 is its header.
pub fn put_foreign<S: Sink>(frame: u64, sink: &mut S) -> Result<(), WriteFault>
    ensures { Puts (S.state sink.old) (S.state sink.new) (foreign_text frame) result }
{
    let mut digits = Buffer::new();
    let fields: [&[u8]; 2] = [b"FOREIGN", digits.format(frame).as_bytes()];
    put_fields(sink, &fields)
}

/// What is kept calls for so many bytes, and no more.
pub fn put_short<S: Sink>(bytes: u64, sink: &mut S) -> Result<(), WriteFault>
    ensures { Puts (S.state sink.old) (S.state sink.new) (short_text bytes) result }
{
    let mut digits = Buffer::new();
    let fields: [&[u8]; 2] = [b"SHORT", digits.format(bytes).as_bytes()];
    put_fields(sink, &fields)
}

// The digit of a number below 16.
fn hex_digit(n: u8) -> u8
    requires { n < 16 }
{
    if n < 10 { b'0' + n } else { b'a' + (n - 10) }
}

// A digest in 64 digits.
fn hex_of(digest: &[u8; 32]) -> [u8; 64] {
    let mut digits = [0; 64];
    for i in 0..32 {
        digits[2 * i] = hex_digit(digest[i] / 16);
        digits[2 * i + 1] = hex_digit(digest[i] % 16);
    }
    digits
}

/// So many bytes are kept, with this digest.
pub fn put_kept<S: Sink>(bytes: usize, digest: &[u8; 32], sink: &mut S) -> Result<(), WriteFault> {
    let mut digits = Buffer::new();
    let fields: [&[u8]; 3] = [b"KEPT", digits.format(bytes).as_bytes(), &hex_of(digest)];
    put_fields(sink, &fields)
}
