// Bytes in hexadecimal.
ghost use Rattle.std.specs.Prelude.{◌≡◌, ◌*◌, ◌<◌, ◌≤◌, Some, length, take};
ghost use Rattle.std.specs.Str.{IsAscii};
ghost use Rattle.report.specs.Texts.{hex_digit, hex};

use std::{fmt, str};

// So many bytes go into one write: a write costs about what the digits of ten bytes do.
const PART: usize = 32;

// Two digits for each byte.
#[derive(Clone, Copy)]
pub struct Hex<'a>(pub &'a [u8]);

impl fmt::Display for Hex<'_> {
    ghost output = { λ bytes. Some (hex bytes.0.now) };

    fn fmt<W: fmt::Write>(&self, f: &mut fmt::Formatter<W>) -> fmt::Result {
        let mut room = [0; 2 * PART];
        for part in self.0.chunks(PART) {
            put(part, &mut room);
            let Ok(text) = str::from_utf8(&room[..2 * part.len()]) else {
                unreachable!();
            };
            f.write_str(text)?;
        }
        Ok(())
    }
}

// Puts two digits for each byte at the front of the room.
fn put(bytes: &[u8], room: &mut [u8])
    requires { 2 * length bytes.now ≤ length room.old }
    ensures is { take (2 * length bytes.now) room.new ≡ hex bytes.now }
    ensures ascii { IsAscii (hex bytes.now) }
{
    for (i, b) in bytes.iter().enumerate() {
        room[2 * i] = digit(*b / 16);
        room[2 * i + 1] = digit(*b % 16);
    }
}

// The digit of a number below 16. By `{:02x}` for each byte a long line takes twelve times the instructions.
fn digit(n: u8) -> u8
    requires { n < 16 }
    ensures is { result ≡ hex_digit n }
    ensures ascii { result < 128 }
{
    if n < 10 { b'0' + n } else { b'a' + (n - 10) }
}
