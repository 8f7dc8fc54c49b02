// One place of the packed store: nine bytes.
ghost use Rattle.std.specs.Prelude.{◌≡◌, ◌+◌, ◌≤◌, length};
ghost use Rattle.packed.specs.Layout.{word_at, reading_at, nine_bytes, written};

use readings::reading::Reading;

// The number in four bytes.
fn word_at(bytes: &[u8], at: usize) -> u32
    requires { at + 4 ≤ length bytes.now }
    ensures { result ≡ word_at bytes.now at }
{
    u32::from_be_bytes([bytes[at], bytes[at + 1], bytes[at + 2], bytes[at + 3]])
}

// The reading in nine bytes, if they are one.
pub(crate) fn read_place(bytes: &[u8], at: usize) -> Option<Reading>
    requires { at + 9 ≤ length bytes.now }
    ensures { result ≡ reading_at bytes.now at }
{
    let stamp = word_at(bytes, at);
    let volume = word_at(bytes, at + 4);
    Reading::from_numbers(u64::from(stamp), u64::from(volume), bytes[at + 8])
}

// The bytes of a reading.
fn nine_bytes(reading: Reading) -> [u8; 9]
    ensures { result ≡ nine_bytes reading }
{
    let s = (reading.stamp() as u32).to_be_bytes();
    let v = reading.volume().to_be_bytes();
    [
        s[0],
        s[1],
        s[2],
        s[3],
        v[0],
        v[1],
        v[2],
        v[3],
        reading.quality().number(),
    ]
}

// Writes the bytes of a reading, and no others.
pub(crate) fn write_place(bytes: &mut [u8], at: usize, reading: Reading)
    requires { at + 9 ≤ length bytes.old }
    ensures { bytes.new ≡ written bytes.old at reading }
{
    bytes[at..at + 9].copy_from_slice(&nine_bytes(reading));
}
