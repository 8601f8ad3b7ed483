// Little-endian numbers of 16 and 32 bits, one at a place and a whole column of them.
ghost use Rattle.std.specs.Prelude.{◌≡◌, ℕ, ◌+◌, ◌*◌, ◌<◌, ◌≤◌, length, get_or, replicate};
ghost use Rattle.model.specs.Bytes.{number16 as at16, number32 as at32};
ghost use Rattle.reading.specs.Column.{column_of};
ghost use Rattle.reading.specs.Tables.{SmallNumbers};

fn wide(byte: u8) -> u64
    ensures { (result ≡ byte) × (result < 256) }
{
    byte as u64
}

pub fn number16(bytes: &[u8], place: usize) -> u64
    requires { place + 2 ≤ length bytes.now }
    ensures { (result ≡ at16 bytes.now place) × (result < 65536) }
{
    wide(bytes[place]) + 256 * wide(bytes[place + 1])
}

pub fn number32(bytes: &[u8], place: usize) -> u64
    requires { place + 4 ≤ length bytes.now }
    ensures { result ≡ at32 bytes.now place }
{
    number16(bytes, place) + 65536 * number16(bytes, place + 2)
}

// The 16-bit numbers from a place on, each `stride` bytes after the one before, as many as count; zeros after them.
pub fn column16<const N: usize>(bytes: &[u8], place: usize, stride: usize, count: usize) -> [u64; N]
    requires { (count ≤ N) × ((i : ℕ) → i < count → place + stride * i + 2 ≤ length bytes.now) }
    ensures value { result ≡ column_of N count (λ i. at16 bytes.now (place + stride * i)) }
    ensures small { SmallNumbers N result }
{
    let mut numbers = [0u64; N];
    fill_column(count, |i| number16(bytes, place + stride * i), &mut numbers);
    numbers
}

// Fills an array of zeros with the 32-bit numbers from a place on, each `stride` bytes after the one before, as many as count.
pub fn column32<const N: usize>(
    bytes: &[u8],
    place: usize,
    stride: usize,
    count: usize,
    numbers: &mut [u64; N],
)
    requires count_le_n { (count ≤ N) × ((i : ℕ) → i < count → place + stride * i + 4 ≤ length bytes.now) }
    requires numbers_value { numbers.old ≡ replicate N 0 }
    ensures { numbers.new ≡ column_of N count (λ i. at32 bytes.now (place + stride * i)) }
{
    fill_column(count, |i| number32(bytes, place + stride * i), numbers);
}

// Puts the numbers that are read for 0, 1, .. into the first `count` places of an array of zeros.
// The two columns stay two functions, so that each can promise an equation with numbers of its own size.
fn fill_column<const N: usize, F: Fn(usize) -> u64>(count: usize, number: F, numbers: &mut [u64; N])
    requires numbers_read { (count ≤ N) × ((i : ℕ) → i < count → F.pre number i) }
    requires numbers_value { numbers.old ≡ replicate N 0 }
    ensures numbers_len { length numbers.new ≡ N }
    ensures filled { (i : ℕ) → i < count → F.post number i (get_or numbers.new i 0) }
    ensures zeros_after { (i : ℕ) → count ≤ i → get_or numbers.new i 0 ≡ 0 }
{
    for i in 0..count {
        numbers[i] = number(i);
    }
}
