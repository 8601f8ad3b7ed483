// Writing little-endian numbers of 16 and 32 bits, one at a place and a whole column of them.
ghost use Rattle.std.specs.Prelude.{◌≡◌, ◌+◌, ◌*◌, ◌≤◌, length};
ghost use Rattle.std.proofs.lemmas.List.Edits.{sets};
ghost use Rattle.model.specs.Bytes.{bytes16, bytes32};
ghost use Rattle.model.specs.Entries.{encode_each};

// Writes the two bytes of a number at a place. What it has above 16 bits is left out.
pub fn put16(out: &mut [u8], place: usize, number: u64)
    requires { place + 2 ≤ length out.old }
    ensures { out.new ≡ sets out.old place (bytes16 number) }
{
    out[place] = (number % 256) as u8;
    out[place + 1] = (number / 256 % 256) as u8;
}

// Writes the four bytes of a number at a place. What it has above 32 bits is left out.
pub fn put32(out: &mut [u8], place: usize, number: u64)
    requires { place + 4 ≤ length out.old }
    ensures { out.new ≡ sets out.old place (bytes32 number) }
{
    put16(out, place, number);
    put16(out, place + 2, number / 65536);
}

// Writes the four bytes of each number, one number after another, from a place on.
pub fn put_column(out: &mut [u8], place: usize, numbers: &[u64])
    requires { place + 4 * length numbers.now ≤ length out.old }
    ensures { out.new ≡ sets out.old place (encode_each bytes32 numbers.now) }
{
    for (i, number) in numbers.iter().enumerate() {
        put32(out, place + 4 * i, *number);
    }
}
