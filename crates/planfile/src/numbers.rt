ghost use Rattle.std.specs.Prelude.{◌≡◌, ◌+◌, ◌≤◌, length};
ghost use Rattle.scan.specs.AxisChecks.{edge_or_zero};
ghost use Rattle.planfile.specs.Numbers.{count_at, numbers_in};

use scan::edges::Edges;

// The unsigned number whose first byte is at a place.
pub(crate) fn unsigned_at(bytes: &[u8], place: usize) -> u32
    requires { place + 4 ≤ length bytes.now }
    ensures { result ≡ count_at bytes.now place }
{
    u32::from_le_bytes([
        bytes[place],
        bytes[place + 1],
        bytes[place + 2],
        bytes[place + 3],
    ])
}

/// Lent bytes as signed numbers: four bytes to a number, the low one first, in two's complement. A number that is not whole
/// is left out.
#[derive(Clone, Copy)]
pub struct Numbers<'a> {
    pub bytes: &'a [u8],
}

impl Numbers<'_> {
    /// How many there are. Defined by `numbers_in` of specs/Numbers.
    pub fn len(&self) -> usize
        ensures { result ≡ length (numbers_in self.now.bytes.now) }
    {
        self.bytes.len() / 4
    }

    /// Number i, counted from 0; past the last, 0. Defined by `numbers_in` of specs/Numbers.
    pub fn number(&self, i: usize) -> i32
        ensures { result ≡ edge_or_zero (numbers_in self.now.bytes.now) i }
    {
        if i < self.len() {
            unsigned_at(self.bytes, 4 * i).cast_signed()
        } else {
            0
        }
    }
}

impl Edges for Numbers<'_> {
    ghost edges = { λ numbers. numbers_in numbers.bytes.now };

    fn count(&self) -> usize {
        self.len()
    }

    fn get(&self, i: usize) -> i64 {
        i64::from(self.number(i))
    }
}
