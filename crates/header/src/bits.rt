// Bits put one after another into bytes, the highest of a byte first.
ghost use Rattle.std.specs.Prelude.{◌≡◌, ◌+◌, ◌^◌, ◌<◌, ◌≤◌};

// How many bytes are in the destination, those past its end counted too; how many bits, fewer than eight, are not yet, and the number that they say.
#[derive(Clone, Copy)]
pub struct Cursor {
    // It wraps where no header reaches, so that no caller has to bound it. Tried: a count that stops at the destination's end; it proves, but takes 113 ns for 110 with six points of luma.
    pub at: usize,
    pub count: usize,
    pub pending: u32,
    ghost short: { count < 8 },
    ghost low: { pending < 2 ^ count },
}

// A destination, and how far it has the bits that are put into it.
#[derive(Drop)]
pub struct BitWriter<'a> {
    pub bytes: &'a mut [u8],
    pub cursor: Cursor,
}

// 2^n
fn power(n: usize) -> u32
    requires { n ≤ 8 }
    ensures { (result ≡ 2 ^ n) × (0 < result) × (result ≤ 256) }
{
    1 << n
}

impl<'a> BitWriter<'a> {
    ghost use Rattle.std.specs.Prelude.{List, ℕ, [], cond, length};
    ghost use Rattle.header.specs.Bits.{digits};
    ghost use Rattle.header.specs.Held.{Held, Holds, Puts};

    // Nothing is put.
    pub fn new(bytes: &'a mut [u8]) -> BitWriter<'a>
        ensures same { result.bytes.ghost_name ≡ bytes.entry.ghost_name }
        ensures held { Holds bytes.old [] result }
    {
        BitWriter {
            bytes,
            cursor: Cursor {
                at: 0,
                count: 0,
                pending: 0,
            },
        }
    }

    // The first eight of `rest + 8` bits, which say `pending`, into the next byte, if there is one; `rest` bits are left.
    fn put_first(&mut self, rest: usize, pending: u32)
        requires { (rest < 8) × (pending < 2 ^ (8 + rest)) }
        ensures same { self.new.bytes.ghost_name ≡ self.old.bytes.ghost_name }
        ensures held { (from bs : List ℕ) → length bs < 2 ^ 64 → Held from bs self.old.cursor.at (rest + 8) pending self.old.bytes.now → Holds from bs self.new }
    {
        let at = self.cursor.at;
        if at < self.bytes.len() {
            self.bytes[at] = (pending >> rest) as u8;
        }
        self.cursor = Cursor {
            at: at.wrapping_add(1),
            count: rest,
            pending: pending % power(rest),
        };
    }

    // f(bits), of at most eight bits.
    pub fn put(&mut self, bits: usize, value: u32)
        requires { bits ≤ 8 }
        ensures { Puts (digits bits value) self.old self.new }
    {
        let p = power(bits);
        let Cursor { at, count, pending } = self.cursor;
        let count = count + bits;
        let pending = pending * p + value % p;
        if count < 8 {
            self.cursor = Cursor { at, count, pending };
        } else {
            self.put_first(count - 8, pending);
        }
    }

    // f(bits), of at most sixteen bits, if it is present: that is the table's condition of the row, a fact about the header and no step.
    pub fn put_field(&mut self, present: bool, bits: usize, value: u32)
        requires { bits ≤ 16 }
        ensures { Puts (digits (cond present bits 0) value) self.old self.new }
    {
        if !present {
            return;
        }
        if bits <= 8 {
            self.put(bits, value);
        } else {
            self.put(bits - 8, value / 256);
            self.put(8, value);
        }
    }
}
