// Bytes that are written one after another at the start of lent ones.
ghost use Rattle.std.specs.Prelude.{◌≡◌};
ghost use Rattle.traffic.specs.Calls.{written_of};
ghost use Rattle.traffic.specs.Coded.{page, put};

use route::Refusal;

/// The answer of a call that writes bytes as C has it: the refusal, and how many were written, 0 with a
/// refusal.
#[repr(C)]
#[derive(Clone, Copy, Debug, PartialEq, Eq)]
pub struct Written {
    pub refusal: u8,
    pub length: u16,
}

impl From<Result<u16, Refusal>> for Written {
    ghost from_gives = { λ answer w. w ≡ written_of answer };

    fn from(answer: Result<u16, Refusal>) -> Written {
        match answer {
            Ok(length) => Written { refusal: 0, length },
            Err(refusal) => Written {
                refusal: u8::from(refusal),
                length: 0,
            },
        }
    }
}

/// Lent bytes that are written one after another from the start on.
#[derive(Drop)]
pub struct Page<'a> {
    out: &'a mut [u8],
    end: usize,
}

impl<'a> Page<'a> {
    /// A page over lent bytes, of which none is written yet.
    pub fn new(out: &'a mut [u8]) -> Page<'a>
        ensures { result ≡ page out.entry }
    {
        Page { out, end: 0 }
    }

    /// How many bytes are written.
    pub fn len(&self) -> usize
        ensures { result ≡ self.now.end }
    {
        self.end
    }

    /// Writes one byte more, if there is room.
    pub fn put(&mut self, byte: u8)
        ensures { self.new ≡ put self.old byte }
    {
        if self.out.len() <= self.end {
            return;
        }
        self.out[self.end] = byte;
        self.end += 1;
    }
}
