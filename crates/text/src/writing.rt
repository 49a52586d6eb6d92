// Texts put into room that is lent for them, part by part.
use crate::put_bytes;

// The room, and where the next bytes go.
#[derive(Drop)]
pub struct Writer<'a> {
    pub room: &'a mut [u8],
    pub end: usize,
}

impl<'a> Writer<'a> {
    ghost use Rattle.std.specs.Prelude.{◌≡◌};
    ghost use Rattle.text.specs.Decimal.{decimal};
    ghost use Rattle.text.specs.Writing.{Begins, Fits, Put};

    // At the front of some room.
    pub fn new(room: &'a mut [u8]) -> Writer<'a>
        ensures { Begins room.entry result }
    {
        Writer { room, end: 0 }
    }

    // Bytes as they are.
    pub fn put(&mut self, bytes: &[u8])
        requires { Fits self.old bytes.now }
        ensures { Put self.old self.new bytes.now }
    {
        self.end = put_bytes(self.room, self.end, bytes);
    }

    // A number in decimal.
    pub fn put_decimal(&mut self, number: u32)
        requires { Fits self.old (decimal number) }
        ensures { Put self.old self.new (decimal number) }
    {
        if number < 10 {
            self.put(&[b'0' + number as u8]);
        } else {
            self.put_decimal(number / 10);
            self.put(&[b'0' + (number % 10) as u8]);
        }
    }
}
