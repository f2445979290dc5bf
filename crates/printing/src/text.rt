// Text, put on a page.
ghost use Rattle.std.specs.Prelude.{◌+◌, ◌∷◌, [], length};
ghost use Rattle.printing.specs.Texts.{decimal, named};
ghost use Rattle.printing.specs.Pages.{HasRoom, Puts, PutsWithin};

// A page: bytes that are lent, and the place after what is put.
#[derive(Drop)]
pub struct Page<'a> {
    pub out: &'a mut [u8],
    pub at: usize,
}

impl<'a> Page<'a> {
    pub fn put_text(&mut self, text: &[u8])
        requires { HasRoom (length text.now) self.old }
        ensures { Puts self.old text.now self.new }
    {
        let end = self.at + text.len();
        self.out[self.at..end].copy_from_slice(text);
        self.at = end;
    }

    pub fn put_byte(&mut self, byte: u8)
        requires { HasRoom 1 self.old }
        ensures { Puts self.old (byte ∷ []) self.new }
    {
        self.out[self.at] = byte;
        self.at += 1;
    }

    // A number in decimal has at most 20 digits. Its tenth is put first, then its last digit.
    // Kept: a recursion of the crate's own. `write!` promises its text only where it answers Ok, and `Printed` promises the text of every file.
    pub fn put_decimal(&mut self, x: u64)
        requires { HasRoom 20 self.old }
        ensures { Puts self.old (decimal x) self.new }
    {
        if x < 10 {
            return self.put_byte(b'0' + x as u8);
        }
        self.put_decimal(x / 10);
        self.put_byte(b'0' + (x % 10) as u8);
    }

    pub fn put_named(&mut self, word: &[u8], x: u64)
        requires { HasRoom (length word.now + 20) self.old }
        ensures { PutsWithin (length word.now + 20) self.old (named word.now x) self.new }
    {
        self.put_text(word);
        self.put_decimal(x);
    }
}
