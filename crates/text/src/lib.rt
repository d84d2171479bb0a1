// Texts put into a lent room: a word, a number in decimal.
#![tactic(auto)]

ghost use Rattle.std.specs.Prelude.{◌≡◌, ◌+◌, ◌≤◌, ◌<◌, [], ◌∷◌, length};
ghost use Rattle.text.specs.Text.{decimal};
ghost use Rattle.text.specs.Put.{Put, PutIn};

// Copies bytes over as many others. A loop, since the library's copy_from_slice calls memmove, which who links the C functions would then have to bring besides memcpy and memset.
fn copy_over(from: &[u8], to: &mut [u8])
    requires { length to.old ≡ length from.now }
    ensures { to.new ≡ from.now }
{
    for i in 0..from.len() {
        to[i] = from[i];
    }
}

// Puts one byte into a room, and returns the place behind it.
fn put_byte(b: u8, room: &mut [u8], at: usize) -> usize
    requires { at < length room.old }
    ensures { Put room.old at (b ∷ []) result room.new }
{
    room[at] = b;
    at + 1
}

// Puts the digits of a number: those of its tens first, then its last. Numbers here are short, for which a text of the library's, copied from its own room, takes longer.
fn put_digits(n: u64, room: &mut [u8], at: usize) -> usize
    requires { at + length (decimal n) ≤ length room.old }
    ensures { Put room.old at (decimal n) result room.new }
{
    if n < 10 {
        return put_byte(48 + n as u8, room, at);
    }
    let end = put_digits(n / 10, room, at);
    put_byte(48 + (n % 10) as u8, room, end)
}

// A text in a lent room, of which it takes so many bytes from the first on.
#[derive(Drop)]
pub struct Text<'a> {
    pub room: &'a mut [u8],
    pub used: usize,
}

impl<'a> Text<'a> {
    // Puts the bytes of a word behind the text.
    pub fn put_word(&mut self, word: &[u8])
        requires { self.old.used + length word.now ≤ length self.old.room.now }
        ensures put { PutIn self.old word.now self.new }
        ensures same_room { self.new.room.ghost_name ≡ self.old.room.ghost_name }
    {
        let end = self.used + word.len();
        copy_over(word, &mut self.room[self.used..end]);
        self.used = end;
    }

    // Puts a number in decimal behind the text.
    pub fn put_decimal(&mut self, n: u64)
        requires { self.old.used + length (decimal n) ≤ length self.old.room.now }
        ensures put { PutIn self.old (decimal n) self.new }
        ensures same_room { self.new.room.ghost_name ≡ self.old.room.ghost_name }
    {
        self.used = put_digits(n, &mut *self.room, self.used);
    }
}
