ghost use Rattle.std.specs.Prelude.{◌≡◌, ◌≤◌, [], length, decimal};
ghost use Rattle.firmware.specs.Text.{bytes_of, content, written, line};

use fixed::FixedList;

pub const TEXT_SIZE: usize = 128;

// A text in a place of fixed size. Zeros follow it there.
#[derive(Clone, Copy)]
pub struct Text {
    list: FixedList<u8, TEXT_SIZE>,
}

impl Text {
    pub(crate) fn new() -> Text
        ensures { content result ≡ [] }
    {
        Text {
            list: FixedList::new(),
        }
    }

    // All bytes: the text, then zeros.
    pub fn bytes(&self) -> &[u8; TEXT_SIZE]
        ensures { result.now ≡ bytes_of (content self.now) }
    {
        self.list.places()
    }

    // The text without the zeros: what a program prints.
    pub fn filled(&self) -> &[u8]
        ensures text { result.now ≡ content self.now }
        ensures few { length (content self.now) ≤ 128 }
    {
        self.list.as_slice()
    }

    // Adds the bytes for which there is room.
    pub(crate) fn word(&mut self, word: &[u8])
        ensures { content self.new ≡ written (content self.old) word.now }
    {
        for &byte in word {
            let _ = self.list.push(byte);
        }
    }

    pub(crate) fn number(&mut self, number: u64)
        ensures { content self.new ≡ written (content self.old) (decimal number) }
    {
        self.word(itoa::Buffer::new().format(number).as_bytes());
    }

    pub(crate) fn line(&mut self, word: &[u8], number: u64)
        ensures { content self.new ≡ written (content self.old) (line word.now number) }
    {
        self.word(word);
        self.number(number);
        self.word(b"\n");
    }
}
