// A line of standard input: its name, and its numbers, the first being number 0.
#[derive(Clone, Copy)]
pub(crate) struct Line<'a> {
    pub(crate) text: &'a [u8],
}

impl<'a> Line<'a> {
    // What stands before the first space.
    pub(crate) fn name(self) -> &'a [u8] {
        let mut words = self.text.split(|b| *b == b' ');
        words.next().unwrap_or(self.text)
    }

    fn numbers(self) -> Numbers<'a> {
        Numbers { rest: self.text }
    }

    // Whether the line has such a number.
    pub(crate) fn has(self, i: usize) -> bool {
        self.numbers().nth(i).is_some()
    }

    // A number of the line, and 0 where it has none.
    pub(crate) fn number(self, i: usize) -> u64 {
        self.numbers().nth(i).map_or(0, |number| number.value())
    }

    // A number of 32 bits, and 0 for a larger one.
    pub(crate) fn small(self, i: usize) -> u32 {
        u32::try_from(self.number(i)).unwrap_or(0)
    }

    // The numbers from number 4 on, as levels, and no more of them than there is room for. The index says where they end.
    pub(crate) fn levels(self, room: &mut [i32]) -> &[i32] {
        let mut numbers = self.numbers().skip(4);
        for i in 0..room.len() {
            let Some(number) = numbers.next() else {
                return &room[..i];
            };
            room[i] = number.level();
        }
        room
    }
}

// The numbers of a line that are still to come.
#[derive(Drop)]
struct Numbers<'a> {
    rest: &'a [u8],
}

impl<'a> Iterator for Numbers<'a> {
    ghost use Rattle.std.specs.Prelude.{length};
    ghost use Rattle.std.specs.Iterator.{at_most};

    type Item = Number<'a>;

    ghost remaining = { λ s. at_most (length s.rest.now) };

    // A number starts at a digit behind one of five marks.
    fn next(&mut self) -> Option<Number<'a>> {
        while let [mark, text @ ..] = self.rest {
            self.rest = text;
            if let (b'=' | b',' | b' ' | b'[' | b'-', [b'0'..=b'9', ..]) = (*mark, text) {
                return Some(Number { mark: *mark, text });
            }
        }
        None
    }
}

// A number: the mark before it, and the line from its first digit on.
#[derive(Clone, Copy)]
struct Number<'a> {
    mark: u8,
    text: &'a [u8],
}

impl Number<'_> {
    // In decimal, or in hexadecimal behind 0x. It is taken digit by digit: `u64::from_str_radix` refuses a number of more than 64
    // bits, whose low bits count here, and takes capital letters, at which a number ends here.
    fn value(self) -> u64 {
        let (base, text) = match self.text {
            [_, b'x', text @ ..] => (16, text),
            text => (10, text),
        };
        let mut value = 0u64;
        for b in text {
            let Some(digit) = digit(*b, base) else {
                break;
            };
            value = value.wrapping_mul(base).wrapping_add(digit);
        }
        value
    }

    // The number as a level: 0 where it does not fit. (2147483648 is taken with its sign or without.)
    fn level(self) -> i32 {
        let magnitude = match u32::try_from(self.value()) {
            Ok(magnitude) if magnitude <= 2147483648 => magnitude.cast_signed(),
            _ => 0,
        };
        if self.mark == b'-' {
            magnitude.wrapping_neg()
        } else {
            magnitude
        }
    }
}

// The value of a digit in base 10 or 16.
fn digit(b: u8, base: u64) -> Option<u64> {
    let digit = match b {
        b'0'..=b'9' => b - b'0',
        b'a'..=b'f' => b - b'a' + 10,
        _ => return None,
    };
    Some(u64::from(digit)).filter(|digit| *digit < base)
}
