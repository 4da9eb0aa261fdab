// The text of an answer, put together from bytes, words and numbers.
ghost use Rattle.std.specs.Prelude.{◌+◌, ◌*◌, ◌≤◌, ◌<◌, [], ◌∷◌, length};
ghost use Rattle.refusals.specs.Stated.{stated};
ghost use Rattle.refusals.specs.Said.{answered, refused};
ghost use Rattle.cuts_output.specs.Lines.{decimal, spaced, lines};
ghost use Rattle.cuts_output.specs.Written.{Front, shown};
ghost use Rattle.cuts_output.specs.Inner.Text.{Put};

use refusals::Refusal;

// A text in the making: its bytes stand in `out`, and the next one goes to the index `at`.
#[derive(Drop)]
struct Text<'a> {
    out: &'a mut [u8],
    at: usize,
}

impl Text<'_> {
    // Writes `byte`.
    fn put_byte(&mut self, byte: u8)
        requires { self.old.at < length self.old.out.now }
        ensures { Put (byte ∷ []) self.old self.new }
    {
        self.out[self.at] = byte;
        self.at += 1;
    }

    // Writes the bytes of `word`.
    fn put_word(&mut self, word: &[u8])
        requires { self.old.at + length word.now ≤ length self.old.out.now }
        ensures { Put word.now self.old self.new }
    {
        let next = self.at + word.len();
        self.out[self.at..next].copy_from_slice(word);
        self.at = next;
    }

    // Writes `n` in decimal. Cost: one call for each digit.
    fn put_decimal(&mut self, n: usize)
        requires { self.old.at + length (decimal n) ≤ length self.old.out.now }
        ensures { Put (decimal n) self.old self.new }
    {
        if 10 <= n {
            self.put_decimal(n / 10);
        }
        self.put_byte(48 + (n % 10) as u8);
    }

    // Writes `n` with a space in front.
    fn put_spaced(&mut self, n: usize)
        requires { self.old.at + 21 ≤ length self.old.out.now }
        ensures text { Put (spaced (n ∷ [])) self.old self.new }
        ensures short { self.new.at ≤ self.old.at + 21 }
    {
        self.put_byte(32);
        self.put_decimal(n);
    }

    // Writes `n` and a line's end.
    fn put_line(&mut self, n: usize)
        requires { self.old.at + 21 ≤ length self.old.out.now }
        ensures text { Put (lines (n ∷ [])) self.old self.new }
        ensures short { self.new.at ≤ self.old.at + 21 }
    {
        self.put_decimal(n);
        self.put_byte(10);
    }

    // Writes each of `cuts` on a line. Cost: one turn for each.
    fn put_lines(&mut self, cuts: &[usize])
        requires { self.old.at + 21 * length cuts.now ≤ length self.old.out.now }
        ensures text { Put (lines cuts.now) self.old self.new }
        ensures short { self.new.at ≤ self.old.at + 21 * length cuts.now }
    {
        for cut in cuts {
            self.put_line(*cut);
        }
    }

    // Writes the values of `refusal`, if it has any, each with a space in front.
    fn put_values(&mut self, refusal: Refusal)
        requires { self.old.at + 42 ≤ length self.old.out.now }
        ensures text { Put (spaced (stated refusal).values) self.old self.new }
        ensures short { self.new.at ≤ self.old.at + 42 }
    {
        let Some((first, second)) = refusal.values() else {
            return;
        };
        self.put_spaced(first);
        self.put_spaced(second);
    }
}

// Writes to the front of `out` the word `cuts`, the number of `cuts`, and then they themselves, one a
// line; nothing where `out` may be too short. The room is asked by a division, since a product could
// wrap. The answer is how many bytes were written. Cost: one turn for each cut. It is no `Display`: the
// text goes as bytes into an area that is lent, and nothing is allocated.
pub fn print_cuts(cuts: &[usize], out: &mut [u8]) -> usize
    ensures { Front (shown (answered cuts.now) (length out.old)) out.old out.new result }
{
    let size = out.len();
    if size < 26 {
        return 0;
    }
    let count = cuts.len();
    if (size - 26) / 21 < count {
        return 0;
    }
    let mut text = Text { out, at: 0 };
    text.put_word(b"cuts");
    text.put_spaced(count);
    text.put_byte(10);
    text.put_lines(cuts);
    text.at
}

// Writes to the front of `out` the word `refused`, the number of `refusal` and its values; nothing
// where `out` may be too short. The answer is how many bytes were written. It is no `Display`, for the
// reason beside `print_cuts`.
pub fn print_refusal(refusal: Refusal, out: &mut [u8]) -> usize
    ensures { Front (shown (refused (stated refusal)) (length out.old)) out.old out.new result }
{
    if out.len() < 71 {
        return 0;
    }
    let mut line = Text { out, at: 0 };
    line.put_word(b"refused");
    line.put_spaced(refusal.number() as usize);
    line.put_values(refusal);
    line.put_byte(10);
    line.at
}
