// Writing: numbers, keys and sheet lines.
#![tactic(auto)]

ghost use Rattle.std.specs.Prelude.{[], ◌∷◌, ◌+◌, ◌*◌, ◌≤◌, ◌<◌, length};
ghost use Rattle.keys.specs.Keys.{list_of};
ghost use Rattle.text.specs.Text.{tab, decimal_of, tabbed, sheet_line, commas, key_text, keys_text, keys_line, Wrote, fitted};
ghost use Rattle.writing.specs.Page.{HasRoom, Puts};

// The last digits of n, at most so many, from a byte of the room on; answers the byte behind them. Not by `write!`, which answers a Result that would
// have to be shown never to fail. The room and the byte are handed on by themselves: through a page, each digit would wait for the count in memory.
fn put_digits(room: &mut [u8], at: usize, most: u8, n: u32) -> usize
    requires { at + most ≤ length room.old }
    ensures wrote { Wrote room.old at (decimal_of most n) result room.new }
    ensures fits { result ≤ at + most }
{
    if most == 0 {
        return at;
    }
    if n < 10 {
        room[at] = b'0' + n as u8;
        return at + 1;
    }
    let end = put_digits(&mut *room, at, most - 1, n / 10);
    room[end] = b'0' + (n % 10) as u8;
    end + 1
}

// The room of a line, and how many of its bytes are written.
#[derive(Drop)]
struct Page<'a> {
    room: &'a mut [u8],
    written: usize,
}

impl Page<'_> {
    fn put_byte(&mut self, b: u8)
        requires { HasRoom self.old 1 }
        ensures { Puts self.old 1 (b ∷ []) self.new }
    {
        self.room[self.written] = b;
        self.written += 1;
    }

    // The last digits of n, at most so many.
    fn put_digits(&mut self, most: u8, n: u32)
        requires { HasRoom self.old most }
        ensures { Puts self.old most (decimal_of most n) self.new }
    {
        self.written = put_digits(&mut *self.room, self.written, most, n);
    }

    // A mark, and the last digits of n.
    fn put_behind(&mut self, mark: u8, most: u8, n: u32)
        requires { HasRoom self.old (1 + most) }
        ensures { Puts self.old (1 + most) (mark ∷ decimal_of most n) self.new }
    {
        self.put_byte(mark);
        self.put_digits(most, n);
    }

    // Each number behind a tab.
    #[tactic(auto, unfolding(text::specs::Text::tabbed))]
    fn put_tabbed(&mut self, numbers: &[u32])
        requires { HasRoom self.old (8 * length numbers.now) }
        ensures { Puts self.old (8 * length numbers.now) (tabbed numbers.now) self.new }
    {
        for n in numbers {
            self.put_behind(b'\t', 7, *n);
        }
    }

    // The key k behind a comma, if the set has it.
    #[tactic(auto, using(text::proofs::Writing::decimal_key), unfolding(text::specs::Text::key_text))]
    fn put_key(&mut self, keys: u64, k: u8)
        requires { (k < 64) × HasRoom self.old 3 }
        ensures { Puts self.old 3 (key_text keys k) self.new }
    {
        if keys::has(keys, k) {
            self.put_behind(b',', 2, k as u32);
        }
    }

    // Each key of a set behind a comma.
    #[tactic(auto, unfolding(keys::specs::Keys::list_of))]
    fn put_commas(&mut self, keys: u64)
        requires { HasRoom self.old 192 }
        ensures { Puts self.old 192 (commas (list_of keys)) self.new }
    {
        for k in 0..64 {
            self.put_key(keys, k);
        }
    }

    // The keys of a set behind a tab, which takes the place of the first comma.
    fn put_keys(&mut self, keys: u64)
        requires { HasRoom self.old 192 }
        ensures { Puts self.old 192 (tab ∷ keys_text (list_of keys)) self.new }
    {
        let start = self.written;
        self.put_commas(keys);
        self.room[start] = b'\t';
        if self.written == start {
            self.room[start + 1] = b'-';
            self.written = start + 2;
        }
    }
}

// A sheet line at the front of the room; where its most bytes do not fit, nothing, and the answer is 0, as `fitted` has it.
#[tactic(auto, unfolding(text::specs::Text::fitted))]
pub fn put_line(room: &mut [u8], letter: u8, numbers: &[u32]) -> usize
    ensures { Wrote room.old 0 (fitted (2 + 8 * length numbers.now) (length room.old) (sheet_line letter numbers.now)) result room.new }
{
    if room.len() < 2 + 8 * numbers.len() {
        return 0;
    }
    let mut line = Page { room, written: 0 };
    line.put_byte(letter);
    line.put_tabbed(numbers);
    line.put_byte(b'\n');
    line.written
}

// A sheet line of two numbers and the keys of a set, in the same way.
#[tactic(auto, unfolding(text::specs::Text::fitted))]
pub fn put_keys_line(room: &mut [u8], letter: u8, a: u32, b: u32, keys: u64) -> usize
    ensures { Wrote room.old 0 (fitted 210 (length room.old) (keys_line letter (a ∷ b ∷ []) (list_of keys))) result room.new }
{
    if room.len() < 210 {
        return 0;
    }
    let mut page = Page { room, written: 0 };
    page.put_byte(letter);
    page.put_tabbed(&[a, b]);
    page.put_keys(keys);
    page.put_byte(b'\n');
    page.written
}
