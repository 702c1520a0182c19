// The digits and their values, and with them the pairs at the front of a text: two digits to a byte.
ghost use Rattle.std.specs.Prelude.{◌≡◌, length, take, take_while};
ghost use Rattle.text.specs.Line.{HasDigits, is_pair, pair_of, decoded, over};

// The value of no digit.
const NO: u8 = 16;

// The value of each character: '0' to '9' are 48 to 57, 'A' to 'F' 65 to 70.
static VALUES: [u8; 256] = [
    NO, NO, NO, NO, NO, NO, NO, NO, NO, NO, NO, NO, NO, NO, NO, NO, NO, NO, NO, NO, NO, NO, NO, NO,
    NO, NO, NO, NO, NO, NO, NO, NO, NO, NO, NO, NO, NO, NO, NO, NO, NO, NO, NO, NO, NO, NO, NO, NO,
    0, 1, 2, 3, 4, 5, 6, 7, 8, 9, NO, NO, NO, NO, NO, NO, NO, 10, 11, 12, 13, 14, 15, NO, NO, NO,
    NO, NO, NO, NO, NO, NO, NO, NO, NO, NO, NO, NO, NO, NO, NO, NO, NO, NO, NO, NO, NO, NO, NO, NO,
    NO, NO, NO, NO, NO, NO, NO, NO, NO, NO, NO, NO, NO, NO, NO, NO, NO, NO, NO, NO, NO, NO, NO, NO,
    NO, NO, NO, NO, NO, NO, NO, NO, NO, NO, NO, NO, NO, NO, NO, NO, NO, NO, NO, NO, NO, NO, NO, NO,
    NO, NO, NO, NO, NO, NO, NO, NO, NO, NO, NO, NO, NO, NO, NO, NO, NO, NO, NO, NO, NO, NO, NO, NO,
    NO, NO, NO, NO, NO, NO, NO, NO, NO, NO, NO, NO, NO, NO, NO, NO, NO, NO, NO, NO, NO, NO, NO, NO,
    NO, NO, NO, NO, NO, NO, NO, NO, NO, NO, NO, NO, NO, NO, NO, NO, NO, NO, NO, NO, NO, NO, NO, NO,
    NO, NO, NO, NO, NO, NO, NO, NO, NO, NO, NO, NO, NO, NO, NO, NO, NO, NO, NO, NO, NO, NO, NO, NO,
    NO, NO, NO, NO, NO, NO, NO, NO, NO, NO, NO, NO, NO, NO,
];

// The table of digits.
#[derive(Clone, Copy)]
pub struct Digits {
    values: &'static [u8; 256],
    ghost all: { HasDigits values.now },
}

impl Digits {
    pub fn new() -> Self {
        Digits { values: &VALUES }
    }

    // Two digits to a byte.
    fn pair(&self, a: u8, b: u8) -> Option<u8>
        ensures { result ≡ pair_of a b }
    {
        let h = self.values[usize::from(a)];
        if 15 < h {
            return None;
        }
        let l = self.values[usize::from(b)];
        if 15 < l {
            return None;
        }
        Some(16 * h + l)
    }

    // The bytes of the pairs at the front of a text, up to the first pair that is none or to the end of the buffer; how many they are.
    pub fn decode(&self, text: &[u8], out: &mut [u8]) -> usize
        ensures { (result ≡ length (take (length out.old) (decoded text.now))) × (out.new ≡ over (decoded text.now) out.old) }
    {
        let most = out.len().min(text.len() / 2);
        for n in 0..most {
            let Some(x) = self.pair(text[2 * n], text[2 * n + 1]) else {
                return n;
            };
            out[n] = x;
        }
        most
    }

    // How many of these are pairs of digits, up to the first that is none.
    fn pairs(&self, all: &[[u8; 2]]) -> usize
        ensures { result ≡ length (take_while is_pair all.now) }
    {
        all.iter()
            .take_while(|p| self.pair(p[0], p[1]).is_some())
            .count()
    }

    // How many stand there in all, where the first are looked at: as many as a buffer had room for, if there are so many.
    #[tactic(auto, using(crate::proofs::Decoded::first_all))]
    pub fn all_pairs(&self, text: &[u8], first: usize, room: usize) -> usize
        requires { first ≡ length (take room (decoded text.now)) }
        ensures { result ≡ length (decoded text.now) }
    {
        if first < room {
            return first;
        }
        let (rest, _) = text[2 * first..].as_chunks::<2>();
        first + self.pairs(rest)
    }
}
