// 'Two characters to a byte.'
ghost use Rattle.std.specs.Prelude.{◌≡◌, ◌*◌, ◌≤◌, [], ◌∷◌, ◌++◌, length, drop};
ghost use Rattle.rules.specs.Text.{hex};

// Writes a byte as two characters.
#[tactic(auto, unfolding(rules::specs::Text::hex))]
fn put_byte(part: &mut [u8], byte: u8)
    requires { length part.old ≡ 2 }
    ensures { part.new ≡ hex (byte ∷ []) }
{
    let high = numbers::character(byte / 16);
    let low = numbers::character(byte % 16);
    part.copy_from_slice(&[high, low]);
}

// Writes bytes as characters into the front of a buffer: the part of each byte is lent to its writer.
pub fn put(out: &mut [u8], bytes: &[u8])
    requires { 2 * length bytes.now ≤ length out.old }
    ensures { out.new ≡ hex bytes.now ++ drop (2 * length bytes.now) out.old }
{
    for (k, &byte) in bytes.iter().enumerate() {
        let at = 2 * k;
        put_byte(&mut out[at..at + 2], byte);
    }
}
