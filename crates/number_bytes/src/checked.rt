// Numbers out of bytes and into bytes that are known to be there.
ghost use Rattle.std.specs.Prelude.{◌≡◌, ◌+◌, ◌*◌, ◌≤◌, length};
ghost use Rattle.std.proofs.lemmas.List.Edits.{sets};
ghost use Rattle.basics.specs.Lists.{each};
ghost use Rattle.number_bytes.specs.Bytes.{bytes_of, number_at, words_at};

// The number that so many bytes make, 4 at most.
pub fn number_at<const WIDTH: usize>(bytes: &[u8], at: usize) -> u32
    requires { (WIDTH ≤ 4) × (at + WIDTH ≤ length bytes.now) }
    ensures { result ≡ number_at WIDTH bytes.now at }
{
    let mut padded = [0; 4];
    padded[..WIDTH].copy_from_slice(&bytes[at..at + WIDTH]);
    u32::from_le_bytes(padded)
}

// The words from a place on, as many as there is room for.
#[tactic(auto, using(crate::proofs::ByteLaws::words_read), unfolding(crate::specs::Bytes::words_at))]
pub fn read_words(bytes: &[u8], at: usize, out: &mut [u32])
    requires { at + 4 * length out.old ≤ length bytes.now }
    ensures { out.new ≡ words_at (length out.old) bytes.now at }
{
    for (i, word) in out.iter_mut().enumerate() {
        *word = number_at::<4>(bytes, at + 4 * i);
    }
}

// Stores a number in so many bytes, 4 at most.
pub fn put<const WIDTH: usize>(out: &mut [u8], at: usize, x: u32)
    requires { (WIDTH ≤ 4) × (at + WIDTH ≤ length out.old) }
    ensures { out.new ≡ sets out.old at (bytes_of WIDTH x) }
{
    out[at..at + WIDTH].copy_from_slice(&x.to_le_bytes()[..WIDTH]);
}

// Stores words from a place on.
#[tactic(auto, using(crate::proofs::ByteLaws::words_put), unfolding(basics::specs::Lists::each))]
pub fn put_words(out: &mut [u8], at: usize, words: &[u32])
    requires { at + 4 * length words.now ≤ length out.old }
    ensures { out.new ≡ sets out.old at (each (bytes_of 4) words.now) }
{
    for (i, word) in words.iter().enumerate() {
        put::<4>(out, at + 4 * i, *word);
    }
}
