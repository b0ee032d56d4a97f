// Bytes of a text: the first of them, and the place of one.
ghost use Rattle.std.specs.Prelude.{◌≤◌, length};

use ground::Part;

// The first bytes of a buffer, none where it has fewer.
pub fn front(bytes: &[u8], len: usize) -> &[u8] {
    let part = Part { start: 0, len };
    part.show(bytes)
}

// The first place from `at` on that has this byte, or the end.
// (The end and no `None`: a caller takes what stands before the place either way.)
pub fn find(text: &[u8], at: usize, b: u8) -> usize
    requires { at ≤ length text.now }
    ensures { (at ≤ result) × (result ≤ length text.now) }
{
    for next in at..text.len() {
        if text[next] == b {
            return next;
        }
    }
    text.len()
}
