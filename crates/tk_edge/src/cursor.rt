ghost use Rattle.std.specs.Prelude.{◌≡◌, ◌==◌, ◌≤◌, ◌++◌, ◌&&◌, ◌||◌, false, not, drop, length, min, take};

use tk_types::Bytes;

/// Bytes that are given from the front on.
#[derive(Drop)]
pub struct Cursor {
    pub bytes: Bytes,
    pub position: usize,
    pub ended: bool,
    ghost within: { position ≤ length bytes },
}

impl Cursor {
    pub fn new(bytes: Bytes) -> Self
        ensures left { drop result.position result.bytes ≡ bytes }
        ensures ended { result.ended ≡ false }
    {
        Cursor {
            bytes,
            position: 0,
            ended: false,
        }
    }

    /// Copies as many bytes as there are and as fit, and gives their number.
    pub fn read(&mut self, buf: &mut [u8]) -> usize
        ensures count { result ≡ min (length (drop self.old.position self.old.bytes)) (length buf.new) }
        ensures bytes { drop self.old.position self.old.bytes ≡ take result buf.new ++ drop self.new.position self.new.bytes }
        ensures end { self.new.ended ≡ (self.old.ended || (result == 0 && not (length buf.new == 0))) }
    {
        let count = copy_front(&self.bytes.as_slice()[self.position..], buf);
        self.position += count;
        self.ended = self.ended || (count == 0 && !buf.is_empty());
        count
    }
}

/// Copies as many bytes as there are and as fit, from front to front, and gives their number.
fn copy_front(from: &[u8], to: &mut [u8]) -> usize
    ensures count { result ≡ min (length from.now) (length to.old) }
    ensures copied { take result to.new ≡ take result from.now }
{
    let count = from.len().min(to.len());
    to[..count].copy_from_slice(&from[..count]);
    count
}
