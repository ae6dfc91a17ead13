// Bytes gathered at the front of room for N.
ghost use Rattle.std.specs.Prelude.{◌≡◌, ◌+◌, ◌-◌, ◌≤◌, length};

#[derive(Drop)]
pub(crate) struct Buffer<const N: usize> {
    pub(crate) bytes: [u8; N],
    pub(crate) used: usize,
    pub(crate) ghost inside: { used ≤ N },
}

impl<const N: usize> Buffer<N> {
    pub(crate) fn new() -> Buffer<N>
        ensures { result.used ≡ 0 }
    {
        Buffer {
            bytes: [0; N],
            used: 0,
        }
    }

    // What is gathered.
    pub(crate) fn gathered(&self) -> &[u8]
        ensures { length result.now ≡ self.now.used }
    {
        &self.bytes[..self.used]
    }

    // How many bytes more there is room for.
    pub(crate) fn left(&self) -> usize
        ensures { result ≡ N - self.now.used }
    {
        N - self.used
    }

    pub(crate) fn clear(&mut self)
        ensures { self.new.used ≡ 0 }
    {
        self.used = 0;
    }

    // Gathers a text, as far as there is room for it.
    pub(crate) fn gather(&mut self, text: &[u8]) {
        let n = text.len().min(self.left());
        let end = self.used + n;
        let room = &mut self.bytes[..];
        room[self.used..end].copy_from_slice(&text[..n]);
        self.used = end;
    }
}
